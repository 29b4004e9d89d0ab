// The smallest number of timers in any plan that gives meeting families different numbers, by search. At most 20 families: a set of them is a
// TimerSet, family i in the place of timer i, and row i is the set of those that family i meets.
#![tactic(auto)]

mod clique;

ghost use Rattle.std.specs.Prelude.{◌≡◌, true, ℕ, ◌+◌, ◌-◌, ◌^◌, ◌≤◌, ◌<◌, max, eqb, get_or};
ghost use Rattle.timer_set.specs.Members.{member, common, minus, removed};
ghost use Rattle.model.specs.Floor.{most_searched};
ghost use Rattle.smallest_plan.specs.RowPlans.{Mutual, Bounds, SmallestOf};
ghost use Rattle.smallest_plan.specs.Search.{SearchReady, Answers, held_after};

use clique::largest_clique;
use timer_set::TimerSet;

// The most families that rows are given for.
pub const MOST_SEARCHED: usize = 20;

// One point of the search: row i is the set of the families that family i meets, `numbers` may be given, number c is held against the families of
// held[c], those that are unplaced have no number yet, and from `used` on no number is held.
#[derive(Clone, Copy)]
struct Search<'a> {
    rows: &'a [u64; MOST_SEARCHED],
    numbers: usize,
    held: [u64; MOST_SEARCHED],
    unplaced: TimerSet,
    used: usize,
}

impl<'a> Search<'a> {
    // The families that family v meets.
    fn row(&self, v: u8) -> TimerSet
        requires { v < most_searched }
        ensures { result.bits ≡ get_or self.now.rows.now v 0 }
    {
        TimerSet {
            bits: self.rows[v as usize],
        }
    }

    // The families against which the number c is held.
    fn against(&self, c: usize) -> TimerSet
        requires { c < most_searched }
        ensures { result.bits ≡ get_or self.now.held c 0 }
    {
        TimerSet { bits: self.held[c] }
    }

    // How pressing an unplaced family is: by the numbers held against it and the unplaced families that it meets, taken together, then by the latter.
    // Where these are fewer than `numbers`, a number is left for it whatever the others get, so it comes last. The contract says nothing of that: any
    // choice is right, and this one is quick.
    fn score(&self, v: u8) -> usize
        requires { (self.now.used ≤ most_searched) × (v < most_searched) }
    {
        let mut score = 64 * self.row(v).common(self.unplaced).count() as usize;
        for set in &self.held[..self.used] {
            if (TimerSet { bits: *set }).has(v) {
                score += 63;
            }
        }
        score
    }

    // The unplaced family to go on with.
    fn pick(&self) -> u8
        requires { (self.now.used ≤ most_searched) × (self.now.unplaced.bits ≡ 0 → ⊥)
            × ((i : ℕ) → member self.now.unplaced.bits i ≡ true → i < most_searched) }
        ensures { (result < most_searched) × (member self.now.unplaced.bits result ≡ true) }
    {
        let mut best = self.unplaced.lowest() as u8;
        let mut most: usize = 0;
        for v in self.unplaced {
            let s = self.score(v);
            if most < s {
                best = v;
                most = s;
            }
        }
        best
    }

    // Family v is given the number c: it is held against each family that v meets.
    fn give_number(&mut self, v: u8, c: usize)
        requires { (v < most_searched) × (c < most_searched) }
        ensures { self.new ≡ record self.old {
          held = held_after self.old.rows.now self.old.held v c;
          unplaced = record { bits = removed self.old.unplaced.bits v };
          used = max self.old.used (c + 1);
        } }
    {
        self.held[c] = self.against(c).join(self.row(v)).bits;
        self.unplaced = self.unplaced.without(v);
        self.used = self.used.max(c + 1);
    }

    // Whether v takes nothing from the families of `part` if it gets the number c: c is held already against each of them that v meets.
    fn takes_nothing(&self, v: u8, c: usize, part: TimerSet) -> bool
        requires { (v < most_searched) × (c < most_searched) }
        ensures { result ≡ eqb (minus (common (get_or self.now.rows.now v 0) part.bits) (get_or self.now.held c 0)) 0 }
    {
        self.row(v).common(part).minus(self.against(c)).is_empty()
    }

    // A conflict: a set of unplaced families that cannot be completed, that is, given so many numbers, no two that meet the same, none that is held
    // against them. The empty set is answered where all unplaced families can be. From `used` on all numbers are alike, and only the first of them is
    // tried. A conflict from which c at v takes nothing is one whatever v gets, so no further number is tried at v (conflict-directed backjumping).
    // Each call within another has one unplaced family fewer, so the recursion is at most 21 calls deep.
    fn conflict(&self) -> TimerSet
        requires { SearchReady self.now.rows.now self.now.held self.now.numbers self.now.unplaced.bits self.now.used }
        ensures { Answers self.now.rows.now self.now.held self.now.numbers self.now.unplaced.bits result.bits }
    {
        if self.unplaced.is_empty() {
            return self.unplaced;
        }
        let v = self.pick();
        let limit = self.numbers.min(self.used + 1);
        let mut found = TimerSet::EMPTY.with(v);
        for c in 0..limit {
            if !self.against(c).has(v) {
                let mut next = *self;
                next.give_number(v, c);
                let part = next.conflict();
                if self.takes_nothing(v, c, part) {
                    return part;
                }
                found = found.join(part);
            }
        }
        found
    }
}

// The set of the families below n.
fn families_below(n: usize) -> TimerSet
    requires { n ≤ most_searched }
    ensures { result.bits ≡ 2 ^ n - 1 }
{
    TimerSet {
        bits: (1u64 << n) - 1,
    }
}

// The smallest number of timers in any plan for n families, which is at least `low` and at most `high`: no number is searched below the size of the
// largest clique, and nothing where the bounds are equal.
pub fn smallest(rows: &[u64; MOST_SEARCHED], n: usize, low: usize, high: usize) -> usize
    requires { (n ≤ most_searched) × (high ≤ most_searched) × Mutual rows.now n × Bounds rows.now n low high }
    ensures { SmallestOf rows.now n result }
{
    let all = families_below(n);
    for k in largest_clique(rows, all, low)..high {
        let search = Search {
            rows,
            numbers: k,
            held: [0; MOST_SEARCHED],
            unplaced: all,
            used: 0,
        };
        if search.conflict().is_empty() {
            return k;
        }
    }
    high
}
