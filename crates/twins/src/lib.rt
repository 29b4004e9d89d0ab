// Twins, timers of which every transition starts both or neither, count as one, the lowest of them: which it is for each timer, sets with twins so
// counted, and the numbers of lowest twins handed to all.
#![tactic(auto)]

ghost use Rattle.std.specs.Prelude.{◌≡◌, true, map, ℕ, ◌+◌, ◌*◌, ◌≤◌, ◌<◌, eqb, length};
ghost use Rattle.timer_set.specs.Members.{member, image};
ghost use Rattle.model.specs.Twins.{lowest_in_same};
ghost use Rattle.model.specs.Rewrite.{Numbering, through};
ghost use Rattle.allocation.specs.Cells.{cells_of};
ghost use Rattle.twins.specs.LowestTwins.{narrowed, own_lowest, lowest_at, LowestListed, LowestOf};
ghost use Rattle.twins.specs.Shared.{shared_cell, RowShared, OnlyIn};

pub mod live;

use allocation::NO_NUMBER;
use timer_set::TimerSet;

// Those of the timers that are in the set exactly if j is.
fn narrow(alike: TimerSet, set: TimerSet, j: u8) -> TimerSet
    ensures { result.bits ≡ narrowed alike.bits set.bits j }
{
    if set.has(j) {
        alike.common(set)
    } else {
        alike.minus(set)
    }
}

// The lowest timer that is in the same sets as timer j. Where that is j itself, the sets are gone over only until each lower timer is told from j.
fn lowest_in_same(sets: &[u64], j: u8) -> u8
    requires { j < 64 }
    ensures { (n : ℕ) → j < n → result ≡ lowest_in_same sets.now n j }
{
    let mut alike = TimerSet::EVERY;
    for bits in sets {
        alike = narrow(alike, TimerSet { bits: *bits }, j);
        if alike.lowest() == j as u32 {
            return j;
        }
    }
    alike.lowest() as u8
}

// The lowest twin of each of so many timers over the front of `lowest`, by what each transition starts. Which of them are their own.
pub fn lowest_twins(starts: &[u64], timers: u8, lowest: &mut [u8]) -> TimerSet
    requires { (timers ≤ 64) × (timers ≤ length lowest.old) }
    ensures listed { (j : ℕ) → j < timers → lowest_at lowest.new j ≡ lowest_in_same starts.now timers j }
    ensures own { result.bits ≡ own_lowest starts.now timers }
{
    let mut own = TimerSet::EMPTY;
    for j in 0..timers {
        let twin = lowest_in_same(starts, j);
        lowest[j as usize] = twin;
        if twin == j {
            own = own.with(j);
        }
    }
    own
}

// The lowest twin of each timer, and which timers are their own.
#[derive(Clone, Copy)]
pub struct LowestTwins<'a> {
    pub lowest: &'a [u8],
    pub own: TimerSet,
}

impl LowestTwins<'_> {
    // The lowest twins of the timers of a set. Timers that are their own are taken over at once.
    fn merged_set(&self, set: TimerSet) -> TimerSet
        requires { LowestListed set.bits self.now.lowest.now
            × ((j : ℕ) → member set.bits j ≡ true → member self.now.own.bits j ≡ eqb (lowest_at self.now.lowest.now j) j) }
        ensures { result.bits ≡ image (lowest_at self.now.lowest.now) set.bits }
    {
        let mut merged = set.common(self.own);
        for j in set.minus(self.own) {
            merged = merged.with(self.lowest[j as usize]);
        }
        merged
    }

    // Each live set with twins counted as one: the lowest twin in place of each timer.
    pub fn merge_sets(&self, live: &[u64], merged: &mut [u64])
        requires { LowestOf live.now self.now.lowest.now self.now.own.bits × (length merged.old ≡ length live.now) }
        ensures { merged.new ≡ map (image (lowest_at self.now.lowest.now)) live.now }
    {
        for (q, bits) in live.iter().enumerate() {
            merged[q] = self.merged_set(TimerSet { bits: *bits }).bits;
        }
    }

    // The cell of (q, j): that of its lowest twin if j is in the set, else that of no number.
    fn shared_cell(&self, set: TimerSet, cells: &[u16], q: usize, j: u8) -> u16
        requires { LowestListed set.bits self.now.lowest.now × (64 * q + 64 ≤ length cells.now) × (j < 64) }
        ensures { result ≡ shared_cell set.bits self.now.lowest.now cells.now q j }
    {
        if set.has(j) {
            cells[64 * q + self.lowest[j as usize] as usize]
        } else {
            NO_NUMBER
        }
    }

    // The row of cells of location q. Downwards, since a lowest twin is no higher: its own cell is read before it is written.
    fn share_row(&self, set: TimerSet, q: usize, cells: &mut [u16])
        requires { LowestListed set.bits self.now.lowest.now × (64 * q + 64 ≤ length cells.old) }
        ensures { RowShared set.bits self.now.lowest.now q cells.old 0 cells.new }
    {
        for j in (0..64).rev() {
            cells[64 * q + j as usize] = self.shared_cell(set, cells, q, j);
        }
    }

    // The cells of a numbering of lowest twins become those of all live timers: each has the number of its lowest twin. Where every live timer is its
    // own the row stays.
    pub fn share_numbers(&self, live: &[u64], cells: &mut [u16])
        requires { LowestOf live.now self.now.lowest.now self.now.own.bits × (length cells.old ≡ 64 * length live.now) }
        ensures { (N : Numbering) → cells.old ≡ cells_of N (length live.now)
            → OnlyIn (map (image (lowest_at self.now.lowest.now)) live.now) N
            → cells.new ≡ cells_of (through live.now (lowest_at self.now.lowest.now) N) (length live.now) }
    {
        for (q, bits) in live.iter().enumerate() {
            let set = TimerSet { bits: *bits };
            if !set.minus(self.own).is_empty() {
                self.share_row(set, q, cells);
            }
        }
    }
}
