// Gives families their numbers: in the rows of cells of their locations, and in the words of held numbers. Marks the first 20 there by their places.
ghost use Rattle.std.specs.Prelude.{◌≡◌, not, ℕ, ◌+◌, ◌*◌, ◌≤◌, ◌<◌, length, get_or};
ghost use Rattle.lists.specs.Lists.{lowest};
ghost use Rattle.timer_set.specs.Members.{member};
ghost use Rattle.model.specs.Family.{Pairs};
ghost use Rattle.model.specs.Floor.{most_searched};
ghost use Rattle.chart_lists.specs.Limits.{most_locations};
ghost use Rattle.allocation.specs.Cells.{most_cells};
ghost use Rattle.allocation.specs.Rows.{held_words};
ghost use Rattle.allocation.specs.Rows.{Lengths, WordsAgree, Unnumbered, Ready, taken, given, holding, marked};
ghost use Rattle.allocation.specs.Turns.{NumberedTo, Roots};

use crate::Allocated;
use crate::family::{Family, Spread};
use smallest_plan::MOST_SEARCHED;
use timer_set::TimerSet;

impl<'a> Family<'a> {
    // Gives the number to each pair of the family.
    fn give(self, number: u16, cells: &mut [u16])
        requires { length cells.old ≡ 64 * length self.sets.now }
        ensures { (s i : ℕ) → s < length self.entry.sets.now → i < 64
            → get_or cells.new (64 * s + i) 0 ≡ given self.entry.sets.now self.entry.timer number cells.old s i }
    {
        for s in self.from..self.end {
            if self.has(s) {
                cells[64 * s + self.timer as usize] = number;
            }
        }
    }

    // Adds x to word w of each location of the family: of the numbers held, or of the families there, which take one word.
    fn hold(self, w: usize, x: u8, words: &mut [u64])
        requires { (w < held_words) × (x < 64) × (most_locations * w + length self.sets.now ≤ length words.old) }
        ensures { (s v : ℕ) → s < length self.entry.sets.now → v < held_words
            → get_or words.new (most_locations * v + s) 0 ≡ holding self.entry.sets.now self.entry.timer w x words.old s v }
    {
        for s in self.from..self.end {
            if self.has(s) {
                let at = chart_lists::MOST_LOCATIONS * w + s;
                words[at] = TimerSet { bits: words[at] }.with(x).bits;
            }
        }
    }

    // Marks the family at its locations as the one of this place in the order of families, where it is one of the first 20.
    #[tactic(auto, using(crate::proofs::FamiliesAt::marked_past, crate::proofs::FamiliesAt::marked_held))]
    fn mark(self, place: u32, families_at: &mut [u64])
        requires { length families_at.old ≡ length self.sets.now }
        ensures { (s i : ℕ) → s < length self.entry.sets.now → i < most_searched
            → member (get_or families_at.new s 0) i ≡ marked self.entry.sets.now self.entry.timer place families_at.old s i }
    {
        if place < MOST_SEARCHED as u32 {
            self.hold(0, place as u8, families_at);
        }
    }

    // Gives the family the smallest number that its locations do not hold.
    // stays: the cells and the held numbers as two lists, since what joins them does not hold between the two writes: no struct can promise it.
    fn place(self, cells: &mut [u16], held: &mut [u64]) -> u16
        requires { Lengths self.sets.now cells.old held.old × WordsAgree cells.old held.old (length self.sets.now)
            × Unnumbered self.sets.now self.timer cells.old }
        ensures number { result ≡ lowest (λ k. not (taken self.entry.sets.now cells.old self.entry.timer k)) most_cells }
        ensures cells { (s i : ℕ) → s < length self.entry.sets.now → i < 64
            → get_or cells.new (64 * s + i) 0 ≡ given self.entry.sets.now self.entry.timer result cells.old s i }
        ensures held { WordsAgree cells.new held.new (length self.entry.sets.now) }
    {
        let number = self.lowest_free(cells, held);
        self.give(number, cells);
        if number < crate::HELD_NUMBERS {
            self.hold((number / 64) as usize, (number % 64) as u8, held);
        }
        number
    }
}

// Places the families of the timers that begin at one location, rising, and marks them. How many numbers are used by then, and how many families
// there are.
pub fn place_roots(
    spread: Spread,
    cells: &mut [u16],
    held: &mut [u64],
    families_at: &mut [u64],
    counts: Allocated,
) -> Allocated
    requires { Ready spread.sets.now spread.roots.bits spread.from spread.end cells.old held.old
        × (length families_at.old ≡ length spread.sets.now) × (counts.families ≤ most_cells) }
    ensures held { WordsAgree cells.new held.new (length spread.entry.sets.now) }
    ensures numbered { (p : Pairs) (q : ℕ) → Roots p q spread.entry.roots.bits spread.entry.sets.now
        → NumberedTo p (64 * q) cells.old families_at.old counts.used counts.families
        → NumberedTo p (64 * q + 64) cells.new families_at.new result.used result.families }
{
    let mut next = counts;
    for j in spread.roots {
        let family = Family {
            sets: spread.sets,
            timer: j,
            from: spread.from,
            end: spread.end,
        };
        let number = family.place(cells, held);
        family.mark(next.families, families_at);
        next.used = next.used.max(number as u32 + 1);
        next.families += 1;
    }
    next
}
