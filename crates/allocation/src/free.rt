// Which numbers a family's locations hold, and the smallest that they do not hold: word by word, 64 numbers at a time.
ghost use Rattle.std.specs.Prelude.{◌≡◌, not, ◌||◌, ℕ, ◌+◌, ◌*◌, ◌≤◌, ◌<◌, length};
ghost use Rattle.lists.specs.Lists.{lowest};
ghost use Rattle.timer_set.specs.Members.{member};
ghost use Rattle.chart_lists.specs.Limits.{most_locations};
ghost use Rattle.allocation.specs.Cells.{most_cells};
ghost use Rattle.allocation.specs.Rows.{held_words, held_length};
ghost use Rattle.allocation.specs.Rows.{Lengths, WordsAgree, in_row, in_word, some_in, taken};

use crate::family::Family;
use timer_set::TimerSet;

// As many numbers as there may be cells, and the words that they take.
const MOST_NUMBERS: u16 = crate::MOST_CELLS as u16;

const MOST_WORDS: u16 = MOST_NUMBERS / 64;

// The set with x for each number 64 w + x in the row of location s.
fn with_row(set: TimerSet, cells: &[u16], s: usize, w: u16) -> TimerSet
    requires { (s < most_locations) × (64 * s + 64 ≤ length cells.now) }
    ensures { (x : ℕ) → x < 64
        → member result.bits x ≡ (member set.bits x || in_row cells.now s (64 * w + x) 64) }
{
    let mut found = set;
    for i in 0..64 {
        let number = cells[64 * s + i];
        if number / 64 == w {
            found = found.with((number % 64) as u8);
        }
    }
    found
}

impl<'a> Family<'a> {
    // Word w of the numbers that the family's locations hold.
    fn held_word(self, held: &[u64], w: usize) -> TimerSet
        requires { (w < held_words) × (length held.now ≡ held_length) }
        ensures { (x : ℕ) → member result.bits x
            ≡ some_in self.entry.sets.now self.entry.timer (λ s. in_word held.now s w x) (length self.entry.sets.now) }
    {
        let mut set = TimerSet::EMPTY;
        for s in self.from..self.end {
            if self.has(s) {
                let word = held[chart_lists::MOST_LOCATIONS * w + s];
                set = set.join(TimerSet { bits: word });
            }
        }
        set
    }

    // The numbers 64 w + x in the rows of the family's locations, as the set of all x.
    fn row_word(self, cells: &[u16], w: u16) -> TimerSet
        requires { length cells.now ≡ 64 * length self.sets.now }
        ensures { (x : ℕ) → x < 64
            → member result.bits x ≡ taken self.entry.sets.now cells.now self.entry.timer (64 * w + x) }
    {
        let mut set = TimerSet::EMPTY;
        for s in self.from..self.end {
            if self.has(s) {
                set = with_row(set, cells, s, w);
            }
        }
        set
    }

    // The same for any word: the lower numbers by the words of held numbers, the others by the rows.
    fn taken_word(self, cells: &[u16], held: &[u64], w: u16) -> TimerSet
        requires { Lengths self.sets.now cells.now held.now × WordsAgree cells.now held.now (length self.sets.now) }
        ensures { (x : ℕ) → x < 64
            → member result.bits x ≡ taken self.entry.sets.now cells.now self.entry.timer (64 * w + x) }
    {
        if w < crate::HELD_WORDS {
            self.held_word(held, w as usize)
        } else {
            self.row_word(cells, w)
        }
    }

    // The smallest number that stands in no row of the family's locations, word by word.
    pub fn lowest_free(self, cells: &[u16], held: &[u64]) -> u16
        requires { Lengths self.sets.now cells.now held.now × WordsAgree cells.now held.now (length self.sets.now) }
        ensures { result ≡ lowest (λ k. not (taken self.entry.sets.now cells.now self.entry.timer k)) most_cells }
    {
        for w in 0..MOST_WORDS {
            let low = self.taken_word(cells, held, w).lowest_missing();
            if low < 64 {
                return 64 * w + low as u16;
            }
        }
        MOST_NUMBERS
    }
}
