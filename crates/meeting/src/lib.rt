// Which families meet, from the families at each location, and the fewest timers of any plan that gives meeting families different numbers.
#![tactic(auto)]

ghost use Rattle.std.specs.Prelude.{◌≡◌, List, ℕ, ◌≤◌, ◌<◌};
ghost use Rattle.timer_set.specs.Members.{member};
ghost use Rattle.model.specs.Family.{Family};
ghost use Rattle.model.specs.SmallestPlan.{fewest};
ghost use Rattle.model.specs.Floor.{most_searched};
ghost use Rattle.meeting.specs.Meeting.{meet_at, RowsOf, Asked};

use smallest_plan::MOST_SEARCHED;
use timer_set::TimerSet;

// The families that meet family i, without itself.
fn row_of(families_at: &[u64], i: u8) -> TimerSet
    requires { i < 64 }
    ensures { (j : ℕ) → member result.bits j ≡ meet_at families_at.now i j }
{
    let mut row = TimerSet::EMPTY;
    for word in families_at {
        let here = TimerSet { bits: *word };
        if here.has(i) {
            row = row.join(here);
        }
    }
    row.without(i)
}

// The families that each of the n families meets.
fn meeting_rows(families_at: &[u64], n: usize) -> [u64; MOST_SEARCHED]
    requires { n ≤ most_searched }
    ensures { (fs : List Family) (low high : ℕ) → Asked fs families_at.now n low high → RowsOf fs result }
{
    let mut rows = [0u64; MOST_SEARCHED];
    for i in 0..n {
        rows[i] = row_of(families_at, i as u8).bits;
    }
    rows
}

// The fewest timers of any plan for the families, which are between low and high. Where these are one number nothing is searched.
pub fn fewest_timers(families_at: &[u64], families: u32, low: u32, high: u32) -> u32
    requires { (fs : List Family) × Asked fs families_at.now families low high }
    ensures { (fs : List Family) → Asked fs families_at.now families low high → result ≡ fewest fs }
{
    if low == high {
        return low;
    }
    let n = families as usize;
    let rows = meeting_rows(families_at, n);
    smallest_plan::smallest(&rows, n, low as usize, high as usize) as u32
}
