// Renames the timers of a chart's lists by the cells of a numbering: the number of timer j at location q stands at 64 q + j.
#![tactic(auto)]

ghost use Rattle.std.specs.Prelude.{◌≡◌, ℕ, ◌+◌, ◌*◌, ◌≤◌, ◌<◌, length, get_or};
ghost use Rattle.model.specs.Chart.{Chart};
ghost use Rattle.model.specs.Rewrite.{Numbering, rewritten_by};
ghost use Rattle.chart_lists.specs.Limits.{most_locations};
ghost use Rattle.chart_lists.specs.Lists.{lists_of, put};
ghost use Rattle.chart_lists.specs.Header.{header_of};
ghost use Rattle.chart_lists.specs.Holds.{Holds};
ghost use Rattle.chart_lists.specs.Partly.{edges_of, tests_of};
ghost use Rattle.renaming.specs.Renaming.{with_number, RenamedTo, board_timer, renamed_row, CellsOf};

use chart_lists::Header;
use timer_set::TimerSet;

// The set with a number, if it is one of a board's timers.
fn with_number(set: TimerSet, number: u16) -> TimerSet
    ensures { result.bits ≡ with_number set.bits number }
{
    if number < 64 {
        set.with(number as u8)
    } else {
        set
    }
}

// The numbers at location q of the timers of the set. Its members alone are gone over: most transitions start few timers.
fn renamed_set(set: TimerSet, cells: &[u16], q: usize) -> TimerSet
    requires { (q < most_locations) × (64 * q + 64 ≤ length cells.now) }
    ensures { RenamedTo cells.now q set.bits 0 result.bits }
{
    let mut renamed = TimerSet::EMPTY;
    for j in set {
        renamed = with_number(renamed, cells[64 * q + j as usize]);
    }
    renamed
}

// What each transition starts: the numbers at its target of the timers that it starts.
pub fn rename_starts<'a>(
    header: Header,
    targets: &'a [u16],
    starts: &'a [u64],
    cells: &'a [u16],
    renamed: &mut [u64],
)
    requires { ((c : Chart) × (N : Numbering) × (header ≡ header_of c) × Holds c (edges_of c (lists_of c).sources targets.now starts.now)
        × CellsOf c N cells.now) × (header.transitions ≤ length renamed.old) }
    ensures { (c : Chart) (N : Numbering) → header ≡ header_of c
        → Holds c (edges_of c (lists_of c).sources targets.now starts.now) → CellsOf c N cells.now
        → renamed.new ≡ put (lists_of (rewritten_by N c)).starts renamed.old }
{
    for i in 0..header.transitions as usize {
        let q = targets[i] as usize;
        let set = TimerSet { bits: starts[i] };
        renamed[i] = renamed_set(set, cells, q).bits;
    }
}

// The number as a timer, 0 where it is none of a board's.
fn board_timer(number: u16) -> u8
    ensures { result ≡ board_timer number }
{
    if number < 64 { number as u8 } else { 0 }
}

// The numbers at location q of the timers of one transition's tests.
fn rename_row<'a>(timers: &'a [u8], cells: &'a [u16], q: usize, renamed: &mut [u8])
    requires { ((k : ℕ) → k < length timers.now → get_or timers.now k 0 < 64) × (length renamed.old ≡ length timers.now)
        × (q < most_locations) × (64 * q + 64 ≤ length cells.now) }
    ensures { renamed.new ≡ renamed_row cells.now q timers.now }
{
    for (k, timer) in timers.iter().enumerate() {
        renamed[k] = board_timer(cells[64 * q + *timer as usize]);
    }
}

// The timer of each test: the number at its transition's source of the timer that it tests.
pub fn rename_tests<'a>(
    header: Header,
    sources: &'a [u16],
    test_counts: &'a [u8],
    timers: &'a [u8],
    cells: &'a [u16],
    renamed: &mut [u8],
)
    requires { (c : Chart) × (N : Numbering) × (header ≡ header_of c) × Holds c (tests_of c sources.now test_counts.now timers.now)
        × CellsOf c N cells.now × (length (lists_of c).timers ≤ length renamed.old) }
    ensures { (c : Chart) (N : Numbering) → header ≡ header_of c
        → Holds c (tests_of c sources.now test_counts.now timers.now) → CellsOf c N cells.now
        → renamed.new ≡ put (lists_of (rewritten_by N c)).timers renamed.old }
{
    let mut base: usize = 0;
    for i in 0..header.transitions as usize {
        let q = sources[i] as usize;
        let end = base + test_counts[i] as usize;
        rename_row(&timers[base..end], cells, q, &mut renamed[base..end]);
        base = end;
    }
}
