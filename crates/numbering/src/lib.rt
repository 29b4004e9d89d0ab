// The live sets, the board numbers and the floor of a chart, from its lists or its file, and the judgement of a board's limit.
#![tactic(auto)]

ghost use Rattle.std.specs.Prelude.{◌≡◌, ◌*◌, ◌≤◌, length};
ghost use Rattle.refusal.specs.Refused.{answer_as};
ghost use Rattle.model.specs.Answer.{returned};
ghost use Rattle.model.specs.Chart.{Chart};
ghost use Rattle.model.specs.Spare.{reached_part};
ghost use Rattle.model.specs.Places.{ReachedIfAsked};
ghost use Rattle.chart_lists.specs.Limits.{most_locations};
ghost use Rattle.judgement.specs.Judging.{judged_in};
ghost use Rattle.allocation.specs.Cells.{most_cells};
ghost use Rattle.numbering.specs.Held.{ChartHeld};
ghost use Rattle.numbering.specs.ChartNumbered.{ChartNumbered};
ghost use Rattle.numbering.specs.Limits.{LimitJudged};
ghost use Rattle.numbering.specs.FileNumbers.{file_numbers, numbered_in, ListsNumbered};

mod floor;
mod whole;

use crate::floor::find_floor;
use crate::whole::number_lists;
use chart_lists::{Header, MOST_LOCATIONS, MOST_TESTS, MOST_TRANSITIONS};
use refusal::Refusal;
use spare::{Part, Transitions};

// How many board numbers a chart uses, how many families it has, and how many rounds found its live sets.
#[derive(Clone, Copy)]
pub struct Numbered {
    pub used: u32,
    pub families: u32,
    pub rounds: u32,
}

// The header of a chart, how many board numbers it uses, its floor, whether that is the fewest timers of any plan, and how many rounds found its
// live sets.
#[derive(Clone, Copy)]
pub struct FileNumbers {
    pub header: Header,
    pub used: u32,
    pub floor: u32,
    pub searched: bool,
    pub rounds: u32,
}

// The numbers of the part of a chart that counts (as `number_lists`): the transitions that leave a reached location.
fn number_part<'a>(
    header: Header,
    transitions: Transitions<'a>,
    live: &mut [u64],
    merged: &mut [u64],
    cells: &mut [u16],
    families_at: &mut [u64],
) -> Numbered
    requires { ((c : Chart) × ChartHeld c header transitions) × (header.locations ≤ length live.old) × (header.locations ≤ length merged.old)
        × (64 * header.locations ≤ length cells.old) × (header.locations ≤ length families_at.old) }
    ensures { ((c : Chart) → ChartHeld c header transitions.entry
        → ChartNumbered (reached_part c) live.new merged.new cells.new families_at.new result) }
{
    let mut part = Part::EMPTY;
    spare::reached_part(header, transitions, &mut part);
    number_lists(
        Header {
            transitions: part.count,
            ..header
        },
        Transitions {
            sources: &part.sources,
            targets: &part.targets,
            starts: &part.starts,
            tested: &part.tested,
        },
        live,
        merged,
        cells,
        families_at,
    )
}

// The numbers of a chart that was judged, over the fronts of the lists: where its version allows no spare location, all of it counts.
pub fn number_chart<'a>(
    header: Header,
    transitions: Transitions<'a>,
    live: &mut [u64],
    merged: &mut [u64],
    cells: &mut [u16],
    families_at: &mut [u64],
) -> Numbered
    requires { ((c : Chart) × ChartHeld c header transitions × ReachedIfAsked c) × (header.locations ≤ length live.old)
        × (header.locations ≤ length merged.old) × (64 * header.locations ≤ length cells.old)
        × (header.locations ≤ length families_at.old) }
    ensures { ((c : Chart) → ChartHeld c header transitions.entry → ReachedIfAsked c
        → ChartNumbered (reached_part c) live.new merged.new cells.new families_at.new result) }
{
    if file_format::allows_spare(header.version) {
        number_part(header, transitions, live, merged, cells, families_at)
    } else {
        number_lists(header, transitions, live, merged, cells, families_at)
    }
}

// 11 for a board of more than 64 timers, then 20 where a chart uses more numbers than the board has timers.
pub fn judge_limit(k: u32, used: u32) -> Result<(), Refusal>
    ensures { LimitJudged k used result }
{
    if k > 64 {
        return Err(refusal::LIMIT_TOO_LARGE);
    }
    if used > k {
        return Err(refusal::BOARD_TOO_SMALL);
    }
    Ok(())
}

// The numbers of a chart that was judged, with its floor.
fn number_judged<'a>(
    header: Header,
    transitions: Transitions<'a>,
    live: &mut [u64],
    cells: &mut [u16],
) -> FileNumbers
    requires { ((c : Chart) × ChartHeld c header transitions × ReachedIfAsked c) × (header.locations ≤ length live.old)
        × (64 * header.locations ≤ length cells.old) }
    ensures { ((c : Chart) → ChartHeld c header transitions.entry → ReachedIfAsked c
        → (result ≡ file_numbers c) × ListsNumbered c live.new cells.new) }
{
    let mut merged = [0u64; MOST_LOCATIONS];
    let mut families_at = [0u64; MOST_LOCATIONS];
    let numbered = number_chart(
        header,
        transitions,
        live,
        &mut merged,
        cells,
        &mut families_at,
    );
    let m = header.locations as usize;
    let found = find_floor(&merged[..m], &families_at[..m], numbered);
    FileNumbers {
        header,
        used: numbered.used,
        floor: found.floor,
        searched: found.searched,
        rounds: numbered.rounds,
    }
}

// The chart of a file, with its live sets and its board numbers over the fronts of the lists, or a refusal, 1 to 10. The analysis and the program
// take these from here.
// stays: ten arrays and not a ChartStore: those that nobody reads the compiler then leaves out, of the stack too; with a store the program `allocate`
// takes 26,000 bytes more of it, and a small chart's analysis a quarter more time.
pub fn number_file(file: &[u8], live: &mut [u64], cells: &mut [u16]) -> Result<FileNumbers, Refusal>
    requires { (most_locations ≤ length live.old) × (most_cells ≤ length cells.old) }
    ensures answer { answer_as result ≡ numbered_in file.now }
    ensures lists { ((c : Chart) → judged_in file.now ≡ returned c → ListsNumbered c live.new cells.new) }
{
    let mut accepting = [0u16; MOST_LOCATIONS];
    let mut sources = [0u16; MOST_TRANSITIONS];
    let mut targets = [0u16; MOST_TRANSITIONS];
    let mut events = [0u8; MOST_TRANSITIONS];
    let mut starts = [0u64; MOST_TRANSITIONS];
    let mut test_counts = [0u8; MOST_TRANSITIONS];
    let mut timers = [0u8; MOST_TESTS];
    let mut codes = [0u8; MOST_TESTS];
    let mut constants = [0u32; MOST_TESTS];
    let mut tested = [0u64; MOST_TRANSITIONS];
    let header = judgement::judge(
        file,
        &mut accepting,
        &mut sources,
        &mut targets,
        &mut events,
        &mut starts,
        &mut test_counts,
        &mut timers,
        &mut codes,
        &mut constants,
        &mut tested,
    )?;
    let transitions = Transitions {
        sources: &sources,
        targets: &targets,
        starts: &starts,
        tested: &tested,
    };
    Ok(number_judged(header, transitions, live, cells))
}
