// Reads a chart file into lent lists: judges all of it first, then the room, and only then writes, in a second walk.
#![tactic(auto)]

ghost use Rattle.std.specs.Prelude.{◌≡◌, length};
ghost use Rattle.chart_lists.specs.Lent.{mut_at_entry, at_exit};
ghost use Rattle.refusal.specs.Refused.{answer_as};
ghost use Rattle.reader.specs.Reading.{read_into, read_answer, lists_after};
ghost use Rattle.reader.specs.Parts.{enough};

use chart_lists::{ChartLists, Header};
use refusal::Refusal;

// Whether the lists have room for a chart with this header and so many tests.
#[tactic(auto, using(std::proofs::lemmas::Bool::Decides::nat_tests), unfolding(crate::specs::Parts::enough))]
fn room(chart: Header, tests: usize, lists: ChartLists) -> bool
    ensures { result ≡ enough chart.accepting chart.transitions tests
        (length lists.entry.accepting.now) (length lists.entry.sources.now) (length lists.entry.targets.now)
        (length lists.entry.events.now) (length lists.entry.starts.now) (length lists.entry.test_counts.now)
        (length lists.entry.timers.now) (length lists.entry.codes.now) (length lists.entry.constants.now) }
{
    let transitions = usize::from(chart.transitions);
    usize::from(chart.accepting) <= lists.accepting.len()
        && transitions <= lists.sources.len()
        && transitions <= lists.targets.len()
        && transitions <= lists.events.len()
        && transitions <= lists.starts.len()
        && transitions <= lists.test_counts.len()
        && tests <= lists.timers.len()
        && tests <= lists.codes.len()
        && tests <= lists.constants.len()
}

// The chart of a file in the lent lists, over their fronts. A refused call leaves them as they were.
// stays: nine lists one by one, as C lends them (`chart_read`), and as the clauses `answer` and `lists` speak of them.
pub fn read_chart(
    file: &[u8],
    accepting: &mut [u16],
    sources: &mut [u16],
    targets: &mut [u16],
    events: &mut [u8],
    starts: &mut [u64],
    test_counts: &mut [u8],
    timers: &mut [u8],
    codes: &mut [u8],
    constants: &mut [u32],
) -> Result<Header, Refusal>
    ensures answer { answer_as result
        ≡ read_answer (mut_at_entry accepting sources targets events starts test_counts timers codes constants) file.now }
    ensures lists { at_exit accepting sources targets events starts test_counts timers codes constants
        ≡ lists_after (read_into (mut_at_entry accepting sources targets events starts test_counts timers codes constants) file.now)
        (mut_at_entry accepting sources targets events starts test_counts timers codes constants) }
{
    let (header, tests) = file_judging::judge_file(file)?;
    let lists = ChartLists {
        accepting,
        sources,
        targets,
        events,
        starts,
        test_counts,
        timers,
        codes,
        constants,
    };
    if !room(header, tests as usize, lists) {
        return Err(refusal::NO_ROOM);
    }
    filling::fill(
        file,
        accepting,
        sources,
        targets,
        events,
        starts,
        test_counts,
        timers,
        codes,
        constants,
    )
}
