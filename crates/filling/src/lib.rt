// Reads a chart file into lists in one walk: every field is judged, and stored as soon as it is. A refusal ends the walk; what the lists hold then
// is not said. A caller whose lists must stay as they were judges first (the crate `reader`).
//
// stays: `let .. else` and not `?`, a rule of the project (docs/DECISIONS.md, 32): the first field that fails ends the reading in the else branch.
// stays: beside the walk of `file_judging`, which lends nothing (docs/DECISIONS.md, 19); one walk over both is no plainer: it takes a closure over
// the nine lists.
#![tactic(auto)]

mod records;

ghost use Rattle.std.specs.Prelude.{◌≡◌, ◌⊎◌, List, ℕ, ◌≤◌, length, drop};
ghost use Rattle.model.specs.Answer.{returned, nowhere};
ghost use Rattle.model.specs.Chart.{Chart};
ghost use Rattle.chart_lists.specs.Lists.{lists_of, put, put_lists};
ghost use Rattle.chart_lists.specs.Lent.{passed_mut, mut_at_entry, at_exit};
ghost use Rattle.chart_lists.specs.Stored.{stored};
ghost use Rattle.file_format.specs.Parse.{value, rising};
ghost use Rattle.file_format.specs.Body.{FileHeader, read_header};
ghost use Rattle.file_format.specs.File.{chart_in};
ghost use Rattle.refusal.specs.Refused.{answer_as};
ghost use Rattle.fields.specs.Meaning.{parsed_as};
ghost use Rattle.file_judging.specs.Parts.{skip_accepting, skip_header};
ghost use Rattle.filling.specs.Filling.{header_read, RoomToFill};
ghost use Rattle.filling.specs.Parts.{AcceptingFit, ended_as};

use chart_lists::{ChartStore, Header};
use fields::Parsed;
use refusal::Refusal;

// The accepting locations. They are strictly rising, so that there are no more of them than locations.
fn fill_accepting(s: &[u8], at: usize, n: u16, locations: u16, accepting: &mut [u16]) -> Parsed<u64>
    requires { (locations ≤ length accepting.old) ⊎ (n ≤ length accepting.old) }
    ensures read { parsed_as s.now result ≡ skip_accepting locations n (drop at s.now) }
    ensures stored { ((xs t : List ℕ) → rising 2 locations 5 nowhere n (drop at s.now) ≡ value xs t
        → accepting.new ≡ put xs accepting.old) }
{
    let mut here = at;
    let mut lowest = 0;
    for k in 0..usize::from(n) {
        let a = file_judging::header::entry_at(s, here, locations, lowest);
        let Ok((x, next)) = a else {
            return a;
        };
        accepting[k] = x as u16;
        lowest = x + 1;
        here = next;
    }
    Ok((u64::from(n), here))
}

// The header, its accepting locations stored.
fn fill_header(s: &[u8], at: usize, version: u8, accepting: &mut [u16]) -> Parsed<Header>
    requires { AcceptingFit (drop at s.now) (length accepting.old) }
    ensures read { parsed_as s.now result ≡ skip_header version (drop at s.now) }
    ensures stored { ((h : FileHeader) (t : List ℕ) → read_header (drop at s.now) ≡ value h t
        → accepting.new ≡ put h.accepting accepting.old) }
{
    let a = file_judging::header::limits_at(s, at);
    let Ok((limits, next)) = a else {
        return Err(a.unwrap_err());
    };
    let b = fill_accepting(s, next, limits.accepting, limits.locations, accepting);
    let Ok((_, after)) = b else {
        return Err(b.unwrap_err());
    };
    file_judging::header::count_at(s, after, version, limits)
}

// What the end of the walk comes to: the transitions' refusal, 3 if bytes are left, else the chart's header.
#[tactic(auto, using(file_format::proofs::Frame::more_at))]
fn ended(s: &[u8], a: Parsed<u64>, header: Header) -> Result<Header, Refusal>
    ensures { answer_as result ≡ ended_as s.now header a }
{
    let Ok((_, end)) = a else {
        return Err(a.unwrap_err());
    };
    if end < s.len() {
        return Err(refusal::CUT_OFF);
    }
    Ok(header)
}

// The chart of a file, 1 to 8, in the lists. They have room for every chart, or for the one that the file holds.
// stays: nine lists one by one, as C lends them (`chart_read`), and as the clauses `answer` and `lists` of `read_chart` speak of them.
pub fn fill(
    file: &[u8],
    accepting: &mut [u16],
    sources: &mut [u16],
    targets: &mut [u16],
    events: &mut [u8],
    starts: &mut [u64],
    test_counts: &mut [u8],
    timers: &mut [u8],
    codes: &mut [u8],
    constants: &mut [u32],
) -> Result<Header, Refusal>
    requires { RoomToFill file.now (passed_mut accepting sources targets events starts test_counts timers codes constants) }
    ensures answer { answer_as result ≡ header_read file.now }
    ensures lists { ((c : Chart) → chart_in file.now ≡ returned c
        → at_exit accepting sources targets events starts test_counts timers codes constants
        ≡ put_lists (lists_of c) (mut_at_entry accepting sources targets events starts test_counts timers codes constants)) }
{
    let a = file_judging::frame(file);
    let Ok((version, body)) = a else {
        return Err(a.unwrap_err());
    };
    let b = fill_header(file, body, version as u8, accepting);
    let Ok((header, transitions)) = b else {
        return Err(b.unwrap_err());
    };
    let d = records::fill_records(
        file,
        transitions,
        header,
        sources,
        targets,
        events,
        starts,
        test_counts,
        timers,
        codes,
        constants,
    );
    ended(file, d, header)
}

// The same in a store, which has room for every chart.
pub fn fill_into(file: &[u8], store: &mut ChartStore) -> Result<Header, Refusal>
    ensures answer { answer_as result ≡ header_read file.now }
    ensures lists { (c : Chart) → chart_in file.now ≡ returned c → stored store.new ≡ put_lists (lists_of c) (stored store.old) }
{
    fill(
        file,
        &mut store.accepting,
        &mut store.sources,
        &mut store.targets,
        &mut store.events,
        &mut store.starts,
        &mut store.test_counts,
        &mut store.timers,
        &mut store.codes,
        &mut store.constants,
    )
}
