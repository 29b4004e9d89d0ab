// The transitions' records: of each its source, its target, its event, its set of starts and the number of its tests, and its tests behind those of
// the transitions before it.
//
// stays: `let .. else` and not `?`, a rule of the project (docs/DECISIONS.md, 32): the first field that fails ends the reading in the else branch.
// stays: beside `skip_tests`, `skip_record`, `skip_records` of `file_judging`; one walk over both is no plainer: it takes a closure over eight lists.
ghost use Rattle.std.specs.Prelude.{◌≡◌, List, ℕ, ◌+◌, ◌≤◌, ◌<◌, length, drop};
ghost use Rattle.model.specs.Chart.{Test, Transition};
ghost use Rattle.model.specs.Version.{width_of};
ghost use Rattle.chart_lists.specs.Lists.{all_tests};
ghost use Rattle.file_format.specs.Parse.{value};
ghost use Rattle.file_format.specs.Body.{read_tests, read_transition, read_transitions};
ghost use Rattle.fields.specs.Meaning.{parsed_as};
ghost use Rattle.file_judging.specs.Parts.{skip_tests, skip_transition, skip_transitions};
ghost use Rattle.filling.specs.Parts.{HeadStored, HeadsStored, TestsStored, RecordFits, TestsFit};

use chart_lists::Header;
use fields::Parsed;

// stays: the lists that `fill` is lent, one by one, in these three functions too; a struct of `&mut` lists is no plainer: one call alone makes it.
// The tests of one transition, from the entry base of the lists on.
fn fill_tests(
    s: &[u8],
    at: usize,
    chart: Header,
    g: u8,
    place: u64,
    base: usize,
    timers: &mut [u8],
    codes: &mut [u8],
    constants: &mut [u32],
) -> Parsed<u64>
    requires { (base + g ≤ length timers.old) × (base + g ≤ length codes.old) × (base + g ≤ length constants.old) }
    ensures read { parsed_as s.now result ≡ skip_tests (width_of chart.version) chart.timers place g (drop at s.now) }
    ensures stored { (ts : List Test) (t : List ℕ) → read_tests (width_of chart.version) chart.timers place g (drop at s.now) ≡ value ts t
        → TestsStored ts base timers.old codes.old constants.old
        timers.new codes.new constants.new }
{
    let mut here = at;
    for k in 0..usize::from(g) {
        let a = fields::test::test_at(s, here, chart, place);
        let Ok((test, next)) = a else {
            return Err(a.unwrap_err());
        };
        let to = base + k;
        timers[to] = test.timer;
        codes[to] = u8::from(test.comparison);
        constants[to] = test.constant;
        here = next;
    }
    Ok((u64::from(g), here))
}

// The record of transition k, whose tests stand from the entry base on: the number of its tests, with the place after it.
fn fill_record(
    s: &[u8],
    at: usize,
    chart: Header,
    k: usize,
    base: usize,
    sources: &mut [u16],
    targets: &mut [u16],
    events: &mut [u8],
    starts: &mut [u64],
    test_counts: &mut [u8],
    timers: &mut [u8],
    codes: &mut [u8],
    constants: &mut [u32],
) -> Parsed<u64>
    requires limit_bound { (chart.timers ≤ 64) × (k < length sources.old) × (k < length targets.old) × (k < length events.old)
        × (k < length starts.old) × (k < length test_counts.old) }
    requires record_fits { RecordFits (width_of chart.version) chart.locations chart.timers k base (drop at s.now)
        (length timers.old) (length codes.old) (length constants.old) }
    ensures read { parsed_as s.now result ≡ skip_transition (width_of chart.version) chart.locations chart.timers k (drop at s.now) }
    ensures stored { (r : Transition) (t : List ℕ)
        → read_transition (width_of chart.version) chart.locations chart.timers k (drop at s.now) ≡ value r t
        → HeadStored r k sources.old targets.old events.old starts.old test_counts.old
        sources.new targets.new events.new starts.new test_counts.new
        × TestsStored r.tests base timers.old codes.old constants.old
        timers.new codes.new constants.new }
{
    let a = fields::record::head_at(s, at, chart, k as u64);
    let Ok((head, next)) = a else {
        return Err(a.unwrap_err());
    };
    sources[k] = head.source;
    targets[k] = head.target;
    events[k] = head.event;
    starts[k] = head.starts;
    test_counts[k] = head.tests;
    fill_tests(
        s, next, chart, head.tests, k as u64, base, timers, codes, constants,
    )
}

// All transitions: the number of their tests, with the place after them.
pub fn fill_records(
    s: &[u8],
    at: usize,
    chart: Header,
    sources: &mut [u16],
    targets: &mut [u16],
    events: &mut [u8],
    starts: &mut [u64],
    test_counts: &mut [u8],
    timers: &mut [u8],
    codes: &mut [u8],
    constants: &mut [u32],
) -> Parsed<u64>
    requires limit_bound { (chart.timers ≤ 64) × (chart.transitions ≤ length sources.old) × (chart.transitions ≤ length targets.old)
        × (chart.transitions ≤ length events.old) × (chart.transitions ≤ length starts.old) × (chart.transitions ≤ length test_counts.old) }
    requires tests_fit { TestsFit (width_of chart.version) chart.locations chart.timers chart.transitions (drop at s.now)
        (length timers.old) (length codes.old) (length constants.old) }
    ensures read { parsed_as s.now result
        ≡ skip_transitions (width_of chart.version) chart.locations chart.timers chart.transitions (drop at s.now) }
    ensures stored { (rs : List Transition) (t : List ℕ)
        → read_transitions (width_of chart.version) chart.locations chart.timers chart.transitions (drop at s.now) ≡ value rs t
        → HeadsStored rs sources.old targets.old events.old starts.old test_counts.old
        sources.new targets.new events.new starts.new test_counts.new
        × TestsStored (all_tests rs) 0 timers.old codes.old constants.old
        timers.new codes.new constants.new }
{
    let mut here = at;
    let mut base: usize = 0;
    for k in 0..usize::from(chart.transitions) {
        let a = fill_record(
            s,
            here,
            chart,
            k,
            base,
            sources,
            targets,
            events,
            starts,
            test_counts,
            timers,
            codes,
            constants,
        );
        let Ok((g, next)) = a else {
            return a;
        };
        base += g as usize;
        here = next;
    }
    Ok((base as u64, here))
}
