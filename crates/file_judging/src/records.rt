// The transitions' records, judged and skipped.
ghost use Rattle.std.specs.Prelude.{◌≡◌, ◌≤◌, drop};
ghost use Rattle.model.specs.Version.{width_of};
ghost use Rattle.fields.specs.Meaning.{parsed_as};
ghost use Rattle.file_judging.specs.Parts.{skip_tests, skip_transition, skip_transitions};

use chart_lists::Header;
use fields::Parsed;

// g tests, judged and skipped: their number, with the place after them.
fn skip_tests(s: &[u8], at: usize, chart: Header, g: u8, place: u64) -> Parsed<u64>
    ensures { parsed_as s.now result ≡ skip_tests (width_of chart.version) chart.timers place g (drop at s.now) }
{
    let mut here = at;
    for _k in 0..g {
        let a = fields::test::test_at(s, here, chart, place);
        let Ok((_, next)) = a else {
            return Err(a.unwrap_err());
        };
        here = next;
    }
    Ok((u64::from(g), here))
}

// A whole record, judged and skipped: the number of its tests, with the place after it.
#[tactic(auto, using(crate::proofs::RecordParts::skip_head_refused, crate::proofs::RecordParts::skip_tests_left))]
fn skip_record(s: &[u8], at: usize, chart: Header, place: u64) -> Parsed<u64>
    requires { chart.timers ≤ 64 }
    ensures { parsed_as s.now result ≡ skip_transition (width_of chart.version) chart.locations chart.timers place (drop at s.now) }
{
    let a = fields::record::head_at(s, at, chart, place);
    let Ok((head, next)) = a else {
        return Err(a.unwrap_err());
    };
    skip_tests(s, next, chart, head.tests, place)
}

// All transitions, judged and skipped: the number of their tests, with the place after them.
pub fn skip_records(s: &[u8], at: usize, chart: Header) -> Parsed<u64>
    requires { chart.timers ≤ 64 }
    ensures { parsed_as s.now result
        ≡ skip_transitions (width_of chart.version) chart.locations chart.timers chart.transitions (drop at s.now) }
{
    let mut here = at;
    let mut tests = 0;
    for i in 0..chart.transitions {
        let a = skip_record(s, here, chart, u64::from(i));
        let Ok((g, next)) = a else {
            return a;
        };
        tests += g;
        here = next;
    }
    Ok((tests, here))
}
