// One test of a transition's record.
ghost use Rattle.std.specs.Prelude.{◌≡◌, drop};
ghost use Rattle.model.specs.Version.{width_of};
ghost use Rattle.file_format.specs.Body.{read_test};
ghost use Rattle.fields.specs.Meaning.{NumberAt, test_as};

use crate::{Parsed, number_at, number_below};
use chart_lists::Header;
use comparison::Comparison;
use refusal::{Reason, Refusal};

#[derive(Clone, Copy)]
pub struct Test {
    pub timer: u8,
    pub comparison: Comparison,
    pub constant: u32,
}

// A test's constant. Each width by itself, so that the compiler unrolls the loop over its bytes.
fn constant_at(s: &[u8], at: usize, version: u8) -> Parsed<u64>
    ensures { NumberAt (width_of version) s.now at result }
{
    if file_format::width_of(version) == 2 {
        number_at(s, at, 2)
    } else {
        number_at(s, at, 4)
    }
}

// One test of a transition of that chart.
#[tactic(auto, using(crate::proofs::Within::within), unfolding(file_format::specs::Body::read_test, file_format::specs::Body::read_comparison))]
pub fn test_at(s: &[u8], at: usize, chart: Header, place: u64) -> Parsed<Test>
    ensures { test_as s.now result ≡ read_test (width_of chart.version) chart.timers place (drop at s.now) }
{
    let no_such_timer = Refusal {
        reason: Reason::NoSuchTimer,
        place,
    };
    let a = number_below(s, at, 1, u64::from(chart.timers), no_such_timer);
    let Ok((timer, at1)) = a else {
        return Err(a.unwrap_err());
    };
    let b = number_at(s, at1, 1);
    let Ok((code, at2)) = b else {
        return Err(b.unwrap_err());
    };
    let Ok(comparison) = Comparison::try_from(code as u8) else {
        return Err(Refusal {
            reason: Reason::NoSuchComparison,
            place,
        });
    };
    let e = constant_at(s, at2, chart.version);
    let Ok((constant, next)) = e else {
        return Err(e.unwrap_err());
    };
    let test = Test {
        timer: timer as u8,
        comparison,
        constant: constant as u32,
    };
    Ok((test, next))
}
