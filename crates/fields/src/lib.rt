// The fields of a chart file and the parts of a transition's record, each read at a place and answered by its value with the next place, or by
// its refusal. Nothing is asked of a place: past the end of the file a field is cut, and that is 3.
//
// stays: `let .. else` and not `?`, a rule of the project (docs/DECISIONS.md, 32): the first field that fails ends the reading in the else branch.
#![tactic(auto)]

pub mod record;
pub mod test;

ghost use Rattle.std.specs.Prelude.{◌≡◌, ◌≤◌, drop};
ghost use Rattle.file_format.specs.Parse.{below};
ghost use Rattle.refusal.specs.Reason.{number_of};
ghost use Rattle.fields.specs.Meaning.{parsed_as, NumberAt};

use refusal::Refusal;

// A value with the place after it, or the refusal of its field.
pub type Parsed<T> = Result<(T, usize), Refusal>;

// A number of so many bytes, the highest first.
// stays: `next += 1`; counted by the loop itself, `for next in at..at + width`, it is no plainer: nothing is asked of `at`, so the sum may overflow.
pub fn number_at(s: &[u8], at: usize, width: u64) -> Parsed<u64>
    requires { width ≤ 8 }
    ensures { NumberAt width s.now at result }
{
    let mut value = 0;
    let mut next = at;
    for _k in 0..width {
        let Some(byte) = s.get(next) else {
            return Err(refusal::CUT_OFF);
        };
        value = value * 256 + u64::from(*byte);
        next += 1;
    }
    Ok((value, next))
}

// A number of so many bytes that is below a limit, or the refusal given.
#[tactic(auto, unfolding(file_format::specs::Parse::below))]
pub fn number_below(s: &[u8], at: usize, width: u64, limit: u64, refusal: Refusal) -> Parsed<u64>
    requires { width ≤ 8 }
    ensures { parsed_as s.now result ≡ below width limit (number_of refusal.reason) refusal.place (drop at s.now) }
{
    let a = number_at(s, at, width);
    let Ok((x, _)) = a else {
        return a;
    };
    if x < limit { a } else { Err(refusal) }
}
