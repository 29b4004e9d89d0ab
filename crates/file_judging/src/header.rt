// The header of a chart file: the numbers of locations and of timers, the initial location, the accepting locations, the number of transitions.
//
// stays: `let .. else` and not `?`, a rule of the project (docs/DECISIONS.md, 32): the first field that fails ends the reading in the else branch.
ghost use Rattle.std.specs.Prelude.{◌≡◌, drop};
ghost use Rattle.model.specs.Answer.{nowhere};
ghost use Rattle.file_format.specs.Parse.{entry};
ghost use Rattle.fields.specs.Meaning.{parsed_as};
ghost use Rattle.file_judging.specs.Parts.{read_limits, skip_accepting, read_count, skip_header};

use chart_lists::Header;
use fields::Parsed;

// The first four numbers of the body.
#[derive(Clone, Copy)]
pub struct Limits {
    pub locations: u16,
    pub initial: u16,
    pub timers: u8,
    pub accepting: u16,
}

// They stand before the accepting locations.
#[tactic(auto, using(fields::proofs::Within::within), unfolding(crate::specs::Parts::read_limits))]
pub fn limits_at(s: &[u8], at: usize) -> Parsed<Limits>
    ensures { parsed_as s.now result ≡ read_limits (drop at s.now) }
{
    let a = fields::number_below(s, at, 2, 257, refusal::TOO_MANY);
    let Ok((locations, at1)) = a else {
        return Err(a.unwrap_err());
    };
    if locations < 1 {
        return Err(refusal::TOO_MANY);
    }
    let b = fields::number_below(s, at1, 2, locations, refusal::NO_SUCH_LOCATION);
    let Ok((initial, at2)) = b else {
        return Err(b.unwrap_err());
    };
    let d = fields::number_below(s, at2, 1, 65, refusal::TOO_MANY);
    let Ok((timers, at3)) = d else {
        return Err(d.unwrap_err());
    };
    let e = fields::number_at(s, at3, 2);
    let Ok((accepting, next)) = e else {
        return Err(e.unwrap_err());
    };
    let limits = Limits {
        locations: locations as u16,
        initial: initial as u16,
        timers: timers as u8,
        accepting: accepting as u16,
    };
    Ok((limits, next))
}

// One accepting location, at least lowest.
#[tactic(auto, unfolding(file_format::specs::Parse::entry))]
pub fn entry_at(s: &[u8], at: usize, locations: u16, lowest: u64) -> Parsed<u64>
    ensures { parsed_as s.now result ≡ entry 2 locations 5 nowhere lowest (drop at s.now) }
{
    let a = fields::number_below(s, at, 2, u64::from(locations), refusal::NO_SUCH_LOCATION);
    let Ok((x, _)) = a else {
        return a;
    };
    if x < lowest {
        return Err(refusal::NOT_RISING);
    }
    a
}

// The accepting locations, judged and skipped.
fn skip_accepting(s: &[u8], at: usize, n: u16, locations: u16) -> Parsed<u64>
    ensures { parsed_as s.now result ≡ skip_accepting locations n (drop at s.now) }
{
    let mut here = at;
    let mut lowest = 0;
    for _k in 0..n {
        let a = entry_at(s, here, locations, lowest);
        let Ok((x, next)) = a else {
            return a;
        };
        lowest = x + 1;
        here = next;
    }
    Ok((u64::from(n), here))
}

// The number of transitions, which ends the header.
#[tactic(auto, using(fields::proofs::Within::within), unfolding(crate::specs::Parts::read_count))]
pub fn count_at(s: &[u8], at: usize, version: u8, limits: Limits) -> Parsed<Header>
    ensures { parsed_as s.now result
        ≡ read_count version limits.locations limits.initial limits.timers limits.accepting (drop at s.now) }
{
    let a = fields::number_below(s, at, 2, 513, refusal::TOO_MANY);
    let Ok((count, next)) = a else {
        return Err(a.unwrap_err());
    };
    let header = Header {
        version,
        locations: limits.locations,
        initial: limits.initial,
        timers: limits.timers,
        accepting: limits.accepting,
        transitions: count as u16,
    };
    Ok((header, next))
}

// The whole header, for a chart of that version, with the place where the transitions begin.
#[tactic(auto, using(crate::proofs::HeaderParts::header_steps))]
pub fn header_at(s: &[u8], at: usize, version: u8) -> Parsed<Header>
    ensures { parsed_as s.now result ≡ skip_header version (drop at s.now) }
{
    let a = limits_at(s, at);
    let Ok((limits, next)) = a else {
        return Err(a.unwrap_err());
    };
    let b = skip_accepting(s, next, limits.accepting, limits.locations);
    let Ok((_, after)) = b else {
        return Err(b.unwrap_err());
    };
    count_at(s, after, version, limits)
}
