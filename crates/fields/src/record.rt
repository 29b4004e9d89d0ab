// A transition's record up to its tests: its ends and its event, the timers that it starts, and the number of its tests.
ghost use Rattle.std.specs.Prelude.{◌≡◌, ◌≤◌, drop};
ghost use Rattle.model.specs.Version.{width_of};
ghost use Rattle.fields.specs.Parts.{read_ends, read_starts, read_test_count, read_head};
ghost use Rattle.fields.specs.Meaning.{parsed_as};

use crate::{Parsed, number_at, number_below};
use chart_lists::Header;
use refusal::{Reason, Refusal};
use timer_set::TimerSet;

// n started timers, strictly rising and below the number of timers: their set.
#[tactic(auto, using(crate::proofs::Within::within))]
pub fn starts_at(s: &[u8], at: usize, n: u64, timers: u8, place: u64) -> Parsed<u64>
    requires { timers ≤ 64 }
    ensures { parsed_as s.now result ≡ read_starts timers place n (drop at s.now) }
{
    let no_such_timer = Refusal {
        reason: Reason::NoSuchTimer,
        place,
    };
    let mut set = TimerSet::EMPTY;
    let mut lowest = 0;
    let mut here = at;
    for _k in 0..n {
        let a = number_below(s, here, 1, u64::from(timers), no_such_timer);
        let Ok((x, next)) = a else {
            return a;
        };
        if x < lowest {
            return Err(Refusal {
                reason: Reason::NotRising,
                place,
            });
        }
        set = set.with(x as u8);
        lowest = x + 1;
        here = next;
    }
    Ok((set.bits, here))
}

// The first four fields of a record.
#[derive(Clone, Copy)]
pub struct Ends {
    pub length: u16,
    pub source: u16,
    pub target: u16,
    pub event: u8,
}

#[tactic(auto, using(crate::proofs::Within::within), unfolding(crate::specs::Parts::read_ends))]
fn ends_at(s: &[u8], at: usize, locations: u16, place: u64) -> Parsed<Ends>
    ensures { parsed_as s.now result ≡ read_ends locations place (drop at s.now) }
{
    let no_such_location = Refusal {
        reason: Reason::NoSuchLocation,
        place,
    };
    let a = number_at(s, at, 2);
    let Ok((length, at1)) = a else {
        return Err(a.unwrap_err());
    };
    let b = number_below(s, at1, 2, u64::from(locations), no_such_location);
    let Ok((source, at2)) = b else {
        return Err(b.unwrap_err());
    };
    let d = number_below(s, at2, 2, u64::from(locations), no_such_location);
    let Ok((target, at3)) = d else {
        return Err(d.unwrap_err());
    };
    let e = number_at(s, at3, 1);
    let Ok((event, next)) = e else {
        return Err(e.unwrap_err());
    };
    let ends = Ends {
        length: length as u16,
        source: source as u16,
        target: target as u16,
        event: event as u8,
    };
    Ok((ends, next))
}

// The number of a record's tests, at most 8, where the record's length is that of n started timers and so many tests.
#[tactic(auto, using(crate::proofs::Within::within), unfolding(crate::specs::Parts::read_test_count, file_format::specs::Body::record_length))]
fn test_count_at(s: &[u8], at: usize, version: u8, length: u16, n: u64, place: u64) -> Parsed<u64>
    requires { n ≤ 64 }
    ensures { parsed_as s.now result ≡ read_test_count (width_of version) length n place (drop at s.now) }
{
    let a = number_at(s, at, 1);
    let Ok((g, _)) = a else {
        return a;
    };
    let width = file_format::width_of(version);
    if u64::from(length) != 7 + n + (2 + width) * g {
        return Err(refusal::CUT_OFF);
    }
    if g > 8 {
        return Err(Refusal {
            reason: Reason::TooMany,
            place,
        });
    }
    a
}

// A record up to its tests, with their number.
#[derive(Clone, Copy)]
pub struct Head {
    pub source: u16,
    pub target: u16,
    pub event: u8,
    pub starts: u64,
    pub tests: u8,
}

// The head of a transition of that chart, with the place where its tests begin.
// Inlined: else a copy of the header is handed over for each transition.
#[inline(always)]
#[tactic(auto, using(crate::proofs::Within::within, crate::proofs::Parts::count_few), unfolding(crate::specs::Parts::read_head))]
pub fn head_at(s: &[u8], at: usize, chart: Header, place: u64) -> Parsed<Head>
    requires { chart.timers ≤ 64 }
    ensures { parsed_as s.now result ≡ read_head (width_of chart.version) chart.locations chart.timers place (drop at s.now) }
{
    let a = ends_at(s, at, chart.locations, place);
    let Ok((ends, at1)) = a else {
        return Err(a.unwrap_err());
    };
    let too_many = Refusal {
        reason: Reason::TooMany,
        place,
    };
    let b = number_below(s, at1, 1, 65, too_many);
    let Ok((n, at2)) = b else {
        return Err(b.unwrap_err());
    };
    let d = starts_at(s, at2, n, chart.timers, place);
    let Ok((starts, at3)) = d else {
        return Err(d.unwrap_err());
    };
    let e = test_count_at(s, at3, chart.version, ends.length, n, place);
    let Ok((g, next)) = e else {
        return Err(e.unwrap_err());
    };
    let head = Head {
        source: ends.source,
        target: ends.target,
        event: ends.event,
        starts,
        tests: g as u8,
    };
    Ok((head, next))
}
