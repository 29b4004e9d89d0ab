// Judges a chart that stands in lists (docs/LISTS.md), all of it: the version, then the fields in the file's order, then 17.
#![tactic(auto)]

ghost use Rattle.std.specs.Prelude.{◌≡◌, ◌&&◌, ◌+◌, ◌*◌, ◌≤◌, ◌<◌, eqb, length};
ghost use Rattle.model.specs.Version.{width_of};
ghost use Rattle.refusal.specs.Refused.{answer_as};
ghost use Rattle.chart_lists.specs.Large.{large_among};
ghost use Rattle.list_judging.specs.Parts.{check_header, check_accepting, check_transitions, check_chart};
ghost use Rattle.chart_lists.specs.Stored.{lists_in};

mod entries;
mod transition;

use crate::entries::{below, entry_at};
use crate::transition::{Sizes, judge_transition};
use chart_lists::{ChartLists, Header};
use refusal::{Reason, Refusal};

// The version, the numbers of locations and timers, and the initial location.
#[tactic(auto, unfolding(crate::specs::Parts::check_header))]
fn judge_header(header: Header) -> Result<(), Refusal>
    ensures { answer_as result ≡ check_header header }
{
    if !file_format::known_version(header.version as u64) {
        return Err(refusal::WRONG_VERSION);
    }
    if header.locations as usize > chart_lists::MOST_LOCATIONS {
        return Err(refusal::TOO_MANY);
    }
    if header.locations < 1 {
        return Err(refusal::TOO_MANY);
    }
    if header.initial >= header.locations {
        return Err(refusal::NO_SUCH_LOCATION);
    }
    if header.timers as usize > chart_lists::MOST_TIMERS {
        return Err(refusal::TOO_MANY);
    }
    Ok(())
}

// n accepting locations, strictly rising and below the number of locations.
fn judge_accepting(accepting: &[u16], locations: u16, n: u16) -> Result<u16, Refusal>
    ensures { answer_as result ≡ check_accepting locations accepting.now n }
{
    let mut lowest: u64 = 0;
    for k in 0..n {
        let x = entry_at(accepting, k as usize)?;
        let x = below(
            x as u64,
            locations as u64,
            Reason::NoSuchLocation,
            refusal::NOWHERE,
        )?;
        if x < lowest {
            return Err(refusal::NOT_RISING);
        }
        lowest = x + 1;
    }
    Ok(n)
}

// All transitions: their sizes, summed up.
fn judge_transitions(header: Header, lists: ChartLists) -> Result<Sizes, Refusal>
    ensures { answer_as result
        ≡ check_transitions (lists_in lists.entry) header.locations header.timers header.transitions }
{
    let mut sum = Sizes {
        starts: 0,
        tests: 0,
    };
    for i in 0..header.transitions as usize {
        let sizes = judge_transition(header, lists, i, sum.tests as usize)?;
        sum.starts += sizes.starts;
        sum.tests += sizes.tests;
    }
    Ok(sum)
}

// 17: version 1, and one of the first n constants is over 65,535.
fn too_large(version: u8, constants: &[u32], n: usize) -> bool
    requires { n ≤ length constants.now }
    ensures { result ≡ (eqb version 1 && large_among n constants.now) }
{
    version == 1 && chart_lists::large_among(constants, n)
}

// The length of a file of that version, by what its chart has: accepting locations, transitions, and the sizes of these.
#[tactic(auto, using(model::proofs::Versions::width_most, model::proofs::Versions::tests_most))]
fn file_length(version: u8, accepting: u16, transitions: u16, sizes: Sizes) -> u64
    requires { (sizes.starts < 4294967296) × (sizes.tests < 4294967296) }
    ensures { result ≡ 14 + 2 * accepting + (9 * transitions + sizes.starts + (2 + width_of version) * sizes.tests) }
{
    let width = file_format::width_of(version);
    14 + 2 * (accepting as u64)
        + (9 * (transitions as u64) + sizes.starts + (2 + width) * sizes.tests)
}

// All of the chart: the length of its file.
#[tactic(auto, using(crate::proofs::WholeChart::whole_chart), unfolding(crate::proofs::WholeChart::after_fields))]
pub fn judge(header: Header, lists: ChartLists) -> Result<usize, Refusal>
    ensures { answer_as result ≡ check_chart header (lists_in lists.entry) }
{
    judge_header(header)?;
    let accepting = judge_accepting(lists.accepting, header.locations, header.accepting)?;
    if header.transitions as usize > chart_lists::MOST_TRANSITIONS {
        return Err(refusal::TOO_MANY);
    }
    let sizes = judge_transitions(header, lists)?;
    if too_large(header.version, lists.constants, sizes.tests as usize) {
        return Err(refusal::CONSTANT_TOO_LARGE);
    }
    let bytes = file_length(header.version, accepting, header.transitions, sizes);
    Ok(bytes as usize)
}
