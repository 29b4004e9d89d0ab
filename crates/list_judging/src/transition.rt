// One transition of the lists: its source, target and event, the timers that it starts, and its tests.
ghost use Rattle.std.specs.Prelude.{◌≡◌, ◌≤◌, ◌<◌};
ghost use Rattle.refusal.specs.Refused.{answer_as};
ghost use Rattle.list_judging.specs.Parts.{check_code, check_test, check_tests, check_count};
ghost use Rattle.list_judging.specs.Parts.{check_ends, check_starts, check_transition};
ghost use Rattle.chart_lists.specs.Stored.{lists_in};

use crate::entries::{below, entry_at};
use chart_lists::{ChartLists, Header};
use comparison::Comparison;
use refusal::{Reason, Refusal};
use timer_set::TimerSet;

// Of a transition or of several: how many timers they start, and how many tests they have.
#[derive(Clone, Copy)]
pub struct Sizes {
    pub starts: u64,
    pub tests: u64,
}

// The code of a comparison.
#[tactic(auto, unfolding(crate::specs::Parts::check_code))]
fn judge_code(codes: &[u8], place: u64, k: usize) -> Result<u8, Refusal>
    ensures { answer_as result ≡ check_code codes.now place k }
{
    let code = entry_at(codes, k)?;
    match Comparison::try_from(code) {
        Ok(_) => Ok(code),
        Err(_) => Err(Refusal {
            reason: Reason::NoSuchComparison,
            place,
        }),
    }
}

// The test at place k: its constant.
#[tactic(auto, using(crate::proofs::Parts::check_test_lem), unfolding(crate::specs::FromLists::limited))]
fn judge_test(lists: ChartLists, limit: u8, place: u64, k: usize) -> Result<u32, Refusal>
    ensures { answer_as result ≡ check_test (lists_in lists.entry) limit place k }
{
    let timer = entry_at(lists.timers, k)?;
    below(timer as u64, limit as u64, Reason::NoSuchTimer, place)?;
    judge_code(lists.codes, place, k)?;
    entry_at(lists.constants, k)
}

// g tests from place k on: how many.
fn judge_tests(lists: ChartLists, limit: u8, place: u64, k: usize, g: u8) -> Result<u8, Refusal>
    requires { (k < 4294967296) × (g ≤ 8) }
    ensures { answer_as result ≡ check_tests (lists_in lists.entry) limit place k g }
{
    for t in 0..g {
        judge_test(lists, limit, place, k + t as usize)?;
    }
    Ok(g)
}

// The number of tests of transition i, and these tests.
#[tactic(auto, unfolding(crate::specs::Parts::check_count))]
fn judge_count(lists: ChartLists, limit: u8, i: usize, k: usize) -> Result<u8, Refusal>
    requires { k < 4294967296 }
    ensures { answer_as result ≡ check_count (lists_in lists.entry) lists.entry.test_counts.now limit i k }
{
    let g = entry_at(lists.test_counts, i)?;
    if g > 8 {
        return Err(Refusal {
            reason: Reason::TooMany,
            place: i as u64,
        });
    }
    judge_tests(lists, limit, i as u64, k, g)
}

// The source, the target and the event of transition i.
#[tactic(auto, unfolding(crate::specs::Parts::check_ends, crate::specs::FromLists::limited))]
fn judge_ends(lists: ChartLists, locations: u16, i: usize) -> Result<u8, Refusal>
    ensures { answer_as result
        ≡ check_ends lists.entry.sources.now lists.entry.targets.now lists.entry.events.now locations i }
{
    let source = entry_at(lists.sources, i)?;
    below(
        source as u64,
        locations as u64,
        Reason::NoSuchLocation,
        i as u64,
    )?;
    let target = entry_at(lists.targets, i)?;
    below(
        target as u64,
        locations as u64,
        Reason::NoSuchLocation,
        i as u64,
    )?;
    entry_at(lists.events, i)
}

// The timers that transition i starts: how many.
#[tactic(auto, using(timer_set::proofs::Counts::ones_members), unfolding(crate::specs::Parts::check_starts))]
fn judge_starts(starts: &[u64], timers: u8, i: usize) -> Result<u32, Refusal>
    ensures { answer_as result ≡ check_starts starts.now timers i }
{
    let bits = entry_at(starts, i)?;
    let set = TimerSet { bits };
    if set.all_below(timers) {
        Ok(set.count())
    } else {
        Err(Refusal {
            reason: Reason::NoSuchTimer,
            place: i as u64,
        })
    }
}

// Transition i, its tests from place k on.
#[tactic(auto, using(crate::proofs::Parts::check_transition_lem))]
pub fn judge_transition(
    header: Header,
    lists: ChartLists,
    i: usize,
    k: usize,
) -> Result<Sizes, Refusal>
    requires { k < 4294967296 }
    ensures { answer_as result
        ≡ check_transition (lists_in lists.entry) header.locations header.timers i k }
{
    judge_ends(lists, header.locations, i)?;
    let starts = judge_starts(lists.starts, header.timers, i)?;
    let tests = judge_count(lists, header.timers, i, k)?;
    Ok(Sizes {
        starts: starts as u64,
        tests: tests as u64,
    })
}
