// The judgement that all calls share: reads a file into lists of the largest size and judges 1 to 10.
#![tactic(auto)]

ghost use Rattle.std.specs.Prelude.{◌≡◌, ℕ, ◌≤◌, ◌<◌, length, get_or, replicate};
ghost use Rattle.timer_set.specs.Members.{set_of};
ghost use Rattle.lists.specs.Lists.{lowest};
ghost use Rattle.refusal.specs.Refused.{answer_as};
ghost use Rattle.model.specs.Answer.{returned};
ghost use Rattle.model.specs.Chart.{Chart};
ghost use Rattle.model.specs.Live.{tested_sets};
ghost use Rattle.chart_lists.specs.Lists.{put};
ghost use Rattle.chart_lists.specs.Header.{header_of};
ghost use Rattle.chart_lists.specs.Begins.{Begins};
ghost use Rattle.chart_lists.specs.Holds.{Holds};
ghost use Rattle.chart_lists.specs.Lent.{passed_mut, at_exit};
ghost use Rattle.chart_lists.specs.Stored.{stored};
ghost use Rattle.chart_lists.specs.Limits.{most_transitions};
ghost use Rattle.file_format.specs.File.{chart_in};
ghost use Rattle.filling.specs.Filling.{LargestLists};
ghost use Rattle.judgement.specs.Judging.{judged_header, header_judged};
ghost use Rattle.judgement.specs.Tested.{TimersFor, sets_in, tests_at};
ghost use Rattle.forward.specs.Forward.{SafeForward};
ghost use Rattle.judgement.specs.Places.{first_empty, unreached_in, refused_in, judged_lists};
ghost use Rattle.judgement.specs.Charts.{HoldsTransitions};

use chart_lists::{ChartStore, Header, MOST_LOCATIONS, MOST_TRANSITIONS};
use refusal::{Reason, Refusal};
use timer_set::TimerSet;

// The set of the timers of a list.
fn set_of(timers: &[u8]) -> TimerSet
    requires { (i : ℕ) → i < length timers.now → get_or timers.now i 0 < 64 }
    ensures { result.bits ≡ set_of timers.now }
{
    let mut set = TimerSet::EMPTY;
    for timer in timers {
        set = set.with(*timer);
    }
    set
}

// The set of the timers that each transition tests, over the front of `tested`.
fn tested_sets(test_counts: &[u8], timers: &[u8], tested: &mut [u64])
    requires { TimersFor test_counts.now timers.now × (length test_counts.now ≤ length tested.old) }
    ensures { tested.new ≡ put (sets_in test_counts.now timers.now) tested.old }
{
    let mut base: usize = 0;
    for i in 0..test_counts.len() {
        let end = base + test_counts[i] as usize;
        tested[i] = set_of(&timers[base..end]).bits;
        base = end;
    }
}

// The first set that is empty, or their number.
fn first_empty(sets: &[u64]) -> usize
    ensures { result ≡ first_empty sets.now }
{
    sets.iter()
        .position(|set| TimerSet { bits: *set }.is_empty())
        .unwrap_or(sets.len())
}

// The first transition that tests a timer of its source's set, or their number.
fn first_testing(sources: &[u16], tested: &[u64], sets: &[u64]) -> usize
    requires { (length tested.now ≡ length sources.now)
        × ((i : ℕ) → i < length sources.now → get_or sources.now i 0 < length sets.now) }
    ensures { result ≡ lowest (tests_at sources.now tested.now sets.now) (length sources.now) }
{
    for i in 0..sources.len() {
        let q = sources[i] as usize;
        let both = TimerSet { bits: tested[i] }.common(TimerSet { bits: sets[q] });
        if !both.is_empty() {
            return i;
        }
    }
    sources.len()
}

// The lowest location that no path reaches, or the number of locations. A chart of fewer than 64 timers starts timer 63 nowhere, so that it
// is unstarted wherever a path leads.
fn first_unreached<'a>(
    sources: &'a [u16],
    targets: &'a [u16],
    sets: &'a [u64],
    header: Header,
) -> usize
    requires { SafeForward header.initial (length sets.now) sources.now targets.now (replicate (length sources.now) 0) }
    ensures { result ≡ unreached_in header.timers header.initial sources.now targets.now sets.now }
{
    if header.timers < 64 {
        return first_empty(sets);
    }
    let m = sets.len();
    let mut reached = [0u64; MOST_LOCATIONS];
    forward::settle_reached(sources, targets, header.initial, &mut reached[..m]);
    first_empty(&reached[..m])
}

// 9: the lowest location that no path reaches, where the version does not allow one, or the number of locations.
fn first_refused<'a>(
    sources: &'a [u16],
    targets: &'a [u16],
    sets: &'a [u64],
    header: Header,
) -> usize
    requires { SafeForward header.initial (length sets.now) sources.now targets.now (replicate (length sources.now) 0) }
    ensures { result ≡ refused_in header.version header.timers header.initial sources.now targets.now sets.now }
{
    if file_format::allows_spare(header.version) {
        return sets.len();
    }
    first_unreached(sources, targets, sets, header)
}

// 9, then 10, else the chart's header.
fn judge_lists<'a>(
    sources: &'a [u16],
    targets: &'a [u16],
    starts: &'a [u64],
    tested: &'a [u64],
    header: Header,
) -> Result<Header, Refusal>
    requires { SafeForward header.initial header.locations sources.now targets.now starts.now
        × (length tested.now ≡ length sources.now) }
    ensures { answer_as result ≡ judged_lists header sources.now targets.now starts.now tested.now }
{
    let m = header.locations as usize;
    let n = sources.len();
    let mut sets = [0u64; MOST_LOCATIONS];
    forward::settle_forward(sources, targets, starts, header.initial, &mut sets[..m]);
    let unreached = first_refused(sources, targets, &sets[..m], header);
    if unreached < m {
        return Err(Refusal {
            reason: Reason::Unreached,
            place: unreached as u64,
        });
    }
    let unstarted = first_testing(sources, tested, &sets[..m]);
    if unstarted < n {
        return Err(Refusal {
            reason: Reason::Unstarted,
            place: unstarted as u64,
        });
    }
    Ok(header)
}

// The tested sets of a chart that was read, then 9 and 10.
fn judge_chart<'a>(
    sources: &'a [u16],
    targets: &'a [u16],
    starts: &'a [u64],
    test_counts: &'a [u8],
    timers: &'a [u8],
    header: Header,
    tested: &mut [u64],
) -> Result<Header, Refusal>
    requires { ((c : Chart) × (header ≡ header_of c)
        × HoldsTransitions c sources.now targets.now starts.now test_counts.now timers.now)
        × (most_transitions ≤ length tested.old) }
    ensures answer { ((c : Chart) → header ≡ header_of c
        → HoldsTransitions c sources.now targets.now starts.now test_counts.now timers.now
        → answer_as result ≡ header_judged c) }
    ensures tested { ((c : Chart) → header ≡ header_of c
        → HoldsTransitions c sources.now targets.now starts.now test_counts.now timers.now
        → Begins (tested_sets c) tested.new) }
{
    let n = header.transitions as usize;
    tested_sets(&test_counts[..n], timers, tested);
    judge_lists(
        &sources[..n],
        &targets[..n],
        &starts[..n],
        &tested[..n],
        header,
    )
}

// The judgement that all calls share: 1 to 8, then 9, then 10. A file that holds a chart leaves its lists and its tested sets, whatever the answer;
// a file that holds none leaves in them what it may.
// stays: the contract of `judge` stands, whose lists are lent one by one (its clause `lists`); `judge_into` takes them in one struct.
pub fn judge(
    file: &[u8],
    accepting: &mut [u16],
    sources: &mut [u16],
    targets: &mut [u16],
    events: &mut [u8],
    starts: &mut [u64],
    test_counts: &mut [u8],
    timers: &mut [u8],
    codes: &mut [u8],
    constants: &mut [u32],
    tested: &mut [u64],
) -> Result<Header, Refusal>
    requires { LargestLists (passed_mut accepting sources targets events starts test_counts timers codes constants)
        × (most_transitions ≤ length tested.old) }
    ensures answer { answer_as result ≡ judged_header file.now }
    ensures lists { ((c : Chart) → chart_in file.now ≡ returned c
        → Holds c (at_exit accepting sources targets events starts test_counts timers codes constants)) }
    ensures tested { ((c : Chart) → chart_in file.now ≡ returned c → Begins (tested_sets c) tested.new) }
{
    let header = filling::fill(
        file,
        accepting,
        sources,
        targets,
        events,
        starts,
        test_counts,
        timers,
        codes,
        constants,
    )?;
    judge_chart(
        sources,
        targets,
        starts,
        test_counts,
        timers,
        header,
        tested,
    )
}

// The same into the room that every chart has.
pub fn judge_into(
    file: &[u8],
    store: &mut ChartStore,
    tested: &mut [u64; MOST_TRANSITIONS],
) -> Result<Header, Refusal>
    ensures answer { answer_as result ≡ judged_header file.now }
    ensures lists { ((c : Chart) → chart_in file.now ≡ returned c → Holds c (stored store.new)) }
    ensures tested { ((c : Chart) → chart_in file.now ≡ returned c → Begins (tested_sets c) tested.new) }
{
    judge(
        file,
        &mut store.accepting,
        &mut store.sources,
        &mut store.targets,
        &mut store.events,
        &mut store.starts,
        &mut store.test_counts,
        &mut store.timers,
        &mut store.codes,
        &mut store.constants,
        tested,
    )
}
