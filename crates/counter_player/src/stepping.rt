// One step on the counter board, on a lent state, and a list of steps.
ghost use Rattle.std.specs.Prelude.{◌≡◌, length, OnErr};
ghost use Rattle.model.specs.Chart.{Chart};
ghost use Rattle.chart_lists.specs.Holds.{Holds};
ghost use Rattle.steps.specs.StepLists.{FirstTests, steps_in};
ghost use Rattle.counter_model.specs.CounterRun.{CounterState, counter_attempt, counter_steps};
ghost use Rattle.counter_player.specs.Stepping.{Shows, Answered};

use crate::counts::{risen, ticks_passed};
use chart_lists::ChartLists;
use refusal::{Reason, Refusal};
use steps::counts::started;
use steps::refused;
use steps::tests::enabled;

// Where the board is: the location, the reading at the last step, and the counts of all 64 timers at that step.
#[derive(Clone, Copy)]
pub struct State {
    pub location: u16,
    pub last: u16,
    pub counts: [u32; 64],
}

// Step number k on a chart of n transitions: 14, 22, 24 in this order, or the state after it. A refusal leaves the state as it was.
// stays: beside steps::step, which judges times too (15, 23); one form of both needs a trait with laws for clocks and counts, no plainer
fn step<'a>(
    lists: ChartLists<'a>,
    firsts: &'a [u16],
    n: usize,
    state: &mut State,
    k: u64,
    transition: u32,
    reading: u16,
) -> Result<(), Refusal>
    requires { (c : Chart) × (n ≡ length c.transitions) × FirstTests c firsts.now
        × Holds c (steps_in c lists) }
    ensures answer { (c : Chart) → n ≡ length c.transitions → FirstTests c firsts.now
        → Holds c (steps_in c lists.entry)
        → (s : CounterState) → Shows state.old s → Answered state.new result (counter_attempt c k s transition reading) }
    ensures kept { OnErr result (state.new ≡ state.old) }
{
    let i = transition as usize;
    if i >= n {
        return Err(refused(Reason::NoSuchTransition, k));
    }
    if lists.sources[i] != state.location {
        return Err(refused(Reason::WrongSource, k));
    }
    let passed = ticks_passed(state.last, reading);
    let before = state.counts;
    let counts = risen(before, passed);
    if !enabled(lists, firsts, i, &counts) {
        return Err(refused(Reason::TestNotMet, k));
    }
    *state = State {
        location: lists.targets[i],
        last: reading,
        counts: started(counts, lists.starts[i]),
    };
    Ok(())
}

// The steps of a list, each from the state that the one before left, to the first that is refused. A refusal leaves the lent state as it was.
pub fn take_steps<'a>(
    lists: ChartLists<'a>,
    firsts: &'a [u16],
    n: usize,
    state: &mut State,
    transitions: &[u32],
    readings: &[u16],
) -> Result<(), Refusal>
    requires n_value { (c : Chart) × (n ≡ length c.transitions) × FirstTests c firsts.now
        × Holds c (steps_in c lists) }
    requires readings_len { length readings.now ≡ length transitions.now }
    ensures answer { (c : Chart) → n ≡ length c.transitions → FirstTests c firsts.now
        → Holds c (steps_in c lists.entry)
        → (s : CounterState) → Shows state.old s → Answered state.new result (counter_steps c 0 s transitions.now readings.now) }
    ensures kept { OnErr result (state.new ≡ state.old) }
{
    let mut moved = *state;
    for k in 0..transitions.len() {
        step(
            lists,
            firsts,
            n,
            &mut moved,
            k as u64,
            transitions[k],
            readings[k],
        )?;
    }
    *state = moved;
    Ok(())
}
