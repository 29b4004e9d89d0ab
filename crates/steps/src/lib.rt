// One step of the player, on a lent state, and a list of steps. What happens to the counts stands in `counts`, the condition of a step in `tests`.
#![tactic(auto)]

ghost use Rattle.std.specs.Prelude.{◌≡◌, length, get_or, OnErr};
ghost use Rattle.model.specs.Chart.{Chart};
ghost use Rattle.model.specs.Run.{State as Run-as-State, attempt, steps, outcome, player_time};
ghost use Rattle.model.specs.Player.{steps_of};
ghost use Rattle.chart_lists.specs.Header.{header_of};
ghost use Rattle.chart_lists.specs.Holds.{Holds};
ghost use Rattle.steps.specs.StepLists.{FirstTests, steps_in};
ghost use Rattle.steps.specs.Counts.{Allowed};
ghost use Rattle.steps.specs.Stepping.{Shows, Small, Decided, Answered, step_at, refusal_at};

use crate::counts::{grown, started, starting_counts};
use crate::tests::{enabled, find_firsts};
use chart_lists::{ChartLists, Header, MOST_TRANSITIONS};
use model::LARGEST_TIME;
use refusal::{Reason, Refusal};

pub mod counts;
pub mod tests;

// Where the player is: the location, the time of the last step, and the counts of all 64 timers at that time.
#[derive(Clone, Copy)]
pub struct State {
    pub location: u16,
    pub time: u64,
    pub counts: [u32; 64],
}

// Why step number k is refused.
pub fn refused(reason: Reason, k: u64) -> Refusal
    ensures { result ≡ refusal_at reason k }
{
    Refusal { reason, place: k }
}

// Step number k on a chart of n transitions: 14, 15, 22, 23, 24 in this order, and the state stays; or the state after it.
pub fn step<'a>(
    lists: ChartLists<'a>,
    firsts: &'a [u16],
    n: usize,
    state: &mut State,
    k: u64,
    transition: u32,
    time: u64,
) -> Result<(), Refusal>
    requires n_value { (c : Chart) × (n ≡ length c.transitions) × FirstTests c firsts.now
        × Holds c (steps_in c lists) }
    requires small_2 { Small state.old }
    ensures answer { (c : Chart) → n ≡ length c.transitions → FirstTests c firsts.now
        → Holds c (steps_in c lists.entry)
        → (s : Run-as-State) → Shows state.old s
        → Decided (λ done. Shows state.new) result (attempt player_time c k s (step_at transition time)) }
    ensures small { Small state.new }
    ensures kept { OnErr result (state.new ≡ state.old) }
{
    let i = transition as usize;
    if i >= n {
        return Err(refused(Reason::NoSuchTransition, k));
    }
    if time > LARGEST_TIME {
        return Err(refused(Reason::TimeTooLarge, k));
    }
    if lists.sources[i] != state.location {
        return Err(refused(Reason::WrongSource, k));
    }
    if time < state.time {
        return Err(refused(Reason::TimeBefore, k));
    }
    let passed = (time - state.time) as u32;
    let before = state.counts;
    let counts = grown(before, passed);
    if !enabled(lists, firsts, i, &counts) {
        return Err(refused(Reason::TestNotMet, k));
    }
    *state = State {
        location: lists.targets[i],
        time,
        counts: started(counts, lists.starts[i]),
    };
    Ok(())
}

// The steps of a list, each from the state that the one before left, to the first that is refused.
pub fn take_steps<'a>(
    lists: ChartLists<'a>,
    firsts: &'a [u16],
    n: usize,
    first: State,
    transitions: &[u32],
    times: &[u64],
) -> Result<State, Refusal>
    requires n_value { (c : Chart) × (n ≡ length c.transitions) × FirstTests c firsts.now
        × Holds c (steps_in c lists) }
    requires small { Small first }
    requires times_len { length times.now ≡ length transitions.now }
    ensures { (c : Chart) → n ≡ length c.transitions → FirstTests c firsts.now
        → Holds c (steps_in c lists.entry)
        → (s : Run-as-State) → Shows first s
        → Answered result (steps player_time c 0 s (steps_of transitions.now times.now)) }
{
    let mut state = first;
    for k in 0..transitions.len() {
        step(
            lists,
            firsts,
            n,
            &mut state,
            k as u64,
            transitions[k],
            times[k],
        )?;
    }
    Ok(state)
}

// The steps of a list from tick 0 on.
pub fn play_steps<'a>(
    lists: ChartLists<'a>,
    header: Header,
    counts: &[u32],
    transitions: &[u32],
    times: &[u64],
) -> Result<State, Refusal>
    requires header_value { (c : Chart) × (header ≡ header_of c)
        × Holds c (steps_in c lists) }
    requires allowed { Allowed counts.now }
    requires times_len { length times.now ≡ length transitions.now }
    ensures { (c : Chart) → header ≡ header_of c
        → Holds c (steps_in c lists.entry)
        → Answered result (outcome player_time c (λ j. get_or counts.now j 0) (steps_of transitions.now times.now)) }
{
    let n = header.transitions as usize;
    let mut firsts = [0u16; MOST_TRANSITIONS];
    find_firsts(lists.test_counts, n, &mut firsts);
    let first = State {
        location: header.initial,
        time: 0,
        counts: starting_counts(counts),
    };
    take_steps(lists, &firsts, n, first, transitions, times)
}
