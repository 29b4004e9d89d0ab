// The player of the counter board: what a list of steps comes to on a chart file, by readings of a free-running counter.
#![tactic(auto)]

ghost use Rattle.std.specs.Prelude.{◌≡◌, ◌≤◌, not, length, slice_index};
ghost use Rattle.model.specs.Answer.{unless, nowhere};
ghost use Rattle.model.specs.Chart.{Chart};
ghost use Rattle.model.specs.Version.{large_constant};
ghost use Rattle.chart_lists.specs.Header.{header_of};
ghost use Rattle.chart_lists.specs.Holds.{Holds};
ghost use Rattle.player.specs.Playing.{lists_played};
ghost use Rattle.refusal.specs.Refused.{answer_by};
ghost use Rattle.counter_model.specs.CounterPlayer.{counter_answer_of, counter_played_on, counter_answer};
ghost use Rattle.counter_player.specs.Playing.{counter_arrival_as};

use crate::stepping::{State, take_steps};
use chart_lists::{ChartLists, ChartStore, Header, MOST_TRANSITIONS};
use refusal::Refusal;
use steps::counts::starting_counts;
use steps::tests::find_firsts;

pub mod counts;
pub mod stepping;

// Where the steps end.
#[derive(Clone, Copy, Debug, PartialEq, Eq)]
pub struct CounterArrival {
    pub location: u16,
    pub accepting: bool,
}

// On a chart that is judged, from counts and lists that are: 18, then the steps.
fn play_steps<'a>(
    lists: ChartLists<'a>,
    header: Header,
    counts: &[u32],
    transitions: &[u32],
    first: u16,
    readings: &[u16],
) -> Result<CounterArrival, Refusal>
    requires header_value { (c : Chart) × (header ≡ header_of c)
        × Holds c (lists_played c lists) }
    requires counts_len_bound { length counts.now ≤ 64 }
    requires readings_len { length readings.now ≡ length transitions.now }
    ensures { (c : Chart) → header ≡ header_of c
        → Holds c (lists_played c lists.entry)
        → answer_by counter_arrival_as result ≡ unless (not (large_constant c)) 18 nowhere
        (counter_answer_of c first (λ j. slice_index counts.now j) transitions.now readings.now) }
{
    let n = header.transitions as usize;
    let mut firsts = [0u16; MOST_TRANSITIONS];
    let tests = find_firsts(lists.test_counts, n, &mut firsts);
    if chart_lists::large_among(lists.constants, tests as usize) {
        return Err(refusal::NOT_FOR_COUNTER);
    }
    let mut state = State {
        location: header.initial,
        last: first,
        counts: starting_counts(counts),
    };
    take_steps(lists, &firsts, n, &mut state, transitions, readings)?;
    let a = header.accepting as usize;
    Ok(CounterArrival {
        location: state.location,
        accepting: player::accepts(&lists.accepting[..a], state.location),
    })
}

// On a chart that is judged: 12, 13, then 18 and the steps.
fn play_chart<'a>(
    lists: ChartLists<'a>,
    header: Header,
    counts: &[u32],
    transitions: &[u32],
    first: u16,
    readings: &[u16],
) -> Result<CounterArrival, Refusal>
    requires { (c : Chart) × (header ≡ header_of c)
        × Holds c (lists_played c lists) }
    ensures { (c : Chart) → header ≡ header_of c
        → Holds c (lists_played c lists.entry)
        → answer_by counter_arrival_as result ≡ counter_played_on counts.now transitions.now first readings.now c }
{
    player::judge_inputs(counts, header.timers, transitions.len(), readings.len())?;
    play_steps(lists, header, counts, transitions, first, readings)
}

// The counter board's player, called on a chart file: each step's transition with the counter's reading, which was `first` at tick 0.
pub fn play_counter(
    file: &[u8],
    counts: &[u32],
    transitions: &[u32],
    first: u16,
    readings: &[u16],
) -> Result<CounterArrival, Refusal>
    ensures { answer_by counter_arrival_as result
        ≡ counter_answer file.now counts.now transitions.now first readings.now }
{
    let mut store = ChartStore::EMPTY;
    let mut tested = [0u64; MOST_TRANSITIONS];
    let header = judgement::judge_into(file, &mut store, &mut tested)?;
    play_chart(store.lists(), header, counts, transitions, first, readings)
}
