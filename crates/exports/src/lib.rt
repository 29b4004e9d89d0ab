// The calls as C sees them: a slice is a pointer and a length, an answer a struct by value whose number is 0 where there is a result.
#![tactic(auto)]

ghost use Rattle.std.specs.Prelude.{◌≡◌, length};
ghost use Rattle.chart_lists.specs.Lists.{overwritten};
ghost use Rattle.analysis.specs.Analysing.{analysed_sets, analysed_in, analyse_answer};
ghost use Rattle.rewriting.specs.Rewriting.{new_file, rewrite_into, rewrite_answer};
ghost use Rattle.player.specs.Playing.{play_answer};
ghost use Rattle.counter_model.specs.CounterPlayer.{counter_answer};
ghost use Rattle.controller_model.specs.Controlling.{
  set_up,
  event as Call·event,
  turn as Call·turn,
  called,
  state_after,
  state_set_up,
  verdict_of,
  reported,
};
ghost use Rattle.controller_answers.specs.Answered.{called_of, turned_of};
ghost use Rattle.exports.specs.Exported.{
  analysis_of,
  rewriting_of,
  playing_of,
  counter_playing_of,
  IsAnalysis,
  IsRewriting,
  IsPlaying,
  IsCounterPlaying,
};

mod files;

use analysis::Analysis;
use controller_answers::{chart_called, chart_turned};
use controller_model::{Controller, Heads, Parts};
use counter_player::CounterArrival;
use player::Arrival;
use refusal::Refusal;
use rewriting::Rewriting;

// A refusal's number and place, or 0 and 0 with used and floor; searched is 1 where floor is the smallest number of timers of any plan, else 0;
// rounds is how many rounds find the live sets.
#[repr(C)]
#[derive(Clone, Copy)]
pub struct chart_analysis {
    pub number: u64,
    pub place: u64,
    pub used: u64,
    pub floor: u64,
    pub searched: u64,
    pub rounds: u64,
}

// A refusal's number and place, or 0 and 0 with the timers used and the new file's length.
#[repr(C)]
#[derive(Clone, Copy)]
pub struct chart_rewriting {
    pub number: u64,
    pub place: u64,
    pub used: u64,
    pub length: u64,
}

// A refusal's number and place, or 0 and 0 with where and when the steps end; accepting is 1 or 0.
#[repr(C)]
#[derive(Clone, Copy)]
pub struct chart_playing {
    pub number: u64,
    pub place: u64,
    pub location: u64,
    pub time: u64,
    pub accepting: u64,
}

// A refusal's number and place, or 0 and 0 with where the steps end; accepting is 1 or 0.
#[repr(C)]
#[derive(Clone, Copy)]
pub struct chart_counter_playing {
    pub number: u64,
    pub place: u64,
    pub location: u64,
    pub accepting: u64,
}

// stays: C reads a number, 0 where there is no refusal (include/chart.h), and the fields of a result beside it.
impl From<Result<Analysis, Refusal>> for chart_analysis {
    ghost from_gives = { IsAnalysis };

    fn from(answer: Result<Analysis, Refusal>) -> chart_analysis {
        match answer {
            Ok(a) => chart_analysis {
                number: 0,
                place: 0,
                used: u64::from(a.used),
                floor: u64::from(a.floor),
                searched: u64::from(a.searched),
                rounds: u64::from(a.rounds),
            },
            Err(f) => chart_analysis {
                number: u64::from(f.reason.number()),
                place: f.place,
                used: 0,
                floor: 0,
                searched: 0,
                rounds: 0,
            },
        }
    }
}

// The analysis of a chart file; the live sets go over the front of the list.
#[unsafe(no_mangle)]
pub extern "C" fn chart_analyse(file: &[u8], live: &mut [u64]) -> chart_analysis
    ensures answer { result ≡ analysis_of (analyse_answer (length live.old) file.now) }
    ensures lent { live.new
        ≡ overwritten analysed_sets (analysed_in (length live.old) file.now) live.old }
{
    chart_analysis::from(analysis::analyse(file, live))
}

impl From<Result<Rewriting, Refusal>> for chart_rewriting {
    ghost from_gives = { IsRewriting };

    fn from(answer: Result<Rewriting, Refusal>) -> chart_rewriting {
        match answer {
            Ok(a) => chart_rewriting {
                number: 0,
                place: 0,
                used: u64::from(a.used),
                length: a.length as u64,
            },
            Err(f) => chart_rewriting {
                number: u64::from(f.reason.number()),
                place: f.place,
                used: 0,
                length: 0,
            },
        }
    }
}

// The rewriting of a chart file for a board of k timers; the new file goes over the front of the buffer.
#[unsafe(no_mangle)]
pub extern "C" fn chart_rewrite(file: &[u8], k: u32, out: &mut [u8]) -> chart_rewriting
    ensures answer { result ≡ rewriting_of (rewrite_answer k (length out.old) file.now) }
    ensures lent { out.new
        ≡ overwritten new_file (rewrite_into k (length out.old) file.now) out.old }
{
    chart_rewriting::from(rewriting::rewrite(file, k, out))
}

impl From<Result<Arrival, Refusal>> for chart_playing {
    ghost from_gives = { IsPlaying };

    fn from(answer: Result<Arrival, Refusal>) -> chart_playing {
        match answer {
            Ok(a) => chart_playing {
                number: 0,
                place: 0,
                location: u64::from(a.location),
                time: a.time,
                accepting: u64::from(a.accepting),
            },
            Err(f) => chart_playing {
                number: u64::from(f.reason.number()),
                place: f.place,
                location: 0,
                time: 0,
                accepting: 0,
            },
        }
    }
}

// The player, called on a chart file.
#[unsafe(no_mangle)]
pub extern "C" fn chart_play(
    file: &[u8],
    counts: &[u32],
    transitions: &[u32],
    times: &[u64],
) -> chart_playing
    ensures { result ≡ playing_of (play_answer file.now counts.now transitions.now times.now) }
{
    chart_playing::from(player::play(file, counts, transitions, times))
}

impl From<Result<CounterArrival, Refusal>> for chart_counter_playing {
    ghost from_gives = { IsCounterPlaying };

    fn from(answer: Result<CounterArrival, Refusal>) -> chart_counter_playing {
        match answer {
            Ok(end) => chart_counter_playing {
                number: 0,
                place: 0,
                location: u64::from(end.location),
                accepting: u64::from(end.accepting),
            },
            Err(f) => chart_counter_playing {
                number: u64::from(f.reason.number()),
                place: f.place,
                location: 0,
                accepting: 0,
            },
        }
    }
}

// The counter board's player, called on a chart file: each step's transition with the counter's reading, which was `first` at tick 0.
#[unsafe(no_mangle)]
pub extern "C" fn chart_play_counter(
    file: &[u8],
    counts: &[u32],
    transitions: &[u32],
    first: u16,
    readings: &[u16],
) -> chart_counter_playing
    ensures answer { result
        ≡ counter_playing_of (counter_answer file.now counts.now transitions.now first readings.now) }
{
    let played = counter_player::play_counter(file, counts, transitions, first, readings);
    chart_counter_playing::from(played)
}

// A controller is set up, in place.
#[unsafe(no_mangle)]
pub extern "C" fn chart_controller_set_up(
    state: &mut Controller,
    files: &[u8],
    heads: Heads,
    k: u32,
    counts: &[u32],
    parts: Parts,
) -> chart_called
    ensures answer { result ≡ called_of (verdict_of (set_up files.now heads k counts.now parts)) }
    ensures lent { state.new
        ≡ state_set_up state.old (set_up files.now heads k counts.now parts) }
{
    let out = controller_answers::set_up(*state, files, heads, k, counts, parts);
    *state = out.state;
    out.answer
}

// An event comes for a head, in place.
#[unsafe(no_mangle)]
pub extern "C" fn chart_controller_event(
    state: &mut Controller,
    files: &[u8],
    heads: Heads,
    k: u32,
    head: u32,
    event: u8,
    time: u64,
) -> chart_called
    ensures answer { result
        ≡ called_of (verdict_of (called files.now heads k state.old (Call·event head event time))) }
    ensures lent { state.new
        ≡ state_after state.old (called files.now heads k state.old (Call·event head event time)) }
{
    let out = controller_answers::event(*state, files, heads, k, head, event, time);
    *state = out.state;
    out.answer
}

// A turn is taken, in place.
#[unsafe(no_mangle)]
pub extern "C" fn chart_controller_turn(
    state: &mut Controller,
    files: &[u8],
    heads: Heads,
    k: u32,
) -> chart_turned
    ensures answer { result ≡ turned_of (reported (called files.now heads k state.old Call·turn)) }
    ensures lent { state.new
        ≡ state_after state.old (called files.now heads k state.old Call·turn) }
{
    let out = controller_answers::turn(*state, files, heads, k);
    *state = out.state;
    out.answer
}
