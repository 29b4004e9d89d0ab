// The calls of a controller of several heads: set-up, an event, a turn. Each changes the state that it is lent, or refuses and leaves it.
#![tactic(auto)]

ghost use Rattle.std.specs.Prelude.{◌≡◌, true, List, ℕ, ◌≤◌, length};
ghost use Rattle.model.specs.Answer.{returned};
ghost use Rattle.model.specs.Chart.{Chart};
ghost use Rattle.refusal.specs.Refused.{answer_as, answer_by};
ghost use Rattle.controller_model.specs.Parts.{offset, stretch};
ghost use Rattle.controller_model.specs.Serving.{head_at, state_of, served, turned};
ghost use Rattle.controller_model.specs.Controlling.{
  sound_state,
  event as Call·event,
  turn as Call·turn,
  done_by,
  state_after,
  state_set_up,
  verdict_of,
  reported,
};
ghost use Rattle.heads.specs.Judged.{JudgedAs};
ghost use Rattle.serving.specs.Served.{ServedAs};
ghost use Rattle.controller.specs.Answers.{report_as};
ghost use Rattle.controller.specs.Judged.{Ready, InTurn, set_up_in, state_judged_in, called_in};

use chart_lists::Header;
use controller_model::{Controller, Head, MOST_HEADS, Parts};
use heads::Setting;
use heads::parts::begin_of;
use model::LARGEST_TIME;
use refusal::Refusal;
use serving::Served;
use steps::counts::starting_counts;

pub mod counts;
pub mod start;
pub mod state;

// What a turn reports of the head whose turn it was: nothing waited; its event was served and no transition taken; or one was.
#[derive(Clone, Copy, Debug, PartialEq, Eq)]
pub enum Report {
    Nothing { head: u64 },
    NoneTaken { head: u64 },
    Taken { head: u64, transition: u64 },
}

// Set-up: the heads are judged, and the state is made anew.
pub fn set_up(
    state: &mut Controller,
    setting: Setting,
    counts: &[u32],
    parts: Parts,
) -> Result<(), Refusal>
    ensures answer { answer_as result ≡ verdict_of (set_up_in setting.entry counts.now parts) }
    ensures state { state.new ≡ state_set_up state.old (set_up_in setting.entry counts.now parts) }
{
    let headers = heads::judge_set_up(setting, counts, parts)?;
    let n = setting.heads.number as usize;
    *state = Controller {
        turn: 0,
        heads: start::start_heads(n, headers),
        counts: start::start_counts(counts, parts, n, setting.heads.blocks),
    };
    Ok(())
}

// The heads of a call after set-up, then the state by 32.
fn judge_state(state: Controller, setting: Setting) -> Result<[Header; MOST_HEADS], Refusal>
    ensures { JudgedAs result (state_judged_in setting.entry state) }
{
    let headers = heads::judge_heads(setting)?;
    let heads = setting.heads;
    if !state::sound_state(state, heads.number as usize, heads.blocks, headers) {
        return Err(refusal::WRONG_STATE);
    }
    Ok(headers)
}

// An event on judged heads and a sound state: 26, 15, 23, or it waits from now on.
fn receive(state: &mut Controller, n: u64, head: u32, event: u8, time: u64) -> Result<(), Refusal>
    requires { n ≤ 8 }
    ensures answer { ((blocks : List ℕ) (cs : List Chart) → n ≡ length cs
        → answer_as result ≡ verdict_of (done_by blocks cs state.old (Call·event head event time))) }
    ensures state { ((blocks : List ℕ) (cs : List Chart) → n ≡ length cs
        → state.new ≡ state_after state.old (done_by blocks cs state.old (Call·event head event time))) }
{
    if u64::from(head) >= n {
        return Err(refusal::NO_FREE_HEAD);
    }
    let h = head as usize;
    let own = state.heads[h];
    if own.waiting != 0 {
        return Err(refusal::NO_FREE_HEAD);
    }
    if time > LARGEST_TIME {
        return Err(refusal::EVENT_TOO_LATE);
    }
    if time < own.time {
        return Err(refusal::EVENT_TOO_EARLY);
    }
    state.heads[h] = Head {
        location: own.location,
        time: own.time,
        waiting: 1,
        event: u64::from(event),
        waiting_time: time,
    };
    Ok(())
}

// An event for a head.
pub fn event(
    state: &mut Controller,
    setting: Setting,
    head: u32,
    event: u8,
    time: u64,
) -> Result<(), Refusal>
    ensures answer { answer_as result ≡ verdict_of (called_in setting.entry state.old (Call·event head event time)) }
    ensures state { state.new ≡ state_after state.old (called_in setting.entry state.old (Call·event head event time)) }
{
    judge_state(*state, setting)?;
    receive(state, setting.heads.number, head, event, time)
}

// The event of the head whose turn it is, served by its file; its n timers stand from o on.
fn serve_head(state: Controller, setting: Setting, o: usize, n: usize) -> Served
    requires { (c : Chart) × InTurn setting.files.now setting.heads state o n c }
    ensures { ((c : Chart) → InTurn setting.entry.files.now setting.entry.heads state o n c
        → (let d = head_at state state.turn in
        ServedAs c (state_of d (stretch o n state.counts)) d.event d.waiting_time result)) }
{
    let t = state.turn as usize;
    let own = starting_counts(&state.counts[o..o + n]);
    serving::serve(setting.file(t), state.heads[t], own)
}

// The head whose turn it is serves its event and is left with the counts that this leaves.
fn serve_in_turn(state: &mut Controller, setting: Setting, n: usize) -> Report
    requires { ((c : Chart) × InTurn setting.files.now setting.heads state.old (offset setting.heads.blocks state.old.turn) n c)
        × (1 ≤ setting.heads.number) }
    ensures answer { ((c : Chart)
        → InTurn setting.entry.files.now setting.entry.heads state.old (offset setting.entry.heads.blocks state.old.turn) n c
        → report_as result ≡ (served setting.entry.heads.number setting.entry.heads.blocks c state.old.turn state.old).report) }
    ensures state { ((c : Chart)
        → InTurn setting.entry.files.now setting.entry.heads state.old (offset setting.entry.heads.blocks state.old.turn) n c
        → state.new ≡ (served setting.entry.heads.number setting.entry.heads.blocks c state.old.turn state.old).state) }
{
    let t = state.turn;
    let i = t as usize;
    let o = begin_of(64, setting.heads.blocks, i);
    let out = serve_head(*state, setting, o, n);
    state.turn = (t + 1) % setting.heads.number;
    state.heads[i] = Head {
        location: out.location,
        time: state.heads[i].waiting_time,
        waiting: 0,
        event: 0,
        waiting_time: 0,
    };
    counts::write_counts(&mut state.counts, o, &out.counts[..n]);
    match out.transition {
        Some(transition) => Report::Taken {
            head: t,
            transition,
        },
        None => Report::NoneTaken { head: t },
    }
}

// A turn on judged heads and a sound state.
fn take_turn(state: &mut Controller, setting: Setting, headers: [Header; MOST_HEADS]) -> Report
    requires { (cs : List Chart) × Ready setting.files.now setting.heads headers cs × (sound_state setting.heads.blocks cs state.old ≡ true) }
    ensures answer { ((cs : List Chart) → Ready setting.entry.files.now setting.entry.heads headers cs
        → sound_state setting.entry.heads.blocks cs state.old ≡ true
        → report_as result ≡ (turned setting.entry.heads.blocks cs state.old).report) }
    ensures state { ((cs : List Chart) → Ready setting.entry.files.now setting.entry.heads headers cs
        → sound_state setting.entry.heads.blocks cs state.old ≡ true
        → state.new ≡ (turned setting.entry.heads.blocks cs state.old).state) }
{
    let t = state.turn;
    let i = t as usize;
    if state.heads[i].waiting == 0 {
        state.turn = (t + 1) % setting.heads.number;
        return Report::Nothing { head: t };
    }
    serve_in_turn(state, setting, usize::from(headers[i].timers))
}

// A turn: the head whose turn it is serves the event that waits at it.
pub fn turn(state: &mut Controller, setting: Setting) -> Result<Report, Refusal>
    ensures answer { answer_by report_as result ≡ reported (called_in setting.entry state.old Call·turn) }
    ensures state { state.new ≡ state_after state.old (called_in setting.entry state.old Call·turn) }
{
    let headers = judge_state(*state, setting)?;
    Ok(take_turn(state, setting, headers))
}
