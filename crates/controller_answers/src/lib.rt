// The answers of the controller's calls as C sees them, a struct whose number is 0 where the call is not refused. The exported calls stand in crate
// exports.
#![tactic(auto)]

ghost use Rattle.std.specs.Prelude.{◌≡◌};
ghost use Rattle.refusal.specs.Refused.{answer_as, answer_by};
ghost use Rattle.controller_model.specs.Controlling.{
  set_up,
  event as Call·event,
  turn as Call·turn,
  called,
  state_after,
  state_set_up,
  verdict_of,
  reported,
};
ghost use Rattle.controller.specs.Answers.{report_as};
ghost use Rattle.controller_answers.specs.Answered.{called_of, turned_of, IsCalled, IsTurned};

use controller::Report;
use controller_model::{Controller, Heads, Parts};
use heads::Setting;
use refusal::Refusal;

// A refusal's number and place, or 0 and 0.
#[repr(C)]
#[derive(Clone, Copy)]
pub struct chart_called {
    pub number: u64,
    pub place: u64,
}

// A refusal's number and place, or 0 and 0 with the head whose turn it was; served is 1 where an event waited at it, taken 1 where a transition was
// taken, else each is 0; transition is its number, 0 where none was taken.
#[repr(C)]
#[derive(Clone, Copy)]
pub struct chart_turned {
    pub number: u64,
    pub place: u64,
    pub head: u64,
    pub served: u64,
    pub taken: u64,
    pub transition: u64,
}

// stays: C reads a number, 0 where the call is not refused (include/chart.h), and the fields of a result beside it.
impl From<Result<(), Refusal>> for chart_called {
    ghost from_gives = { IsCalled };

    fn from(done: Result<(), Refusal>) -> chart_called {
        match done {
            Ok(()) => chart_called {
                number: 0,
                place: 0,
            },
            Err(f) => chart_called {
                number: u64::from(f.reason.number()),
                place: f.place,
            },
        }
    }
}

impl From<Result<Report, Refusal>> for chart_turned {
    ghost from_gives = { IsTurned };

    fn from(done: Result<Report, Refusal>) -> chart_turned {
        match done {
            Ok(Report::Nothing { head }) => chart_turned {
                number: 0,
                place: 0,
                head,
                served: 0,
                taken: 0,
                transition: 0,
            },
            Ok(Report::NoneTaken { head }) => chart_turned {
                number: 0,
                place: 0,
                head,
                served: 1,
                taken: 0,
                transition: 0,
            },
            Ok(Report::Taken { head, transition }) => chart_turned {
                number: 0,
                place: 0,
                head,
                served: 1,
                taken: 1,
                transition,
            },
            Err(f) => chart_turned {
                number: u64::from(f.reason.number()),
                place: f.place,
                head: 0,
                served: 0,
                taken: 0,
                transition: 0,
            },
        }
    }
}

// What set-up or an event comes to: the state that it leaves, and the answer.
#[derive(Clone, Copy)]
pub struct CallOutcome {
    pub state: Controller,
    pub answer: chart_called,
}

// What a turn comes to: the state that it leaves, and the answer.
#[derive(Clone, Copy)]
pub struct TurnOutcome {
    pub state: Controller,
    pub answer: chart_turned,
}

// stays: the three calls on values, a form of the project's (docs/DECISIONS.md, 134); the calls for C step the state in place by them.

// Set-up.
pub fn set_up(
    state: Controller,
    files: &[u8],
    heads: Heads,
    k: u32,
    counts: &[u32],
    parts: Parts,
) -> CallOutcome
    ensures answer { result.answer ≡ called_of (verdict_of (set_up files.now heads k counts.now parts)) }
    ensures state { result.state ≡ state_set_up state (set_up files.now heads k counts.now parts) }
{
    let mut after = state;
    let done = controller::set_up(&mut after, Setting { files, heads, k }, counts, parts);
    CallOutcome {
        state: after,
        answer: chart_called::from(done),
    }
}

// An event for a head.
pub fn event(
    state: Controller,
    files: &[u8],
    heads: Heads,
    k: u32,
    head: u32,
    event: u8,
    time: u64,
) -> CallOutcome
    ensures answer { result.answer ≡ called_of (verdict_of (called files.now heads k state (Call·event head event time))) }
    ensures state { result.state ≡ state_after state (called files.now heads k state (Call·event head event time)) }
{
    let mut after = state;
    let done = controller::event(&mut after, Setting { files, heads, k }, head, event, time);
    CallOutcome {
        state: after,
        answer: chart_called::from(done),
    }
}

// A turn.
pub fn turn(state: Controller, files: &[u8], heads: Heads, k: u32) -> TurnOutcome
    ensures answer { result.answer ≡ turned_of (reported (called files.now heads k state Call·turn)) }
    ensures state { result.state ≡ state_after state (called files.now heads k state Call·turn) }
{
    let mut after = state;
    let done = controller::turn(&mut after, Setting { files, heads, k });
    TurnOutcome {
        state: after,
        answer: chart_turned::from(done),
    }
}
