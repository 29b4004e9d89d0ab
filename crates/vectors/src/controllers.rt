// The calls of a controller of several heads, each on the state that the one before left.
use crate::input::*;
use crate::show::*;
use chart_lists::MOST_TIMERS;
use controller::Report;
use controller_model::{Controller, Head, Heads, MOST_HEADS, Parts};
use heads::Setting;
use refusal::Refusal;

// The most starting counts of all heads together.
const ALL_COUNTS: usize = 520;

// The numbers of a state are the turn, the five of each head, and the counts: where the counts begin and end.
const COUNTS: usize = 41;

const END: usize = 105;

pub fn drive(files: &[u8], values: &[u8], vector: &[u8]) {
    let mut list = [0u32; ALL_COUNTS];
    let counts = put_numbers(field(vector, 3), 0, &mut list);
    let setting = Setting {
        files,
        heads: Heads {
            number: number(values, 1),
            lengths: eight(values, 2),
            blocks: eight(values, 10),
        },
        k: u32::low(number(values, 0)),
    };
    let parts = Parts {
        lengths: eight(values, 18),
    };
    let state = state_of(field(vector, 5));
    call_all(state, setting, counts, parts, field(vector, 4));
}

// Eight numbers from the i-th on.
fn eight(s: &[u8], i: usize) -> [u64; MOST_HEADS] {
    let mut list = [0u64; MOST_HEADS];
    put_numbers(numbers_from(s, i), 0, &mut list);
    list
}

fn state_of(s: &[u8]) -> Controller {
    let mut counts = [0u32; MOST_TIMERS];
    put_numbers(numbers_from(s, COUNTS), 0, &mut counts);
    let mut heads = [head_of(s, 1); MOST_HEADS];
    for h in 0..MOST_HEADS {
        heads[h] = head_of(s, 5 * h + 1);
    }
    Controller {
        turn: number(s, 0),
        heads,
        counts,
    }
}

// The head whose five numbers begin with the i-th.
fn head_of(s: &[u8], i: usize) -> Head {
    let t = numbers_from(s, i);
    Head {
        location: number(t, 0),
        time: number(t, 1),
        waiting: number(t, 2),
        event: number(t, 3),
        waiting_time: number(t, 4),
    }
}

// Calls of four numbers each.
fn call_all(mut state: Controller, setting: Setting, counts: &[u32], parts: Parts, calls: &[u8]) {
    for i in 0..calls.len() >> 5 {
        call(
            &mut state,
            setting,
            counts,
            parts,
            numbers_from(calls, i << 2),
        );
    }
}

// A call: 0 is set-up, 1 an event with its head, byte and time, 2 a turn.
fn call(state: &mut Controller, setting: Setting, counts: &[u32], parts: Parts, numbers: &[u8]) {
    let before = *state;
    match number(numbers, 0) {
        0 => {
            let done = controller::set_up(state, setting, counts, parts);
            verdict(b"set up", done, before, *state, setting);
        }
        1 => {
            let head = u32::low(number(numbers, 1));
            let event = u8::low(number(numbers, 2));
            let time = number(numbers, 3);
            let done = controller::event(state, setting, head, event, time);
            verdict(b"received", done, before, *state, setting);
        }
        _ => {
            let done = controller::turn(state, setting);
            report(done, before, *state, setting);
        }
    }
}

fn verdict(
    label: &[u8],
    done: Result<(), Refusal>,
    before: Controller,
    after: Controller,
    setting: Setting,
) {
    match done {
        Err(r) => refusal(r, changed(before, after, 0, END)),
        Ok(()) => {
            text(label);
            shown(before, after, setting);
        }
    }
}

fn report(done: Result<Report, Refusal>, before: Controller, after: Controller, setting: Setting) {
    match done {
        Err(r) => return refusal(r, changed(before, after, 0, END)),
        Ok(Report::Nothing { head }) => {
            item(b"head ", head);
            text(b" nothing");
        }
        Ok(Report::NoneTaken { head }) => {
            item(b"head ", head);
            text(b" none");
        }
        Ok(Report::Taken { head, transition }) => {
            item(b"head ", head);
            item(b" transition ", transition);
        }
    }
    shown(before, after, setting);
}

// The turn, the heads and the counts of the board, and how many numbers beyond them are not as they were.
fn shown(before: Controller, after: Controller, setting: Setting) {
    let n = (setting.heads.number as usize).min(MOST_HEADS);
    let a = 5 * n + 1;
    let b = COUNTS + (setting.k as usize).min(MOST_TIMERS);
    item(b" turn ", after.turn);
    text(b" heads");
    numbers(after, 1, a);
    text(b" counts");
    numbers(after, COUNTS, b);
    let beyond = changed(before, after, a, COUNTS).wrapping_add(changed(before, after, b, END));
    item(b" beyond ", beyond as u64);
    end();
}

fn numbers(state: Controller, from: usize, to: usize) {
    for i in from..to {
        entry(state_number(state, i), true);
    }
}

// How many numbers differ.
fn changed(a: Controller, b: Controller, from: usize, to: usize) -> usize {
    let mut sum: usize = 0;
    for i in from..to {
        sum = sum.wrapping_add(usize::from(state_number(a, i) != state_number(b, i)));
    }
    sum
}

// The i-th number of a state.
fn state_number(state: Controller, i: usize) -> u64 {
    if i == 0 {
        return state.turn;
    }
    if i >= COUNTS {
        return at(&state.counts, i - COUNTS);
    }
    let head = state.heads[(i - 1) / 5];
    match (i - 1) % 5 {
        0 => head.location,
        1 => head.time,
        2 => head.waiting,
        3 => head.event,
        _ => head.waiting_time,
    }
}
