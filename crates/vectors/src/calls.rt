// The calls on files: analysis, rewriting and the two players.
use crate::input::*;
use crate::lent::*;
use crate::show::*;
use chart_lists::{MOST_LOCATIONS, MOST_TIMERS};

// The longest step list.
const STEPS: usize = 70016;

pub fn analyse(file: &[u8], values: &[u8]) {
    let mut list = [u64::FILLED; MOST_LOCATIONS];
    let live = lent(&mut list, values, 0);
    match analysis::analyse(file, live) {
        Err(r) => refusal(r, changed(live, 0)),
        Ok(a) => {
            let locations = count(values, 1, MOST_LOCATIONS);
            item(b"used ", u64::from(a.used));
            item(b" floor ", u64::from(a.floor));
            item(b" searched ", u64::from(a.searched));
            item(b" rounds ", u64::from(a.rounds));
            item(b" beyond ", changed(live, locations) as u64);
            text(b"\nlive");
            sets(live, locations);
            end();
        }
    }
}

// The first n live sets: those of locations 0 to 7, and the last.
fn sets(live: &[u64], n: usize) {
    for i in 0..n {
        entry(at(live, i), is_shown(i, n, 8));
    }
}

pub fn rewrite(input: &[u8], values: &[u8]) {
    let mut buffer = [u8::FILLED; BUFFER];
    let out = lent(&mut buffer, values, 1);
    match rewriting::rewrite(input, u32::low(number(values, 0)), out) {
        Err(r) => refusal(r, changed(out, 0)),
        Ok(a) => {
            item(b"used ", u64::from(a.used));
            file(b" length ", out, a.length);
        }
    }
}

// Steps to play, the first of them at time 0.
pub fn play(file: &[u8], values: &[u8], vector: &[u8]) {
    let repeated = count(values, 0, STEPS);
    let mut start = [0u32; MOST_TIMERS];
    let counts = put_numbers(field(vector, 3), 0, &mut start);
    let mut named = [0u32; STEPS];
    let transitions = put_numbers(field(vector, 4), repeated, &mut named);
    let mut list = [0u64; STEPS];
    let times = put_numbers(field(vector, 5), repeated, &mut list);
    match player::play(file, counts, transitions, times) {
        Err(r) => refusal(r, 0),
        Ok(a) => {
            arrived(a.location);
            item(b" time ", a.time);
            accepted(a.accepting);
        }
    }
}

// Steps to play on the counter board, the first of them at the reading at tick 0.
pub fn play_counter(file: &[u8], values: &[u8], vector: &[u8]) {
    let repeated = count(values, 0, STEPS);
    let first = u16::low(number(values, 1));
    let mut start = [0u32; MOST_TIMERS];
    let counts = put_numbers(field(vector, 3), 0, &mut start);
    let mut named = [0u32; STEPS];
    let transitions = put_numbers(field(vector, 4), repeated, &mut named);
    let mut list = [first; STEPS];
    let readings = put_numbers(field(vector, 5), repeated, &mut list);
    match counter_player::play_counter(file, counts, transitions, first, readings) {
        Err(r) => refusal(r, 0),
        Ok(a) => {
            arrived(a.location);
            accepted(a.accepting);
        }
    }
}

// The begin and the end of the line of an arrival.
fn arrived(location: u16) {
    item(b"location ", u64::from(location));
}

fn accepted(accepting: bool) {
    item(b" accepting ", u64::from(accepting));
    end();
}
