// Runs the vectors of vectors/*.py through the entry points, and prints what comes back.
//
// Standard input, which vectors/make packs, holds fields (see input). The first says how many vectors there are; each other is a vector, itself made
// of fields: a letter, values, and then a file or lists.
//   'r'  the lengths of the nine lists to lend; a file to read
//   'w'  the header and the length of the buffer to lend; nine lists to write
//   'c'  three positions; nine lists, from which on the changed entries are counted
//   'a'  the length of the list to lend and the number of locations; a file to analyse
//   'k'  the limit and the length of the buffer to lend; a file to rewrite
//   'p'  how many steps of transition 0 at time 0 come first; a file, counts, transitions and times to play
//   'b'  how many steps of transition 0 at the reading at tick 0 come first, that reading; a file, counts, transitions and readings to play
//   'h'  K, the number of heads, the lengths of eight files, of eight blocks and of eight lists of counts; the files, the counts, calls, a state
// All lent memory is filled with bytes 170 before a call.
#![tactic(auto)]

mod calls;
mod charts;
mod controllers;
mod input;
mod lent;
mod show;

use crate::input::*;

fn main() {
    let mut bytes = [0u8; 524288];
    let n = io::read_full(0, &mut bytes);
    run(&bytes[..n]);
}

fn run(input: &[u8]) {
    let n = count(field(input, 0), 0, 65536);
    for k in 0..n {
        run_vector(field(input, k + 1));
    }
}

fn run_vector(vector: &[u8]) {
    let values = field(vector, 1);
    let file = field(vector, 2);
    match u8::low(at(field(vector, 0), 0)) {
        b'r' => charts::read(file, values),
        b'w' => charts::write(vector, values),
        b'c' => charts::count_changed(vector, values),
        b'a' => calls::analyse(file, values),
        b'k' => calls::rewrite(file, values),
        b'p' => calls::play(file, values, vector),
        b'b' => calls::play_counter(file, values, vector),
        b'h' => controllers::drive(file, values, vector),
        _ => show::text(b"no such vector\n"),
    }
}
