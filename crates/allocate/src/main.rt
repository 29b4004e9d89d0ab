// Reads one byte K and then a chart file from standard input, and prints the board numbers of the chart's live timers, or why it is refused.
#![tactic(auto)]

use listing::{LARGEST_INPUT, LARGEST_TEXT};

const STANDARD_INPUT: i32 = 0;

const STANDARD_OUTPUT: i32 = 1;

// One byte more than an input may have is asked for, so that a longer input is seen.
const ASKED: usize = LARGEST_INPUT + 1;

// The buffer holds every text, so that there is always one to write.
fn main() {
    let mut input = [0u8; ASKED];
    let n = io::read_full(STANDARD_INPUT, &mut input);
    let mut text = [0u8; LARGEST_TEXT];
    let length = listing::list(&input[..n], &mut text);
    io::write_all(STANDARD_OUTPUT, &text[..length]);
}
