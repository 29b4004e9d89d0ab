// A controller of several heads: its state, and what is handed in beside the files. What the calls make of them stands in specs/.
#![tactic(auto)]

// The most heads that a controller drives.
pub const MOST_HEADS: usize = 8;

// stays: C lays a head out so (include/chart.h): a number that says whether an event waits, and the event beside it.
// Where a head stands and at what time. If waiting is 0 no event waits at it; else the event that waits, and its time.
#[repr(C)]
#[derive(Clone, Copy)]
pub struct Head {
    pub location: u64,
    pub time: u64,
    pub waiting: u64,
    pub event: u64,
    pub waiting_time: u64,
}

// Whose turn it is, the heads, and the counts of all timers of the board.
#[repr(C)]
#[derive(Clone, Copy)]
pub struct Controller {
    pub turn: u64,
    pub heads: [Head; MOST_HEADS],
    pub counts: [u32; 64],
}

// stays: C lays the heads out so (include/chart.h): their number, and a list of eight for each thing that is said of them.
// How many heads there are, and of each the length of its file and the length of its block of timers.
#[repr(C)]
#[derive(Clone, Copy)]
pub struct Heads {
    pub number: u64,
    pub lengths: [u64; MOST_HEADS],
    pub blocks: [u64; MOST_HEADS],
}

// Of a list that holds a part for each head, one after another: the length of each part.
#[repr(C)]
#[derive(Clone, Copy)]
pub struct Parts {
    pub lengths: [u64; MOST_HEADS],
}
