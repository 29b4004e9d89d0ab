// The counter board, a board with one free-running counter and no timers. What it answers stands in specs/, that it answers as the player in proofs/.
#![tactic(auto)]

// Where a count stops rising.
pub const MOST_COUNT: u32 = 65536;
