// What charts, runs, live timers, families and board numbers are stands in specs/, what follows from it in proofs/.
#![tactic(auto)]

// The latest time that the player takes, and the largest starting count (15, 12).
pub const LARGEST_TIME: u64 = 16777215;

// The most that two bytes hold: a constant over it is large (17, 18).
pub const MOST_IN_TWO_BYTES: u32 = 65535;
