// The counts of all 64 timers: as a chart's run begins with them, grown by a wait, and with some timers started.
ghost use Rattle.std.specs.Prelude.{◌≤◌, length};
ghost use Rattle.steps.specs.Counts.{Room, MovedOn, Starting};

use timer_set::TimerSet;

// All 64 counts, grown by the time that passed: as a step that starts no timer moves them on.
pub fn grown(counts: [u32; 64], passed: u32) -> [u32; 64]
    requires { Room counts passed }
    ensures { MovedOn 0 passed counts result }
{
    let mut next = counts;
    for count in next.iter_mut() {
        *count += passed;
    }
    next
}

// All 64 counts, 0 for the started timers: as a step without a wait moves them on. Only the set's own timers are gone over.
pub fn started(counts: [u32; 64], starts: u64) -> [u32; 64]
    ensures { MovedOn starts 0 counts result }
{
    let mut next = counts;
    let set = TimerSet { bits: starts };
    for j in set {
        next[usize::from(j)] = 0;
    }
    next
}

// The starting counts of all 64 timers, 0 for those that the chart does not have.
pub fn starting_counts(counts: &[u32]) -> [u32; 64]
    requires { length counts.now ≤ 64 }
    ensures { Starting counts.now result }
{
    let mut all = [0u32; 64];
    all[..counts.len()].copy_from_slice(counts);
    all
}
