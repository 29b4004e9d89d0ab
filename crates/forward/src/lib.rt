// Sets of timers that go forwards along transitions, from all timers at the initial location: found by a worklist of the locations whose sets have
// grown since their transitions were last gone over.
#![tactic(auto)]

ghost use Rattle.std.specs.Prelude.{◌≡◌, List, ℕ, length, replicate};
ghost use Rattle.forward.specs.Forward.{SafeForward, forward_sets};
ghost use Rattle.forward.specs.Working.{BetweenVisits};

use chart_lists::{MOST_LOCATIONS, MOST_TRANSITIONS};
use timer_set::TimerSet;
use worklist::{NONE, list_edges, push, visit};

// Takes the locations from the list, one by one, and goes over their transitions, until none waits.
fn empty_list<'a>(
    targets: &'a [u16],
    cut: &'a [u64],
    first: &'a [u16],
    next: &'a [u16],
    sets: &mut [u64],
    idle: &mut [u8],
    waiting: &mut [u16],
    depth: usize,
)
    requires { (initial : ℕ) × (sources : List ℕ) × BetweenVisits initial (length sets.old) sources targets.now cut.now first.now
        next.now sets.old idle.old waiting.old depth }
    ensures { (initial : ℕ) (sources : List ℕ) → BetweenVisits initial (length sets.old) sources targets.now
        cut.now first.now next.now sets.old idle.old waiting.old depth
        → sets.new ≡ forward_sets initial (length sets.old) sources targets.now cut.now }
{
    let mut left = depth;
    while left > 0 {
        left -= 1;
        let q = waiting[left] as usize;
        idle[q] = 1;
        left = visit(
            targets, cut, first, next, q, sets[q], sets, idle, waiting, left,
        );
    }
}

// The sets that go forwards from all timers at the initial location, but for what each transition cuts, over sets that were empty.
pub fn settle_forward<'a>(
    sources: &'a [u16],
    targets: &'a [u16],
    cut: &'a [u64],
    initial: u16,
    sets: &mut [u64],
)
    requires { SafeForward initial (length sets.old) sources.now targets.now cut.now × (sets.old ≡ replicate (length sets.old) 0) }
    ensures { sets.new
        ≡ forward_sets initial (length sets.old) sources.now targets.now cut.now }
{
    let mut first = [NONE; MOST_LOCATIONS];
    let mut next = [0u16; MOST_TRANSITIONS];
    list_edges(sources, &mut first, &mut next);
    sets[initial as usize] = TimerSet::EVERY.bits;
    let mut idle = [1u8; MOST_LOCATIONS];
    let mut waiting = [0u16; MOST_LOCATIONS];
    let depth = push(initial, &mut idle, &mut waiting, 0);
    empty_list(
        targets,
        cut,
        &first,
        &next,
        sets,
        &mut idle,
        &mut waiting,
        depth,
    );
}

// The sets that go forwards where nothing is cut, over sets that were empty: all timers at each location that a path from the initial one reaches,
// none elsewhere.
pub fn settle_reached<'a>(sources: &'a [u16], targets: &'a [u16], initial: u16, sets: &mut [u64])
    requires { SafeForward initial (length sets.old) sources.now targets.now (replicate (length sources.now) 0)
        × (sets.old ≡ replicate (length sets.old) 0) }
    ensures { sets.new ≡ forward_sets initial (length sets.old) sources.now targets.now
        (replicate (length sources.now) 0) }
{
    let n = sources.len();
    let zeros = [0u64; MOST_TRANSITIONS];
    settle_forward(sources, targets, &zeros[..n], initial, sets);
}
