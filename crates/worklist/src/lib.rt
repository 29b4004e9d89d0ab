// The edges that leave each location, listed, and a worklist of the locations whose sets have grown while edges are gone over.
#![tactic(auto)]

ghost use Rattle.std.specs.Prelude.{◌≡◌, List, ℕ, ◌+◌, ◌≤◌, ◌<◌, length, get_or, replicate, set};
ghost use Rattle.lists.specs.Lists.{sum_of};
ghost use Rattle.chart_lists.specs.Limits.{most_transitions};
ghost use Rattle.worklist.specs.Worklist.{Nexts, Firsts, Adjacency, Worklist, JoinedInto};
ghost use Rattle.worklist.specs.GoneOver.{GoneOver, Leaves};

use chart_lists::MOST_TRANSITIONS;
use timer_set::TimerSet;

// The number of no edge.
pub const NONE: u16 = MOST_TRANSITIONS as u16;

// The adjacency lists of the edges, in rising order: the first edge that leaves each location, and of each edge the next.
pub fn list_edges(from: &[u16], first: &mut [u16], next: &mut [u16])
    requires { (length from.now ≤ most_transitions) × (length from.now ≤ length next.old)
        × (first.old ≡ replicate (length first.old) most_transitions)
        × ((i : ℕ) → i < length from.now → get_or from.now i 0 < length first.old) }
    ensures firsts { Firsts from.now first.new }
    ensures nexts { Nexts from.now next.new }
{
    for i in (0..from.len()).rev() {
        let q = from[i] as usize;
        next[i] = first[q];
        first[q] = i as u16;
    }
}

// Puts a location on the list, unless it waits there already: how many wait then.
pub fn push(location: u16, idle: &mut [u8], waiting: &mut [u16], depth: usize) -> usize
    requires { (m : ℕ) × (location < m) × Worklist m idle.old waiting.old depth }
    ensures idle { idle.new ≡ set idle.old location 0 }
    ensures worklist { (m : ℕ) → location < m → Worklist m idle.old waiting.old depth
        → Worklist m idle.new waiting.new result }
    ensures more { result ≤ depth + 1 }
{
    let q = location as usize;
    if idle[q] == 0 {
        return depth;
    }
    idle[q] = 0;
    waiting[depth] = location;
    depth + 1
}

// Joins timers to the set of a location; if it has grown, the location waits: how many wait then.
fn join_into(
    target: u16,
    timers: u64,
    sets: &mut [u64],
    idle: &mut [u8],
    waiting: &mut [u16],
    depth: usize,
) -> usize
    requires { (target < length sets.old) × Worklist (length sets.old) idle.old waiting.old depth }
    ensures joined { JoinedInto target timers sets.old idle.old sets.new idle.new }
    ensures worklist { Worklist (length sets.old) idle.new waiting.new result }
    // each location put on the list has a set that has grown
    ensures less { result + sum_of sets.old ≤ depth + sum_of sets.new }
{
    let t = target as usize;
    let old = sets[t];
    let grown = TimerSet { bits: old }.join(TimerSet { bits: timers }).bits;
    if grown == old {
        return depth;
    }
    sets[t] = grown;
    push(target, idle, waiting, depth)
}

// Goes over the edges that leave `here`, by their list: each brings `stood`, but for what it cuts. How many locations wait then.
pub fn visit<'a>(
    into: &'a [u16],
    cut: &'a [u64],
    first: &'a [u16],
    next: &'a [u16],
    here: usize,
    stood: u64,
    sets: &mut [u64],
    idle: &mut [u8],
    waiting: &mut [u16],
    depth: usize,
) -> usize
    requires { ((from : List ℕ) × Adjacency (length sets.old) from into.now cut.now first.now next.now) × (here < length sets.old)
        × Worklist (length sets.old) idle.old waiting.old depth }
    ensures over { (from : List ℕ)
        → Adjacency (length sets.old) from into.now cut.now first.now next.now
        → GoneOver from into.now cut.now (Leaves from here) (λ q. stood) sets.old idle.old
        sets.new idle.new }
    ensures worklist { Worklist (length sets.old) idle.new waiting.new result }
    // each location put on the list has a set that has grown
    ensures less { result + sum_of sets.old ≤ depth + sum_of sets.new }
{
    let n = into.len();
    let set = TimerSet { bits: stood };
    let mut top = depth;
    let mut i = first[here] as usize;
    while i < n {
        let brought = set.minus(TimerSet { bits: cut[i] });
        top = join_into(into[i], brought.bits, sets, idle, waiting, top);
        i = next[i] as usize;
    }
    top
}
