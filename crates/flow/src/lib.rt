// Sets of timers that pass along edges, by rounds: each round makes every location's set from the sets of the round before, the first from empty
// ones, to the first round that changes no set. From the second round on, only edges from locations whose sets the round before has changed are gone
// over: what the others bring, that round has brought.
#![tactic(auto)]

ghost use Rattle.std.specs.Prelude.{◌≡◌, List, ℕ, ◌+◌, ◌≤◌, ◌<◌, length, get_or, replicate};
ghost use Rattle.lists.specs.Lists.{sum_of};
ghost use Rattle.model.specs.Flow.{round, settled, rounds};
ghost use Rattle.chart_lists.specs.Limits.{most_locations};
ghost use Rattle.worklist.specs.Worklist.{Adjacency, Worklist};
ghost use Rattle.worklist.specs.GoneOver.{GoneOver};
ghost use Rattle.flow.specs.Edges.{flow_of, flow_lent, SafeEdges};
ghost use Rattle.flow.specs.Rounds.{LeavesOne, Differing};

use chart_lists::{MOST_LOCATIONS, MOST_TRANSITIONS};
use timer_set::TimerSet;
use worklist::{NONE, list_edges, push, visit};

// The first round: from empty sets an edge brings what it gains alone, wherever it comes from and whatever it cuts.
fn first_round<'a>(into: &'a [u16], gain: &'a [u64], own: &'a [u64], after: &mut [u64])
    requires { (length gain.now ≡ length into.now) × (length after.old ≡ length own.now)
        × ((i : ℕ) → i < length into.now → get_or into.now i 0 < length own.now) }
    ensures { (from cut : List ℕ) → after.new
        ≡ round (flow_of into.now from cut gain.now own.now) (replicate (length own.now) 0) }
{
    after.copy_from_slice(own);
    for (&q, &gained) in into.iter().zip(gain) {
        let set = &mut after[q as usize];
        *set = TimerSet { bits: *set }.join(TimerSet { bits: gained }).bits;
    }
}

// Each location whose set is not empty is put on the worklist: how many wait then.
fn push_nonempty(sets: &[u64], idle: &mut [u8], waiting: &mut [u16]) -> usize
    requires { (length sets.now ≤ most_locations) × Worklist (length sets.now) idle.old waiting.old 0 }
    ensures waits { Differing (replicate (length sets.now) 0) sets.now idle.new waiting.new result }
    ensures empty { ((q : ℕ) → get_or sets.now q 0 ≡ 0) → result ≡ 0 }
{
    let mut depth: usize = 0;
    for (i, set) in sets.iter().enumerate() {
        if *set != 0 {
            depth = push(i as u16, idle, waiting, depth);
        }
    }
    depth
}

// The sets of the waiting locations go from `after` to `sets`, and the list of these locations to `changed`; then none waits.
fn take_over(
    after: &[u64],
    sets: &mut [u64],
    idle: &mut [u8],
    waiting: &[u16],
    depth: usize,
    changed: &mut [u16],
)
    requires { Differing sets.old after.now idle.old waiting.now depth × (depth ≤ length changed.old) }
    ensures sets { sets.new ≡ after.now }
    ensures changed { (k : ℕ) → k < depth → get_or changed.new k 0 ≡ get_or waiting.now k 0 }
    ensures none { Worklist (length after.now) idle.new waiting.now 0 }
{
    for i in (0..depth).rev() {
        let location = waiting[i];
        let q = location as usize;
        idle[q] = 1;
        sets[q] = after[q];
        changed[i] = location;
    }
}

// Goes over the edges that leave the changed locations: each brings to `after` what stands in `sets`. How many locations wait then.
fn next_round<'a>(
    into: &'a [u16],
    cut: &'a [u64],
    first: &'a [u16],
    next: &'a [u16],
    changed: &'a [u16],
    sets: &'a [u64],
    after: &mut [u64],
    idle: &mut [u8],
    waiting: &mut [u16],
) -> usize
    requires { ((from : List ℕ) × Adjacency (length after.old) from into.now cut.now first.now next.now)
        × (length sets.now ≡ length after.old)
        × ((k : ℕ) → k < length changed.now → get_or changed.now k 0 < length after.old) × Worklist (length after.old) idle.old waiting.old 0 }
    ensures over { (from : List ℕ)
        → Adjacency (length after.old) from into.now cut.now first.now next.now
        → GoneOver from into.now cut.now (LeavesOne from changed.now (length changed.now)) (λ q. get_or sets.now q 0)
        after.old idle.old after.new idle.new }
    ensures worklist { Worklist (length after.old) idle.new waiting.new result }
    ensures less { result + sum_of after.old ≤ sum_of after.new }
{
    let mut depth: usize = 0;
    for location in changed {
        let q = *location as usize;
        depth = visit(
            into, cut, first, next, q, sets[q], after, idle, waiting, depth,
        );
    }
    depth
}

// All rounds, and their number: in `after` a round is made, in `sets` stand the sets of the round before it. `after` is lent with empty sets.
fn make_rounds<'a>(
    into: &'a [u16],
    from: &'a [u16],
    cut: &'a [u64],
    gain: &'a [u64],
    own: &'a [u64],
    first: &'a [u16],
    next: &'a [u16],
    sets: &mut [u64],
    after: &mut [u64],
) -> u32
    requires { SafeEdges into.now from.now cut.now gain.now own.now × (length sets.old ≡ length own.now)
        × (after.old ≡ replicate (length own.now) 0)
        × Adjacency (length own.now) from.now into.now cut.now first.now next.now }
    ensures sets { sets.new ≡ settled (flow_lent into from cut gain own) }
    ensures count { result ≡ rounds (flow_lent into from cut gain own) }
{
    sets.copy_from_slice(after);
    first_round(into, gain, own, after);
    let mut idle = [1u8; MOST_LOCATIONS];
    let mut waiting = [0u16; MOST_LOCATIONS];
    let mut changed = [0u16; MOST_LOCATIONS];
    let mut depth = push_nonempty(after, &mut idle, &mut waiting);
    let mut count: u32 = 0;
    while depth > 0 {
        take_over(after, sets, &mut idle, &waiting, depth, &mut changed);
        depth = next_round(
            into,
            cut,
            first,
            next,
            &changed[..depth],
            sets,
            after,
            &mut idle,
            &mut waiting,
        );
        count += 1;
    }
    count + 1
}

// The sets that the rounds leave go into `sets`, whatever it held; the number of rounds, the last one counted, is the result.
pub fn settle<'a>(
    into: &'a [u16],
    from: &'a [u16],
    cut: &'a [u64],
    gain: &'a [u64],
    own: &'a [u64],
    sets: &mut [u64],
) -> u32
    requires safe_edges { SafeEdges into.now from.now cut.now gain.now own.now }
    requires sets_len { length sets.old ≡ length own.now }
    ensures sets { sets.new ≡ settled (flow_lent into from cut gain own) }
    ensures count { result ≡ rounds (flow_lent into from cut gain own) }
{
    let n = own.len();
    let mut first = [NONE; MOST_LOCATIONS];
    let mut next = [0u16; MOST_TRANSITIONS];
    list_edges(from, &mut first, &mut next);
    let mut after = [0u64; MOST_LOCATIONS];
    make_rounds(
        into,
        from,
        cut,
        gain,
        own,
        &first,
        &next,
        sets,
        &mut after[..n],
    )
}
