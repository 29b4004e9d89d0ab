// A lower bound by cliques: every plan has at least as many timers as there are families that meet pairwise.
ghost use Rattle.std.specs.Prelude.{◌≤◌};
ghost use Rattle.model.specs.Floor.{most_searched};
ghost use Rattle.smallest_plan.specs.Cliques.{Candidates, NumbersNeeded};

use crate::MOST_SEARCHED;
use timer_set::TimerSet;

// The larger of `least` and of the size of the largest clique, that is, set of families that meet pairwise, among the candidates. The contract says
// no more than what is needed of it: so many numbers at least are needed to keep the candidates that meet apart, if `least` are. To answer `least`
// would keep it; the size is for speed alone. In each turn the lowest candidate left is taken with those left that it meets; the loop ends where too
// few are left for a larger clique. Each call within another has fewer candidates, so the recursion is at most 21 calls deep.
pub fn largest_clique(rows: &[u64; MOST_SEARCHED], candidates: TimerSet, least: usize) -> usize
    requires { (least ≤ most_searched) × Candidates rows.now candidates.bits }
    ensures { NumbersNeeded rows.now candidates.bits least result }
{
    let mut best = least;
    let mut left = candidates;
    // stays: the loop ends where too few are left, and `for` goes on to the last.
    while best < left.count() as usize {
        let v = left.lowest() as usize;
        let row = TimerSet { bits: rows[v] };
        best = largest_clique(rows, left.common(row), best.saturating_sub(1)) + 1;
        left = left.without_lowest();
    }
    best
}
