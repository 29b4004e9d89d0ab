// The families that begin at a location, all their timers at once: sets of timers propagate along the links.
#![tactic(auto)]

mod links;

ghost use Rattle.std.specs.Prelude.{◌≡◌, ◌+◌, ◌≤◌, ◌<◌, max, is_some, unwrap_or, length};
ghost use Rattle.timer_set.specs.Members.{common, minus};
ghost use Rattle.model.specs.Family.{Pairs, WellFormed};
ghost use Rattle.families.specs.Pairs.{pairs_in, SafeChart};
ghost use Rattle.families.specs.Propagation.{stored, LinkLists, Ends, JoinedEnds, Swept, Propagated, EmptyFrom};

pub use links::{Link, Links};
use timer_set::TimerSet;

// What families are formed of: of each transition its source, its target and the timers that it starts, of each location the timers that are live
// there, and the number of timers.
// stays: a list for each part of a transition, as a ChartStore and a Part of `spare` have them.
#[derive(Clone, Copy)]
pub struct LiveChart<'a> {
    pub sources: &'a [u16],
    pub targets: &'a [u16],
    pub starts: &'a [u64],
    pub live: &'a [u64],
    pub timers: u8,
}

// The timers of a link: live at both ends and not started.
fn linked_timers(from: u64, to: u64, starts: u64) -> TimerSet
    ensures { result.bits ≡ minus (common from to) starts }
{
    let from_set = TimerSet { bits: from };
    let to_set = TimerSet { bits: to };
    let both = from_set.common(to_set);
    let started = TimerSet { bits: starts };
    both.minus(started)
}

// The links of the chart that have timers, in place of those that were there. They are lent, not handed back: a copy of so many takes 8,200 bytes of
// the stack.
pub fn find_links(chart: LiveChart, links: &mut Links)
    requires { SafeChart chart }
    ensures few { length (stored links.new) ≤ length chart.entry.sources.now }
    ensures links { LinkLists (pairs_in chart.entry) (stored links.new) }
    ensures ends { Ends (length chart.entry.live.now) (stored links.new) }
{
    links.count = 0;
    for i in 0..chart.sources.len() {
        let one = chart.sources[i];
        let other = chart.targets[i];
        let timers = linked_timers(
            chart.live[one as usize],
            chart.live[other as usize],
            chart.starts[i],
        );
        if !timers.is_empty() {
            links.push(Link { one, other, timers });
        }
    }
}

impl Link {
    // Both ends get the link's timers that either has. Whether one of them lacked any.
    fn join_ends(self, sets: &mut [u64]) -> bool
        requires { (self.one < length sets.old) × (self.other < length sets.old) }
        ensures { JoinedEnds sets.old self.one self.other self.timers.bits sets.new result }
    {
        let a = TimerSet {
            bits: sets[self.one as usize],
        };
        let b = TimerSet {
            bits: sets[self.other as usize],
        };
        let either = a.join(b).common(self.timers);
        let both = a.common(b);
        if either.minus(both).is_empty() {
            return false;
        }
        sets[self.one as usize] = a.join(either).bits;
        sets[self.other as usize] = b.join(either).bits;
        true
    }

    // The end, moved past both locations.
    fn past(self, end: usize) -> usize
        ensures { result ≡ max (max end (self.one + 1)) (self.other + 1) }
    {
        end.max(self.one as usize + 1).max(self.other as usize + 1)
    }
}

// One sweep over all links. If a set grew, an end from which on all sets are empty.
fn sweep(links: &[Link], end: usize, sets: &mut [u64]) -> Option<usize>
    requires { Ends (length sets.old) links.now × EmptyFrom end sets.old }
    ensures swept { Swept links.now (length links.now) sets.old sets.new (is_some result) }
    ensures end { EmptyFrom (unwrap_or result end) sets.new }
{
    let mut grown = None;
    for link in links {
        if link.join_ends(sets) {
            grown = Some(link.past(grown.unwrap_or(end)));
        }
    }
    grown
}

// The families of the timers of a set that begin at location q: at each location those whose family has it. The result is an end from which on there
// are none.
pub fn propagate(links: &[Link], q: usize, roots: TimerSet, sets: &mut [u64]) -> usize
    requires { Ends (length sets.old) links.now × (q < length sets.old) }
    ensures families { (p : Pairs) → WellFormed p → p.locations ≡ length sets.old
        → LinkLists p links.now → Propagated p q roots.bits sets.new }
    ensures end { EmptyFrom result sets.new }
{
    sets.fill(0);
    sets[q] = roots.bits;
    let mut end = q + 1;
    while let Some(next) = sweep(links, end, sets) {
        end = next;
    }
    end
}
