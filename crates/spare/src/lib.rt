// Spare locations, those that no path from the initial one reaches: the lists of the part of a chart that counts, and the lists of the chart in
// which a transition that leaves a spare location has no tests and no starts.
#![tactic(auto)]

ghost use Rattle.std.specs.Prelude.{◌≡◌, not, ◌+◌, ◌≤◌, ◌<◌, length, get_or, set};
ghost use Rattle.model.specs.Chart.{Chart};
ghost use Rattle.model.specs.Live.{tested_sets, reached_sets, is_empty};
ghost use Rattle.model.specs.Spare.{spare_cleared};
ghost use Rattle.model.specs.Places.{ReachedIfAsked};
ghost use Rattle.chart_lists.specs.Limits.{most_transitions};
ghost use Rattle.chart_lists.specs.Lists.{lists_of};
ghost use Rattle.chart_lists.specs.Header.{header_of};
ghost use Rattle.chart_lists.specs.Begins.{Begins};
ghost use Rattle.chart_lists.specs.Holds.{Holds};
ghost use Rattle.chart_lists.specs.Partly.{edges_of};
ghost use Rattle.spare.specs.Part.{PartListed};
ghost use Rattle.spare.specs.Cleared.{transitions_of, moved, StartsCleared, TestsCleared};

use chart_lists::{Header, MOST_LOCATIONS, MOST_TRANSITIONS};
use timer_set::TimerSet;

// Of each transition its source, its target, the set of the timers that it starts, and the set of those that it tests.
#[derive(Clone, Copy)]
pub struct Transitions<'a> {
    pub sources: &'a [u16],
    pub targets: &'a [u16],
    pub starts: &'a [u64],
    pub tested: &'a [u64],
}

// So many transitions, over the fronts of the four lists.
// stays: lists side by side, since `number_lists` takes them as it takes a chart's own, which stand so in a ChartStore.
#[derive(Clone, Copy)]
pub struct Part {
    pub sources: [u16; MOST_TRANSITIONS],
    pub targets: [u16; MOST_TRANSITIONS],
    pub starts: [u64; MOST_TRANSITIONS],
    pub tested: [u64; MOST_TRANSITIONS],
    pub count: u16,
}

impl Part {
    pub const EMPTY: Part = Part {
        sources: [0; MOST_TRANSITIONS],
        targets: [0; MOST_TRANSITIONS],
        starts: [0; MOST_TRANSITIONS],
        tested: [0; MOST_TRANSITIONS],
        count: 0,
    };

    // Transition i goes behind those that are there.
    fn push(&mut self, transitions: Transitions, i: usize)
        requires { (i < length transitions.sources.now) × (i < length transitions.targets.now) × (i < length transitions.starts.now)
            × (i < length transitions.tested.now) × (self.old.count < most_transitions) }
        ensures { self.new ≡ record {
          sources = set self.old.sources self.old.count (get_or transitions.entry.sources.now i 0);
          targets = set self.old.targets self.old.count (get_or transitions.entry.targets.now i 0);
          starts = set self.old.starts self.old.count (get_or transitions.entry.starts.now i 0);
          tested = set self.old.tested self.old.count (get_or transitions.entry.tested.now i 0);
          count = self.old.count + 1;
        } }
    {
        let place = self.count as usize;
        self.sources[place] = transitions.sources[i];
        self.targets[place] = transitions.targets[i];
        self.starts[place] = transitions.starts[i];
        self.tested[place] = transitions.tested[i];
        self.count += 1;
    }
}

// The reached set of each location: all timers if a path from the initial location reaches it, else none.
fn reached_sets<'a>(header: Header, sources: &'a [u16], targets: &'a [u16]) -> [u64; MOST_LOCATIONS]
    requires { (c : Chart) × (header ≡ header_of c) × Holds c (edges_of c sources.now targets.now (lists_of c).starts) }
    ensures { (c : Chart) → header ≡ header_of c
        → Holds c (edges_of c sources.now targets.now (lists_of c).starts) → Begins (reached_sets c) result }
{
    let n = header.transitions as usize;
    let m = header.locations as usize;
    let mut reached = [0u64; MOST_LOCATIONS];
    forward::settle_reached(
        &sources[..n],
        &targets[..n],
        header.initial,
        &mut reached[..m],
    );
    reached
}

// Whether transition i leaves a reached location.
fn leaves_reached<'a>(sources: &'a [u16], reached: &'a [u64], i: usize) -> bool
    requires { (i < length sources.now) × (get_or sources.now i 0 < length reached.now) }
    ensures { result ≡ not (is_empty (get_or reached.now (get_or sources.now i 0) 0)) }
{
    let q = sources[i] as usize;
    let set = TimerSet { bits: reached[q] };
    !set.is_empty()
}

// The transitions that leave a reached location, in place of those that were there.
fn keep_reached<'a>(n: usize, transitions: Transitions<'a>, reached: &'a [u64], part: &mut Part)
    requires { (c : Chart) × (n ≡ length c.transitions)
        × Holds c (edges_of c transitions.sources.now transitions.targets.now transitions.starts.now)
        × Begins (tested_sets c) transitions.tested.now × Begins (reached_sets c) reached.now }
    ensures { (c : Chart) → n ≡ length c.transitions
        → Holds c (edges_of c transitions.entry.sources.now transitions.entry.targets.now transitions.entry.starts.now)
        → Begins (tested_sets c) transitions.entry.tested.now → Begins (reached_sets c) reached.now
        → PartListed c part.new.sources part.new.targets part.new.starts part.new.tested part.new.count }
{
    part.count = 0;
    for i in 0..n {
        if leaves_reached(transitions.sources, reached, i) {
            part.push(transitions, i);
        }
    }
}

// The lists of the part of a chart that counts: the transitions that leave a reached location. They are lent, not handed back: a copy of them takes
// 10,242 bytes of the stack.
pub fn reached_part<'a>(header: Header, transitions: Transitions<'a>, part: &mut Part)
    requires { (c : Chart) × (header ≡ header_of c)
        × Holds c (edges_of c transitions.sources.now transitions.targets.now transitions.starts.now)
        × Begins (tested_sets c) transitions.tested.now }
    ensures { (c : Chart) → header ≡ header_of c
        → Holds c (edges_of c transitions.entry.sources.now transitions.entry.targets.now transitions.entry.starts.now)
        → Begins (tested_sets c) transitions.entry.tested.now
        → PartListed c part.new.sources part.new.targets part.new.starts part.new.tested part.new.count }
{
    let reached = reached_sets(header, transitions.sources, transitions.targets);
    keep_reached(header.transitions as usize, transitions, &reached, part);
}

// So many tests move from the place `from` on to the place `to` on, which is no later.
fn move_tests(
    timers: &mut [u8],
    codes: &mut [u8],
    constants: &mut [u32],
    from: usize,
    to: usize,
    count: usize,
)
    requires { (to ≤ from) × (from + count ≤ length timers.old) × (from + count ≤ length codes.old)
        × (from + count ≤ length constants.old) }
    ensures timers { timers.new ≡ moved from to count timers.old }
    ensures codes { codes.new ≡ moved from to count codes.old }
    ensures constants { constants.new ≡ moved from to count constants.old }
{
    timers.copy_within(from..from + count, to);
    codes.copy_within(from..from + count, to);
    constants.copy_within(from..from + count, to);
}

// The tests of the transitions that leave a reached location, one after another at the fronts of the three lists.
fn keep_tests<'a>(
    n: usize,
    sources: &'a [u16],
    test_counts: &'a [u8],
    reached: &'a [u64],
    timers: &mut [u8],
    codes: &mut [u8],
    constants: &mut [u32],
)
    requires { (c : Chart) × (n ≡ length c.transitions) × Begins (reached_sets c) reached.now × Holds c (transitions_of c sources.now
        (lists_of c).targets (lists_of c).starts test_counts.now timers.old codes.old constants.old) }
    ensures { (c : Chart) → n ≡ length c.transitions → Begins (reached_sets c) reached.now → Holds c (transitions_of c
        sources.now (lists_of c).targets (lists_of c).starts test_counts.now timers.old codes.old
        constants.old) → TestsCleared c timers.new codes.new constants.new }
{
    let mut from: usize = 0;
    let mut to: usize = 0;
    for i in 0..n {
        let count = test_counts[i] as usize;
        if leaves_reached(sources, reached, i) {
            move_tests(timers, codes, constants, from, to, count);
            to += count;
        }
        from += count;
    }
}

// No starts and no tests of the transitions that leave a spare location.
fn clear_starts<'a>(
    n: usize,
    sources: &'a [u16],
    reached: &'a [u64],
    starts: &mut [u64],
    test_counts: &mut [u8],
)
    requires { (c : Chart) × (n ≡ length c.transitions) × Begins (reached_sets c) reached.now × Holds c (transitions_of c sources.now
        (lists_of c).targets starts.old test_counts.old (lists_of c).timers (lists_of c).codes (lists_of c).constants) }
    ensures { (c : Chart) → n ≡ length c.transitions → Begins (reached_sets c) reached.now → Holds c (transitions_of c
        sources.now (lists_of c).targets starts.old test_counts.old (lists_of c).timers (lists_of c).codes
        (lists_of c).constants) → StartsCleared c starts.new test_counts.new }
{
    for i in 0..n {
        if !leaves_reached(sources, reached, i) {
            starts[i] = 0;
            test_counts[i] = 0;
        }
    }
}

// The lists of the chart in which a transition that leaves a spare location has no tests and no starts, in place: the tests of the others move up.
// Where the version of a chart that was judged allows no spare location, there is none.
// stays: the contract of `clear_spare` has the lists lent one by one, of any length, some only to be read.
pub fn clear_spare<'a>(
    header: Header,
    sources: &'a [u16],
    targets: &'a [u16],
    starts: &mut [u64],
    test_counts: &mut [u8],
    timers: &mut [u8],
    codes: &mut [u8],
    constants: &mut [u32],
)
    requires { (c : Chart) × (header ≡ header_of c) × ReachedIfAsked c × Holds c (transitions_of c sources.now targets.now starts.old
        test_counts.old timers.old codes.old constants.old) }
    ensures { (c : Chart) → header ≡ header_of c → ReachedIfAsked c → Holds c (transitions_of c sources.now targets.now
        starts.old test_counts.old timers.old codes.old constants.old)
        → Holds (spare_cleared c) (transitions_of c sources.now targets.now starts.new test_counts.new
        timers.new codes.new constants.new) }
{
    if !file_format::allows_spare(header.version) {
        return;
    }
    let n = header.transitions as usize;
    let reached = reached_sets(header, sources, targets);
    keep_tests(n, sources, test_counts, &reached, timers, codes, constants);
    clear_starts(n, sources, &reached, starts, test_counts);
}
