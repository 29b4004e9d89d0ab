// A head serves the event that waits at it: the lowest transition that can be taken, by the lists of the head's chart, and what it leaves.
#![tactic(auto)]

ghost use Rattle.std.specs.Prelude.{◌≡◌, ℕ, ◌-◌, ◌<◌, length, IfSome};
ghost use Rattle.model.specs.Answer.{returned};
ghost use Rattle.model.specs.Chart.{Transition, Chart, Nth};
ghost use Rattle.model.specs.Run.{State, grown as Run·grown};
ghost use Rattle.file_format.specs.File.{chart_in};
ghost use Rattle.chart_lists.specs.Header.{header_of};
ghost use Rattle.chart_lists.specs.Holds.{Holds};
ghost use Rattle.steps.specs.StepLists.{FirstTests};
ghost use Rattle.steps.specs.Counts.{CountsAgree};
ghost use Rattle.controller_model.specs.Serving.{can_take, lowest_to_take};
ghost use Rattle.serving.specs.Served.{lists_served, lists_chosen, found_below, SoundServing, HeadShows, ServedAs};

use chart_lists::{ChartLists, ChartStore, Header, MOST_TRANSITIONS};
use controller_model::Head;
use steps::counts::{grown, started};
use steps::tests::{enabled, find_firsts};

// The transition that was taken, if one was, and where and with which counts the head is left.
#[derive(Clone, Copy)]
pub struct Served {
    pub transition: Option<u64>,
    pub location: u64,
    pub counts: [u32; 64],
}

// Whether transition i leaves the location at this event and these counts meet its tests.
fn can_take<'a>(
    lists: ChartLists<'a>,
    firsts: &'a [u16],
    i: usize,
    location: u64,
    event: u64,
    counts: &'a [u32],
) -> bool
    requires i_in_bounds { (c : Chart) × (i < length c.transitions) × FirstTests c firsts.now
        × Holds c (lists_chosen c lists) }
    requires counts_len { length counts.now ≡ 64 }
    ensures { ((c : Chart) → FirstTests c firsts.now
        → Holds c (lists_chosen c lists.entry)
        → (tr : Transition) → Nth c i tr
        → (x : State) (t : ℕ) → location ≡ x.location → CountsAgree counts.now (Run·grown (t - x.time) x.counts)
        → result ≡ can_take c x event t tr) }
{
    if lists.sources[i] as u64 != location {
        return false;
    }
    if lists.events[i] as u64 != event {
        return false;
    }
    enabled(lists, firsts, i, counts)
}

// The lowest transition that leaves the location at this event and whose tests these counts meet.
fn lowest_to_take<'a>(
    lists: ChartLists<'a>,
    firsts: &'a [u16],
    n: usize,
    location: u64,
    event: u64,
    counts: &'a [u32],
) -> Option<usize>
    requires n_value { (c : Chart) × (n ≡ length c.transitions) × FirstTests c firsts.now
        × Holds c (lists_chosen c lists) }
    requires counts_len { length counts.now ≡ 64 }
    ensures below { IfSome result (λ i. i < n) }
    ensures lowest { ((c : Chart) → n ≡ length c.transitions → FirstTests c firsts.now
        → Holds c (lists_chosen c lists.entry)
        → (x : State) (t : ℕ) → location ≡ x.location → CountsAgree counts.now (Run·grown (t - x.time) x.counts)
        → result ≡ found_below n (lowest_to_take c x event t)) }
{
    for i in 0..n {
        if can_take(lists, firsts, i, location, event, counts) {
            return Some(i);
        }
    }
    None
}

// The event of a head, served by the lists of its chart: all its counts grow to the event's time, then a transition is taken or none.
fn serve_lists<'a>(lists: ChartLists<'a>, header: Header, head: Head, own: [u32; 64]) -> Served
    requires header_value { (c : Chart) × (header ≡ header_of c)
        × Holds c (lists_served c lists) }
    requires sound_serving { SoundServing head own }
    ensures { ((c : Chart) → header ≡ header_of c
        → Holds c (lists_served c lists.entry)
        → (x : State) → HeadShows head own x → ServedAs c x head.event head.waiting_time result) }
{
    let n = header.transitions as usize;
    let mut firsts = [0u16; MOST_TRANSITIONS];
    find_firsts(lists.test_counts, n, &mut firsts);
    // at most 16,777,215, as 32 allows
    let passed = (head.waiting_time - head.time) as u32;
    let counts = grown(own, passed);
    let lowest = lowest_to_take(lists, &firsts, n, head.location, head.event, &counts);
    match lowest {
        Some(i) => Served {
            transition: Some(i as u64),
            location: lists.targets[i] as u64,
            counts: started(counts, lists.starts[i]),
        },
        None => Served {
            transition: None,
            location: head.location,
            counts,
        },
    }
}

// The event of a head, served by the head's file. That the chart is accepted was judged before, so that it is read and no more.
pub fn serve(file: &[u8], head: Head, own: [u32; 64]) -> Served
    requires file_value { (c : Chart) × (chart_in file.now ≡ returned c) }
    requires sound_serving { SoundServing head own }
    ensures { ((c : Chart) → chart_in file.now ≡ returned c → (x : State) → HeadShows head own x
        → ServedAs c x head.event head.waiting_time result) }
{
    let mut store = ChartStore::EMPTY;
    let answer = filling::fill_into(file, &mut store);
    // the file holds a chart, so that this refusal does not come
    let Ok(header) = answer else {
        return Served {
            transition: None,
            location: head.location,
            counts: own,
        };
    };
    serve_lists(store.lists(), header, head, own)
}
