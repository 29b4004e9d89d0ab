// The state that is handed in, judged: 32.
ghost use Rattle.std.specs.Prelude.{◌≡◌, List, ◌+◌, ◌≤◌, leb, length, get_or};
ghost use Rattle.model.specs.Chart.{Chart};
ghost use Rattle.chart_lists.specs.Header.{header_of};
ghost use Rattle.controller_model.specs.Parts.{every_below, stretch};
ghost use Rattle.controller_model.specs.Headers.{HeadersOf};
ghost use Rattle.controller_model.specs.Controlling.{sound_waiting, sound_head, sound_state};
ghost use Rattle.controller.specs.Judged.{TimersFit};

use chart_lists::Header;
use controller_model::{Controller, Head, MOST_HEADS};
use heads::parts::begin_of;
use model::LARGEST_TIME;

// Whether an event that waits has a time neither over the largest nor before the head's.
fn sound_waiting(head: Head) -> bool
    ensures { result ≡ sound_waiting head }
{
    head.waiting == 0 || (head.waiting_time <= LARGEST_TIME && head.time <= head.waiting_time)
}

// Whether none of n counts from o on is over the bound.
fn sound_counts(counts: [u32; 64], o: usize, n: usize, bound: u64) -> bool
    requires { o + n ≤ 64 }
    ensures { result ≡ every_below (λ j. leb (get_or (stretch o n counts) j 0) bound) n }
{
    counts[o..o + n]
        .iter()
        .all(|count| u64::from(*count) <= bound)
}

// Whether a head stands at a location of its chart, its times are allowed, and its timers, which stand from o on, show counts that are.
fn sound_head(head: Head, counts: [u32; 64], o: usize, header: Header) -> bool
    requires { o + header.timers ≤ 64 }
    ensures { (c : Chart) → header ≡ header_of c → result ≡ sound_head c head (stretch o c.timers counts) }
{
    if head.location >= u64::from(header.locations)
        || head.time > LARGEST_TIME
        || !sound_waiting(head)
    {
        return false;
    }
    sound_counts(
        counts,
        o,
        usize::from(header.timers),
        head.time + LARGEST_TIME,
    )
}

// Whether the turn is one of the n heads', and every head is sound.
pub fn sound_state(
    state: Controller,
    n: usize,
    blocks: [u64; MOST_HEADS],
    headers: [Header; MOST_HEADS],
) -> bool
    requires { (cs : List Chart) × (n ≡ length cs) × HeadersOf cs headers × TimersFit blocks cs }
    ensures { (cs : List Chart) → n ≡ length cs → HeadersOf cs headers → TimersFit blocks cs → result ≡ sound_state blocks cs state }
{
    if state.turn >= n as u64 {
        return false;
    }
    for h in 0..n {
        let o = begin_of(64, blocks, h);
        if !sound_head(state.heads[h], state.counts, o, headers[h]) {
            return false;
        }
    }
    true
}
