// The ticks that a counter of sixteen bits says have passed, and the counts of all 64 timers grown by them.
ghost use Rattle.std.specs.Prelude.{◌≡◌, ◌+◌, min};
ghost use Rattle.counter_model.specs.Counter.{ticks_passed, most_count};
ghost use Rattle.counter_player.specs.Counts.{Risen};

use counter_model::MOST_COUNT;

// The counter's reading now less that at the last step, with the wrap.
#[tactic(auto, unfolding(counter_model::specs::Counter::ticks_passed))]
pub fn ticks_passed(last: u16, reading: u16) -> u16
    ensures { result ≡ ticks_passed last reading }
{
    reading.wrapping_sub(last)
}

// One count grown by the ticks that passed; it stops rising at 65,536.
fn risen_count(count: u32, passed: u16) -> u32
    ensures { result ≡ min (count + passed) most_count }
{
    let ticks = u32::from(passed);
    if count > MOST_COUNT - ticks {
        return MOST_COUNT;
    }
    count + ticks
}

// All 64 counts, each grown so.
// stays: beside steps::counts::grown, whose sums the caller bounds; one form of both needs a closure with a requires, longer than the two loops
pub fn risen(counts: [u32; 64], passed: u16) -> [u32; 64]
    ensures { Risen passed counts result }
{
    let mut next = counts;
    for count in next.iter_mut() {
        *count = risen_count(*count, passed);
    }
    next
}
