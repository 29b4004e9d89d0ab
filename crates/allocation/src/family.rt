// The families that begin at one location, as sets of timers at each location, and one family of them.
ghost use Rattle.std.specs.Prelude.{◌≡◌, true, ℕ, ◌≤◌, ◌<◌, length};
ghost use Rattle.chart_lists.specs.Limits.{most_locations};
ghost use Rattle.allocation.specs.Rows.{in_family};

use timer_set::TimerSet;

// The timers whose families begin at the location `from`, and at each location the set of those whose families have it: from `end` on none has.
#[derive(Clone, Copy)]
pub struct Spread<'a> {
    pub sets: &'a [u64],
    pub roots: TimerSet,
    pub from: usize,
    pub end: usize,
}

// The family of one timer: it has the locations whose set has the timer, all at or above `from` and below `end`.
#[derive(Clone, Copy)]
pub struct Family<'a> {
    pub sets: &'a [u64],
    pub timer: u8,
    pub from: usize,
    pub end: usize,
    ghost low: { (s : ℕ) → in_family sets.now timer s ≡ true → from ≤ s },
    ghost high: { (s : ℕ) → in_family sets.now timer s ≡ true → s < end },
    ghost ordered: { from ≤ end },
    ghost inside: { end ≤ length sets.now },
    ghost few: { length sets.now ≤ most_locations },
    ghost one: { timer < 64 },
}

impl<'a> Family<'a> {
    pub fn has(self, s: usize) -> bool
        requires { s < length self.sets.now }
        ensures { result ≡ in_family self.entry.sets.now self.entry.timer s }
    {
        let here = TimerSet { bits: self.sets[s] };
        here.has(self.timer)
    }
}
