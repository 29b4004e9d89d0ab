// A set of timers as one word: timer j is in the set where the binary digit at place j is 1.
#![tactic(auto)]

ghost use Rattle.std.specs.Prelude.{◌≡◌, ◌<◌, eqb};
ghost use Rattle.std.specs.Int.Count.{ones};
ghost use Rattle.std.specs.Iterator.{at_most};
ghost use Rattle.timer_set.specs.Iteration.{SplitsLowest, TakesLowest, IsAllOf};
ghost use Rattle.timer_set.specs.Members.{member, joined, common, minus, added, removed, all_below, lowest_missing, lowest_member};

#[derive(Clone, Copy, Debug, PartialEq, Eq)]
pub struct TimerSet {
    pub bits: u64,
}

impl TimerSet {
    pub const EMPTY: TimerSet = TimerSet { bits: 0 };

    // All 64 timers.
    pub const EVERY: TimerSet = TimerSet { bits: u64::MAX };

    pub fn with(self, j: u8) -> TimerSet
        requires { j < 64 }
        ensures { result.bits ≡ added self.bits j }
    {
        TimerSet {
            bits: self.bits | 1u64 << j,
        }
    }

    pub fn without(self, j: u8) -> TimerSet
        requires { j < 64 }
        ensures { result.bits ≡ removed self.bits j }
    {
        TimerSet {
            bits: self.bits & !(1u64 << j),
        }
    }

    #[tactic(auto, unfolding(crate::specs::Members::joined))]
    pub fn join(self, other: TimerSet) -> TimerSet
        ensures { result.bits ≡ joined self.bits other.bits }
    {
        TimerSet {
            bits: self.bits | other.bits,
        }
    }

    pub fn minus(self, other: TimerSet) -> TimerSet
        ensures { result.bits ≡ minus self.bits other.bits }
    {
        TimerSet {
            bits: self.bits & !other.bits,
        }
    }

    #[tactic(auto, unfolding(crate::specs::Members::common))]
    pub fn common(self, other: TimerSet) -> TimerSet
        ensures { result.bits ≡ common self.bits other.bits }
    {
        TimerSet {
            bits: self.bits & other.bits,
        }
    }

    // A number past 63 is in no set.
    #[tactic(auto, using(crate::proofs::Machine::machine_member, crate::proofs::Members::member_past))]
    pub fn has(self, j: u8) -> bool
        ensures { result ≡ member self.bits j }
    {
        j < 64 && self.bits >> j & 1 == 1
    }

    pub fn is_empty(self) -> bool
        ensures { result ≡ eqb self.bits 0 }
    {
        self.bits == 0
    }

    pub fn count(self) -> u32
        ensures { result ≡ ones self.bits }
    {
        self.bits.count_ones()
    }

    // Every timer of the set is below n.
    #[tactic(auto, using(crate::proofs::Below::machine_all_below, crate::proofs::Below::all_below_over))]
    pub fn all_below(self, n: u8) -> bool
        ensures { result ≡ all_below n self.bits }
    {
        n >= 64 || self.bits >> n == 0
    }

    // The lowest timer that is not in the set, 64 where none is missing.
    #[tactic(auto, using(crate::proofs::Counts::lowest_missing_lem))]
    pub fn lowest_missing(self) -> u32
        ensures { result ≡ lowest_missing self.bits }
    {
        (!self.bits).trailing_zeros()
    }

    // The lowest timer of the set, 64 where there is none.
    #[tactic(auto, using(crate::proofs::LowestMember::machine_lowest))]
    pub fn lowest(self) -> u32
        ensures { result ≡ lowest_member self.bits }
    {
        self.bits.trailing_zeros()
    }

    // The set without its lowest timer, if it has one.
    #[tactic(auto, using(crate::proofs::LowestMember::machine_without_lowest, crate::proofs::LowestMember::none_without))]
    pub fn without_lowest(self) -> TimerSet
        ensures { result.bits ≡ removed self.bits (lowest_member self.bits) }
    {
        if self.bits == 0 {
            return self;
        }
        TimerSet {
            bits: self.bits & self.bits - 1,
        }
    }

    // The lowest timer and the set without it, if the set has one.
    pub fn split_lowest(self) -> Option<(u8, TimerSet)>
        ensures { SplitsLowest self.bits result }
    {
        if self.is_empty() {
            return None;
        }
        Some((self.lowest() as u8, self.without_lowest()))
    }
}

// The timers of a set, rising, one after another.
#[derive(Clone, Copy)]
pub struct Timers {
    left: TimerSet,
}

impl Iterator for Timers {
    type Item = u8;

    ghost next_gives = { TakesLowest };

    ghost remaining = { λ s. at_most s.left.bits };

    fn next(&mut self) -> Option<u8> {
        let (lowest, others) = self.left.split_lowest()?;
        self.left = others;
        Some(lowest)
    }
}

impl IntoIterator for TimerSet {
    type Item = u8;

    type IntoIter = Timers;

    ghost into_iter_gives = { IsAllOf };

    fn into_iter(self) -> Timers {
        Timers { left: self }
    }
}
