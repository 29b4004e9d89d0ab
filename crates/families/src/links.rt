// The links that have timers, one after another in an array.
ghost use Rattle.std.specs.Prelude.{◌≡◌, [], ◌∷◌, ◌++◌, ◌+◌, ◌≤◌, ◌<◌, length, take};
ghost use Rattle.chart_lists.specs.Limits.{most_transitions};

use timer_set::TimerSet;

// The locations at its ends, and its timers, which are live at both and which it does not start.
#[derive(Clone, Copy)]
pub struct Link {
    pub one: u16,
    pub other: u16,
    pub timers: TimerSet,
}

impl Link {
    const NONE: Link = Link {
        one: 0,
        other: 0,
        timers: TimerSet::EMPTY,
    };
}

// The first `count` links of the array.
#[derive(Clone, Copy)]
pub struct Links {
    all: [Link; chart_lists::MOST_TRANSITIONS],
    pub(crate) count: usize,
    ghost few: { count ≤ most_transitions },
}

impl Links {
    pub const NONE: Links = Links {
        all: [Link::NONE; chart_lists::MOST_TRANSITIONS],
        count: 0,
    };

    pub fn push(&mut self, link: Link)
        requires { self.old.count < most_transitions }
        ensures count { self.new.count ≡ self.old.count + 1 }
        ensures links { take self.new.count self.new.all ≡ take self.old.count self.old.all ++ (link ∷ []) }
    {
        self.all[self.count] = link;
        self.count += 1;
    }

    pub fn as_slice(&self) -> &[Link]
        ensures { result.now ≡ take self.now.count self.now.all }
    {
        &self.all[..self.count]
    }
}
