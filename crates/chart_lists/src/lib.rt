// How a chart is handed over in lent lists (docs/LISTS.md): its header in one struct by value, the rest in nine lists.
#![tactic(auto)]

ghost use Rattle.std.specs.Prelude.{◌≡◌, ◌≤◌, length};
ghost use Rattle.chart_lists.specs.Large.{large_among};
ghost use Rattle.chart_lists.specs.Stored.{lists_in, stored};

// The version of its file, the numbers of locations, of timers, of accepting locations and of transitions, and the initial location.
#[derive(Clone, Copy)]
pub struct Header {
    pub version: u8,
    pub locations: u16,
    pub initial: u16,
    pub timers: u8,
    pub accepting: u16,
    pub transitions: u16,
}

// The most that a chart may have.
pub const MOST_LOCATIONS: usize = 256;

pub const MOST_TIMERS: usize = 64;

pub const MOST_TRANSITIONS: usize = 512;

pub const MOST_TESTS: usize = 4096;

// Whether one of the first n constants is over 65,535.
#[tactic(auto, unfolding(model::specs::Version::is_large))]
pub fn large_among(constants: &[u32], n: usize) -> bool
    requires { n ≤ length constants.now }
    ensures { result ≡ large_among n constants.now }
{
    constants[..n].iter().any(|k| *k > model::MOST_IN_TWO_BYTES)
}

// The nine lists of a chart beside its header, lent to be read.
#[derive(Clone, Copy)]
pub struct ChartLists<'a> {
    pub accepting: &'a [u16],
    pub sources: &'a [u16],
    pub targets: &'a [u16],
    pub events: &'a [u8],
    pub starts: &'a [u64],
    pub test_counts: &'a [u8],
    pub timers: &'a [u8],
    pub codes: &'a [u8],
    pub constants: &'a [u32],
}

// Room for the nine lists of any chart.
#[derive(Clone, Copy)]
pub struct ChartStore {
    pub accepting: [u16; MOST_LOCATIONS],
    pub sources: [u16; MOST_TRANSITIONS],
    pub targets: [u16; MOST_TRANSITIONS],
    pub events: [u8; MOST_TRANSITIONS],
    pub starts: [u64; MOST_TRANSITIONS],
    pub test_counts: [u8; MOST_TRANSITIONS],
    pub timers: [u8; MOST_TESTS],
    pub codes: [u8; MOST_TESTS],
    pub constants: [u32; MOST_TESTS],
}

impl ChartStore {
    pub const EMPTY: ChartStore = ChartStore {
        accepting: [0; MOST_LOCATIONS],
        sources: [0; MOST_TRANSITIONS],
        targets: [0; MOST_TRANSITIONS],
        events: [0; MOST_TRANSITIONS],
        starts: [0; MOST_TRANSITIONS],
        test_counts: [0; MOST_TRANSITIONS],
        timers: [0; MOST_TESTS],
        codes: [0; MOST_TESTS],
        constants: [0; MOST_TESTS],
    };

    // The lists, to be read.
    pub fn lists<'a>(&'a self) -> ChartLists<'a>
        ensures { lists_in result ≡ stored self.now }
    {
        ChartLists {
            accepting: &self.accepting,
            sources: &self.sources,
            targets: &self.targets,
            events: &self.events,
            starts: &self.starts,
            test_counts: &self.test_counts,
            timers: &self.timers,
            codes: &self.codes,
            constants: &self.constants,
        }
    }
}
