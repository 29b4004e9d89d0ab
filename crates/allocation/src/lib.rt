// Board numbers by first fit over families, and which of the first 20 families contain each location.
#![tactic(auto)]

mod family;
mod free;
mod place;

ghost use Rattle.std.specs.Prelude.{◌≡◌, ℕ, ◌*◌, ◌<◌, length, get_or};
ghost use Rattle.timer_set.specs.Members.{joined};
ghost use Rattle.model.specs.Family.{Pairs, families as Family·families};
ghost use Rattle.model.specs.FirstFit.{first_fit, used_by};
ghost use Rattle.model.specs.Rewrite.{numbering};
ghost use Rattle.families.specs.Pairs.{pairs_in, SafeChart};
ghost use Rattle.families.specs.Propagation.{Ends, EmptyFrom};
ghost use Rattle.allocation.specs.Cells.{cells_of, no_number};
ghost use Rattle.allocation.specs.FamiliesAt.{FamiliesAt};
ghost use Rattle.allocation.specs.Turns.{NumberedTo, Described, Fresh};

use families::{Link, Links, LiveChart};
use family::Spread;
use place::place_roots;
use timer_set::TimerSet;

// The cell of a pair that has no number, which no number given reaches.
pub const NO_NUMBER: u16 = 65535;

// A cell for each timer of each location: the most there are, and so the most numbers that families can need.
pub const MOST_CELLS: usize = chart_lists::MOST_LOCATIONS * chart_lists::MOST_TIMERS;

// So many words of 64 numbers are kept for each location, word v of location s at 256 v + s; the numbers in them; the list's length.
const HELD_WORDS: u16 = 8;

const HELD_NUMBERS: u16 = HELD_WORDS * 64;

const HELD_LENGTH: usize = chart_lists::MOST_LOCATIONS * HELD_WORDS as usize;

// How many numbers are used, and how many families there are.
#[derive(Clone, Copy)]
pub struct Allocated {
    pub used: u32,
    pub families: u32,
}

// Each set of `all` with the timers of the same one of `sets`, which are empty from `end` on.
fn join_sets(sets: &[u64], end: usize, all: &mut [u64])
    requires { (length all.old ≡ length sets.now) × EmptyFrom end sets.now }
    ensures { (s : ℕ) → s < length sets.now
        → get_or all.new s 0 ≡ joined (get_or all.old s 0) (get_or sets.now s 0) }
{
    for s in 0..end {
        all[s] = TimerSet { bits: all[s] }
            .join(TimerSet { bits: sets[s] })
            .bits;
    }
}

// The locations in turn: the timers whose families begin there propagate at once, and then these families are placed and marked.
// How many numbers are used, and how many families there are.
fn number_locations(
    links: &[Link],
    live: &[u64],
    sets: &mut [u64],
    placed: &mut [u64],
    cells: &mut [u16],
    held: &mut [u64],
    families_at: &mut [u64],
) -> Allocated
    requires { ((p : Pairs) × Described p live.now links.now)
        × Ends (length live.now) links.now
        × Fresh live.now sets.old placed.old cells.old held.old families_at.old }
    ensures { (p : Pairs) → Described p live.now links.now
        → NumberedTo p (64 * length live.now) cells.new families_at.new result.used result.families }
{
    let mut counts = Allocated {
        used: 0,
        families: 0,
    };
    for q in 0..live.len() {
        let own = TimerSet { bits: live[q] };
        let earlier = TimerSet { bits: placed[q] };
        let roots = own.minus(earlier);
        if !roots.is_empty() {
            let end = families::propagate(links, q, roots, sets);
            let spread = Spread {
                sets,
                roots,
                from: q,
                end,
            };
            counts = place_roots(spread, cells, held, families_at, counts);
            join_sets(sets, end, placed);
        }
    }
    counts
}

// The board number of each pair (q, j), at 64 q + j, and of each location, which of the first 20 families contain it, by their places in the order
// of families. How many numbers are used, and how many families there are.
pub fn allocate(chart: LiveChart, cells: &mut [u16], families_at: &mut [u64]) -> Allocated
    requires { SafeChart chart × (length cells.old ≡ 64 * length chart.live.now) × (length families_at.old ≡ length chart.live.now) }
    ensures cells { cells.new
        ≡ cells_of (numbering (first_fit (pairs_in chart.entry))) (length chart.entry.live.now) }
    ensures used { result.used ≡ used_by (first_fit (pairs_in chart.entry)) }
    ensures families { result.families ≡ length (Family·families (pairs_in chart.entry)) }
    ensures at { FamiliesAt (Family·families (pairs_in chart.entry)) families_at.new }
{
    let mut links = Links::NONE;
    families::find_links(chart, &mut links);
    cells.fill(NO_NUMBER);
    families_at.fill(0);
    let n = chart.live.len();
    let mut sets = [0u64; chart_lists::MOST_LOCATIONS];
    let mut placed = [0u64; chart_lists::MOST_LOCATIONS];
    let mut held = [0u64; HELD_LENGTH];
    number_locations(
        links.as_slice(),
        chart.live,
        &mut sets[..n],
        &mut placed[..n],
        cells,
        &mut held,
        families_at,
    )
}
