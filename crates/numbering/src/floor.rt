// The floor of a chart, from its live sets with twins counted as one, and from the families at each location.
ghost use Rattle.std.specs.Prelude.{◌≡◌};
ghost use Rattle.model.specs.Chart.{Chart};
ghost use Rattle.model.specs.Live.{fullest as Live·fullest};
ghost use Rattle.model.specs.Floor.{floor as Floor·floor, searched as Floor·searched};
ghost use Rattle.numbering.specs.FloorAsked.{FloorAsked};

use crate::Numbered;
use smallest_plan::MOST_SEARCHED;
use timer_set::TimerSet;

// A floor, and whether it is the fewest timers of any plan.
#[derive(Clone, Copy)]
pub struct FloorFound {
    pub floor: u32,
    pub searched: bool,
}

// The count of ones in the fullest of the sets.
fn fullest(sets: &[u64]) -> u32
    ensures { result ≡ Live·fullest sets.now }
{
    let mut most: u32 = 0;
    for bits in sets {
        let count = TimerSet { bits: *bits }.count();
        most = most.max(count);
    }
    most
}

// The fewest timers of any plan where there are at most 20 families: no fewer than the fullest live set has, twins counted once, and no more than
// first fit uses. With more families the fullest live set, so counted.
pub fn find_floor(merged: &[u64], families_at: &[u64], numbered: Numbered) -> FloorFound
    requires { (c : Chart) × FloorAsked c merged.now families_at.now numbered }
    ensures { (c : Chart) → FloorAsked c merged.now families_at.now numbered
        → (result.floor ≡ Floor·floor c) × (result.searched ≡ Floor·searched c) }
{
    let most = fullest(merged);
    if numbered.families > MOST_SEARCHED as u32 {
        return FloorFound {
            floor: most,
            searched: false,
        };
    }
    let floor = meeting::fewest_timers(families_at, numbered.families, most, numbered.used);
    FloorFound {
        floor,
        searched: true,
    }
}
