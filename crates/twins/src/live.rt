// The board numbers of a chart from its live sets: twins count as one before families are formed, and then share a number.
ghost use Rattle.std.specs.Prelude.{◌≡◌, ◌*◌, length};
ghost use Rattle.model.specs.Chart.{Chart};
ghost use Rattle.twins.specs.LiveNumbered.{LiveLists, LiveNumbered};

use crate::LowestTwins;
use allocation::Allocated;
use chart_lists::MOST_TIMERS;
use families::LiveChart;

// The live sets with twins counted as one over `merged`, the board number of each live timer over `cells`, at 64 q + j, and of each location which of
// the first 20 families contain it. How many numbers are used, and how many families there are.
pub fn number_live(
    chart: LiveChart,
    merged: &mut [u64],
    cells: &mut [u16],
    families_at: &mut [u64],
) -> Allocated
    requires { ((c : Chart) × LiveLists c chart.sources.now chart.targets.now chart.starts.now chart.live.now chart.timers)
        × (length merged.old ≡ length chart.live.now) × (length cells.old ≡ 64 * length chart.live.now)
        × (length families_at.old ≡ length chart.live.now) }
    ensures { (c : Chart)
        → LiveLists c chart.entry.sources.now chart.entry.targets.now chart.entry.starts.now chart.entry.live.now chart.entry.timers
        → LiveNumbered c merged.new cells.new families_at.new result }
{
    let mut lowest = [0u8; MOST_TIMERS];
    let own = crate::lowest_twins(chart.starts, chart.timers, &mut lowest);
    let twins = LowestTwins {
        lowest: &lowest,
        own,
    };
    twins.merge_sets(chart.live, merged);
    let counted_once = LiveChart {
        live: merged,
        ..chart
    };
    let allocated = allocation::allocate(counted_once, cells, families_at);
    twins.share_numbers(chart.live, cells);
    allocated
}
