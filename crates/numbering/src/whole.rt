// The live sets and the board numbers of a chart from its lists, all of whose transitions count.
ghost use Rattle.std.specs.Prelude.{◌≡◌, ◌*◌, ◌≤◌, length};
ghost use Rattle.model.specs.Chart.{Chart};
ghost use Rattle.model.specs.Live.{live_sets, live_rounds};
ghost use Rattle.chart_lists.specs.Begins.{Begins};
ghost use Rattle.numbering.specs.Held.{ChartHeld};
ghost use Rattle.numbering.specs.ChartNumbered.{ChartNumbered};

use crate::Numbered;
use chart_lists::{Header, MOST_LOCATIONS};
use families::LiveChart;
use spare::Transitions;

// The live set of each location over the front of `live`. How many rounds found them.
fn live_chart<'a>(header: Header, transitions: Transitions<'a>, live: &mut [u64]) -> u32
    requires { ((c : Chart) × ChartHeld c header transitions) × (header.locations ≤ length live.old) }
    ensures { (c : Chart) → ChartHeld c header transitions.entry → Begins (live_sets c) live.new × (result ≡ live_rounds c) }
{
    let m = header.locations as usize;
    let n = header.transitions as usize;
    let from = &transitions.sources[..n];
    let to = &transitions.targets[..n];
    let started = &transitions.starts[..n];
    let own = [0u64; MOST_LOCATIONS];
    flow::settle(
        from,
        to,
        started,
        &transitions.tested[..n],
        &own[..m],
        &mut live[..m],
    )
}

// The live set of each location over the front of `live`, the same with twins counted as one over the front of `merged`, the board number of each
// live timer j at 64 q + j over the front of `cells`, and over the front of `families_at` of each location which of the first 20 families contain it.
// How many numbers are used, how many families there are, and how many rounds found the live sets. All transitions of the lists count.
pub fn number_lists<'a>(
    header: Header,
    transitions: Transitions<'a>,
    live: &mut [u64],
    merged: &mut [u64],
    cells: &mut [u16],
    families_at: &mut [u64],
) -> Numbered
    requires { ((c : Chart) × ChartHeld c header transitions) × (header.locations ≤ length live.old) × (header.locations ≤ length merged.old)
        × (64 * header.locations ≤ length cells.old) × (header.locations ≤ length families_at.old) }
    ensures { (c : Chart) → ChartHeld c header transitions.entry
        → ChartNumbered c live.new merged.new cells.new families_at.new result }
{
    let rounds = live_chart(header, transitions, live);
    let m = header.locations as usize;
    let n = header.transitions as usize;
    let chart = LiveChart {
        sources: &transitions.sources[..n],
        targets: &transitions.targets[..n],
        starts: &transitions.starts[..n],
        live: &live[..m],
        timers: header.timers,
    };
    let allocated = twins::live::number_live(
        chart,
        &mut merged[..m],
        &mut cells[..64 * m],
        &mut families_at[..m],
    );
    Numbered {
        used: allocated.used,
        families: allocated.families,
        rounds,
    }
}
