// Rewrites a chart file for a board of K timers.
#![tactic(auto)]

ghost use Rattle.std.specs.Prelude.{◌≡◌, length};
ghost use Rattle.model.specs.Answer.{returned, then};
ghost use Rattle.model.specs.Chart.{Chart};
ghost use Rattle.refusal.specs.Refused.{answer_as};
ghost use Rattle.chart_lists.specs.Lists.{overwritten};
ghost use Rattle.chart_lists.specs.Stored.{stored};
ghost use Rattle.rewriting.specs.Rewriting.{new_file, values_of, rewrite_into, rewrite_answer};
ghost use Rattle.rewriting.specs.Parts.{fitted_into, JudgedChart};

mod writing;

use crate::writing::write_cleared;
use allocation::MOST_CELLS;
use chart_lists::{ChartStore, Header, MOST_LOCATIONS, MOST_TRANSITIONS};
use refusal::Refusal;
use spare::Transitions;

// A chart that was rewritten: the timers used, and the length of the new file.
#[derive(Clone, Copy)]
pub struct Rewriting {
    pub used: u32,
    pub length: usize,
}

// Of a chart that is judged: 11, then 20, then 21, else the rewritten chart's file.
fn fit<'a>(
    header: Header,
    store: &mut ChartStore,
    tested: &'a [u64; MOST_TRANSITIONS],
    k: u32,
    out: &mut [u8],
) -> Result<Rewriting, Refusal>
    requires { (c : Chart) × JudgedChart c header (stored store.old) tested.now }
    ensures answer { ((c : Chart) → JudgedChart c header (stored store.old) tested.now
        → answer_as result ≡ then (fitted_into k (length out.old) c) (λ x. returned (values_of x))) }
    ensures lent { ((c : Chart) → JudgedChart c header (stored store.old) tested.now
        → out.new ≡ overwritten new_file (fitted_into k (length out.old) c) out.old) }
{
    let mut live = [0u64; MOST_LOCATIONS];
    let mut merged = [0u64; MOST_LOCATIONS];
    let mut cells = [0u16; MOST_CELLS];
    let mut families_at = [0u64; MOST_LOCATIONS];
    let transitions = Transitions {
        sources: &store.sources,
        targets: &store.targets,
        starts: &store.starts,
        tested,
    };
    let numbered = numbering::number_chart(
        header,
        transitions,
        &mut live,
        &mut merged,
        &mut cells,
        &mut families_at,
    );
    let used = numbered.used;
    numbering::judge_limit(k, used)?;
    let length = write_cleared(header, store, used as u8, &cells, out)?;
    Ok(Rewriting { used, length })
}

// Judges 1 to 10, then 11 and 20, then 21, and only then writes the rewritten file over the front of the buffer.
pub fn rewrite(file: &[u8], k: u32, out: &mut [u8]) -> Result<Rewriting, Refusal>
    ensures answer { answer_as result ≡ rewrite_answer k (length out.old) file.now }
    ensures lent { out.new
        ≡ overwritten new_file (rewrite_into k (length out.old) file.now) out.old }
{
    let mut store = ChartStore::EMPTY;
    let mut tested = [0u64; MOST_TRANSITIONS];
    let header = judgement::judge_into(file, &mut store, &mut tested)?;
    fit(header, &mut store, &tested, k, out)
}
