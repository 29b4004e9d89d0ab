// The player: what a list of steps comes to on a chart file, from given starting counts.
#![tactic(auto)]

ghost use Rattle.std.specs.Prelude.{◌≡◌, length};
ghost use Rattle.lists.specs.Lists.{memb, lowest};
ghost use Rattle.model.specs.Chart.{Chart};
ghost use Rattle.model.specs.Answer.{returned};
ghost use Rattle.model.specs.Player.{counts_judged, played_on, too_large};
ghost use Rattle.chart_lists.specs.Header.{header_of};
ghost use Rattle.chart_lists.specs.Holds.{Holds};
ghost use Rattle.refusal.specs.Refused.{answer_as, answer_by};
ghost use Rattle.player.specs.Playing.{arrival_as, play_answer, judged_to13, lists_played};

use chart_lists::{ChartLists, ChartStore, Header, MOST_TRANSITIONS};
use model::LARGEST_TIME;
use refusal::{Reason, Refusal};

// Where the steps end.
#[derive(Clone, Copy, Debug, PartialEq, Eq)]
pub struct Arrival {
    pub location: u16,
    pub time: u64,
    pub accepting: bool,
}

// The lowest timer whose starting count is over 16,777,215, or the number of counts.
pub fn first_too_large(counts: &[u32]) -> usize
    ensures { result ≡ lowest (too_large counts.now) (length counts.now) }
{
    for (j, count) in counts.iter().enumerate() {
        if u64::from(*count) > LARGEST_TIME {
            return j;
        }
    }
    counts.len()
}

// 12: a starting count for each of so many timers, none over 16,777,215.
pub fn judge_counts(counts: &[u32], timers: u8) -> Result<(), Refusal>
    ensures { ((c : Chart) → timers ≡ c.timers → answer_as result ≡ counts_judged c counts.now (returned tt)) }
{
    if counts.len() != timers as usize {
        return Err(refusal::WRONG_COUNTS);
    }
    let first = first_too_large(counts);
    if first < counts.len() {
        return Err(Refusal {
            reason: Reason::WrongCounts,
            place: first as u64,
        });
    }
    Ok(())
}

// 12, then 13: there are as many transitions as times or, on the counter board, readings.
pub fn judge_inputs(
    counts: &[u32],
    timers: u8,
    transitions: usize,
    moments: usize,
) -> Result<(), Refusal>
    ensures { ((c : Chart) → timers ≡ c.timers → answer_as result ≡ judged_to13 c counts.now transitions moments (returned tt)) }
{
    judge_counts(counts, timers)?;
    if transitions != moments {
        return Err(refusal::UNEQUAL_LISTS);
    }
    Ok(())
}

// Whether a location is one of the accepting ones.
pub fn accepts(accepting: &[u16], location: u16) -> bool
    ensures { result ≡ memb location accepting.now }
{
    accepting.contains(&location)
}

// On a chart that is judged: 12, 13, then the steps.
fn play_chart<'a>(
    lists: ChartLists<'a>,
    header: Header,
    counts: &[u32],
    transitions: &[u32],
    times: &[u64],
) -> Result<Arrival, Refusal>
    requires { (c : Chart) × (header ≡ header_of c)
        × Holds c (lists_played c lists) }
    ensures { ((c : Chart) → header ≡ header_of c
        → Holds c (lists_played c lists.entry)
        → answer_by arrival_as result ≡ played_on counts.now transitions.now times.now c) }
{
    judge_inputs(counts, header.timers, transitions.len(), times.len())?;
    let last = steps::play_steps(lists, header, counts, transitions, times)?;
    let a = header.accepting as usize;
    Ok(Arrival {
        location: last.location,
        time: last.time,
        accepting: accepts(&lists.accepting[..a], last.location),
    })
}

// The player, called on a chart file.
pub fn play(
    file: &[u8],
    counts: &[u32],
    transitions: &[u32],
    times: &[u64],
) -> Result<Arrival, Refusal>
    ensures { answer_by arrival_as result ≡ play_answer file.now counts.now transitions.now times.now }
{
    let mut store = ChartStore::EMPTY;
    let mut tested = [0u64; MOST_TRANSITIONS];
    let header = judgement::judge_into(file, &mut store, &mut tested)?;
    play_chart(store.lists(), header, counts, transitions, times)
}
