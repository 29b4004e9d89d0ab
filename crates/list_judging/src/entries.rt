// Entries of the lists, each read and held to its limit.
ghost use Rattle.std.specs.Prelude.{◌≡◌};
ghost use Rattle.model.specs.Answer.{returned};
ghost use Rattle.refusal.specs.Reason.{number_of};
ghost use Rattle.refusal.specs.Refused.{answer_as};
ghost use Rattle.list_judging.specs.FromLists.{entry_at, limited};

use refusal::{Reason, Refusal};

// The entry at place k of a list of numbers of any width; 3 where the list has ended.
pub fn entry_at<T: Copy>(l: &[T], k: usize) -> Result<T, Refusal>
    ensures { answer_as result ≡ entry_at l.now k }
{
    l.get(k).copied().ok_or(refusal::CUT_OFF)
}

// A number below a limit, or the refusal given.
#[tactic(auto, unfolding(crate::specs::FromLists::limited))]
pub fn below(x: u64, limit: u64, reason: Reason, place: u64) -> Result<u64, Refusal>
    ensures { answer_as result ≡ limited limit (number_of reason) place (returned x) }
{
    if x < limit {
        Ok(x)
    } else {
        Err(Refusal { reason, place })
    }
}
