// The analysis of a chart file: the live set of each location and how many rounds find them, used and floor, and whether the floor is the smallest
// number of timers of any plan.
#![tactic(auto)]

ghost use Rattle.std.specs.Prelude.{◌≡◌, length};
ghost use Rattle.refusal.specs.Refused.{answer_as};
ghost use Rattle.chart_lists.specs.Lists.{overwritten};
ghost use Rattle.analysis.specs.Analysing.{analysed_in, analysed_sets, analyse_answer};

use refusal::Refusal;

// Used, floor, whether the floor is the smallest number of timers of any plan, and the number of rounds.
#[derive(Clone, Copy)]
pub struct Analysis {
    pub used: u32,
    pub floor: u32,
    pub searched: bool,
    pub rounds: u32,
}

// The live sets of the file's chart over the front of the list, with used, floor, searched and rounds; or a refusal, 1 to 10, then 21.
pub fn analyse(file: &[u8], live: &mut [u64]) -> Result<Analysis, Refusal>
    ensures answer { answer_as result ≡ analyse_answer (length live.old) file.now }
    ensures lent { live.new
        ≡ overwritten analysed_sets (analysed_in (length live.old) file.now) live.old }
{
    let mut sets = [0u64; chart_lists::MOST_LOCATIONS];
    let mut cells = [0u16; allocation::MOST_CELLS];
    let numbers = numbering::number_file(file, &mut sets, &mut cells)?;
    let m = numbers.header.locations as usize;
    if live.len() < m {
        return Err(refusal::NO_ROOM);
    }
    live[..m].copy_from_slice(&sets[..m]);
    Ok(Analysis {
        used: numbers.used,
        floor: numbers.floor,
        searched: numbers.searched,
        rounds: numbers.rounds,
    })
}
