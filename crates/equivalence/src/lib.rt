// Rewrites a chart file for a board and plays a step list on both files: demand 3 on files. The cases that document 01 marks ★, asked of the entry
// points' definitions on files, stand in specs/OnFiles.
#![tactic(auto)]

ghost use Rattle.std.specs.Prelude.{◌≡◌};
ghost use Rattle.equivalence.specs.Both.{board_answer, board_as, Claim};

use file_format::LARGEST_FILE;
use player::Arrival;
use refusal::Refusal;

// What the player answers on the file, and on the rewritten file, or why there is none.
#[derive(Clone, Copy)]
pub struct Both {
    pub drawn: Result<Arrival, Refusal>,
    pub board: Result<Result<Arrival, Refusal>, Refusal>,
}

// Rewrites the file for a board of k timers, and plays the steps on the rewritten file.
fn play_rewritten(
    file: &[u8],
    k: u32,
    board_counts: &[u32],
    transitions: &[u32],
    times: &[u64],
) -> Result<Result<Arrival, Refusal>, Refusal>
    ensures { board_as result ≡ board_answer k file.now board_counts.now transitions.now times.now }
{
    let mut out = [0u8; LARGEST_FILE];
    let rewriting = rewriting::rewrite(file, k, &mut out)?;
    let board_file = &out[..rewriting.length];
    Ok(player::play(board_file, board_counts, transitions, times))
}

// Plays the steps on the file and on the file that it is rewritten to.
pub fn rewrite_and_play(
    file: &[u8],
    k: u32,
    counts: &[u32],
    board_counts: &[u32],
    transitions: &[u32],
    times: &[u64],
) -> Both
    ensures { Claim k file.now counts.now board_counts.now
        transitions.now times.now result }
{
    let drawn = player::play(file, counts, transitions, times);
    let board = play_rewritten(file, k, board_counts, transitions, times);
    Both { drawn, board }
}
