// The program's text from its whole input, in a lent buffer.
#![tactic(auto)]

ghost use Rattle.std.specs.Prelude.{◌≡◌, ◌≤◌, length};
ghost use Rattle.model.specs.Answer.{returned};
ghost use Rattle.model.specs.Chart.{Chart};
ghost use Rattle.refusal.specs.Refused.{answer_as};
ghost use Rattle.chart_lists.specs.Limits.{most_locations};
ghost use Rattle.allocation.specs.Cells.{most_cells};
ghost use Rattle.numbering.specs.FileNumbers.{ListsNumbered};
ghost use Rattle.listing.specs.Listing.{largest_text, accepted, board_numbers, answer_text, text_of};
ghost use Rattle.listing.specs.PutBytes.{PutBytes};

mod lines;
mod text;

use crate::lines::{put_chart, put_refusal};
use numbering::FileNumbers;
use refusal::Refusal;

// The bytes that an input may have, and the bytes that hold every text.
pub const LARGEST_INPUT: usize = 65536;

pub const LARGEST_TEXT: usize = 131072;

// The numbers of a chart file, where a board of so many timers is enough for the chart, with its live sets and its board numbers over the fronts of
// the lists; or a refusal: 1 to 10, then 11, then 20.
fn number_board(
    limit: u8,
    file: &[u8],
    live: &mut [u64],
    cells: &mut [u16],
) -> Result<FileNumbers, Refusal>
    requires { (most_locations ≤ length live.old) × (most_cells ≤ length cells.old) }
    ensures answer { answer_as result ≡ board_numbers limit file.now }
    ensures lists { (c : Chart) → accepted limit file.now ≡ returned c → ListsNumbered c live.new cells.new }
{
    let numbers = numbering::number_file(file, live, cells)?;
    numbering::judge_limit(limit as u32, numbers.used)?;
    Ok(numbers)
}

// The text for a chart file and a board of so many timers.
fn put_file(out: &mut [u8], limit: u8, file: &[u8]) -> usize
    requires { largest_text ≤ length out.old }
    ensures { PutBytes (answer_text limit (accepted limit file.now)) out.old out.new result }
{
    let mut live = [0u64; chart_lists::MOST_LOCATIONS];
    let mut cells = [0u16; allocation::MOST_CELLS];
    match number_board(limit, file, &mut live, &mut cells) {
        Ok(numbers) => put_chart(out, limit, numbers, &cells),
        Err(f) => put_refusal(out, f),
    }
}

// The text of the whole input.
fn put_text(out: &mut [u8], input: &[u8]) -> usize
    requires { largest_text ≤ length out.old }
    ensures { PutBytes (text_of input.now) out.old out.new result }
{
    if input.len() > LARGEST_INPUT {
        return put_refusal(out, refusal::INPUT_TOO_LONG);
    }
    let Some((limit, file)) = input.split_first() else {
        return put_refusal(out, refusal::WRONG_LENGTH);
    };
    put_file(out, *limit, file)
}

// The text of the whole input over the front of the buffer, and its length. A buffer of this size holds every text, so that none is refused.
pub fn list(input: &[u8], out: &mut [u8; LARGEST_TEXT]) -> usize
    ensures { PutBytes (text_of input.now) out.old out.new result }
{
    put_text(out, input)
}
