// The lines of the text over the front of a lent part: a refusal's, the first line of a chart and those of its locations.
ghost use Rattle.std.specs.Prelude.{◌++◌, ◌+◌, ◌*◌, ◌≤◌, length};
ghost use Rattle.chart_lists.specs.Limits.{most_timers};
ghost use Rattle.allocation.specs.Cells.{most_cells};
ghost use Rattle.refusal.specs.Reason.{number_of};
ghost use Rattle.listing.specs.Text.{decimal};
ghost use Rattle.listing.specs.Listing.{refused_text, word_of, first_line, entry_text};
ghost use Rattle.listing.specs.PutBytes.{PutBytes};
ghost use Rattle.listing.specs.Cells.{in_cell, entries_in, line_in, lines_in, numbers_text};

use crate::text::put_number;
use allocation::NO_NUMBER;
use numbering::FileNumbers;
use refusal::Refusal;

// The line of a refusal.
pub fn put_refusal(out: &mut [u8], f: Refusal) -> usize
    requires { length (refused_text (number_of f.reason) f.place) ≤ length out.old }
    ensures { PutBytes (refused_text (number_of f.reason) f.place) out.old out.new result }
{
    let at = put_number(out, b"refused ", f.reason.number() as u64);
    let end = at + put_number(&mut out[at..], b" ", f.place);
    out[end] = b'\n';
    end + 1
}

// The floor after its word.
fn put_floor(out: &mut [u8], floor: u32, searched: bool) -> usize
    requires { length (word_of searched) + length (decimal floor) ≤ length out.old }
    ensures { PutBytes (word_of searched ++ decimal floor) out.old out.new result }
{
    if searched {
        return put_number(out, b" floor ", floor as u64);
    }
    put_number(out, b" seen ", floor as u64)
}

// What was found of a chart and the board's timers.
fn put_first_line(out: &mut [u8], numbers: FileNumbers, limit: u8) -> usize
    requires { length (first_line numbers.used numbers.floor numbers.searched limit) ≤ length out.old }
    ensures { PutBytes (first_line numbers.used numbers.floor numbers.searched limit) out.old out.new result }
{
    let at = put_number(out, b"used ", numbers.used as u64);
    let next = at + put_floor(&mut out[at..], numbers.floor, numbers.searched);
    let end = next + put_number(&mut out[next..], b" limit ", limit as u64);
    out[end] = b'\n';
    end + 1
}

// Timer j with the number in its cell; nothing if there is none.
fn put_entry(out: &mut [u8], j: u8, number: u16) -> usize
    requires { length (entry_text j (in_cell number)) ≤ length out.old }
    ensures { PutBytes (entry_text j (in_cell number)) out.old out.new result }
{
    if number == NO_NUMBER {
        return 0;
    }
    let at = put_number(out, b" ", j as u64);
    at + put_number(&mut out[at..], b">", number as u64)
}

// The entries of the timers whose cells begin at base.
fn put_entries(out: &mut [u8], cells: &[u16], base: usize, timers: u8) -> usize
    requires { (base + timers ≤ length cells.now) × (length (entries_in cells.now base timers) ≤ length out.old) }
    ensures { PutBytes (entries_in cells.now base timers) out.old out.new result }
{
    let mut at: usize = 0;
    for j in 0..timers {
        at += put_entry(&mut out[at..], j, cells[base + j as usize]);
    }
    at
}

// The line of location q.
fn put_line(out: &mut [u8], cells: &[u16], timers: u8, q: usize) -> usize
    requires { (64 * q + timers ≤ length cells.now) × (length cells.now ≤ most_cells) × (length (line_in cells.now timers q) ≤ length out.old) }
    ensures { PutBytes (line_in cells.now timers q) out.old out.new result }
{
    let at = put_number(out, b"at ", q as u64);
    let last = at + put_entries(&mut out[at..], cells, 64 * q, timers);
    out[last] = b'\n';
    last + 1
}

// The lines of the locations below n.
fn put_lines(out: &mut [u8], cells: &[u16], timers: u8, n: usize) -> usize
    requires { (64 * n ≤ length cells.now) × (length cells.now ≤ most_cells) × (timers ≤ most_timers)
        × (length (lines_in cells.now timers n) ≤ length out.old) }
    ensures { PutBytes (lines_in cells.now timers n) out.old out.new result }
{
    let mut at: usize = 0;
    for q in 0..n {
        at += put_line(&mut out[at..], cells, timers, q);
    }
    at
}

// The text of a chart from its numbers and its cells.
pub fn put_chart(out: &mut [u8], limit: u8, numbers: FileNumbers, cells: &[u16]) -> usize
    requires { (64 * numbers.header.locations ≤ length cells.now) × (length cells.now ≤ most_cells) × (numbers.header.timers ≤ most_timers)
        × (length (numbers_text limit numbers cells.now) ≤ length out.old) }
    ensures { PutBytes (numbers_text limit numbers cells.now) out.old out.new result }
{
    let at = put_first_line(out, numbers, limit);
    at + put_lines(
        &mut out[at..],
        cells,
        numbers.header.timers,
        numbers.header.locations as usize,
    )
}
