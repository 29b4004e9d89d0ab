// Writes a chart that stands in lists as a chart file: judges all of it first, then the room, and only then writes.
#![tactic(auto)]

ghost use Rattle.std.specs.Prelude.{◌≡◌, ◌*◌, ◌≤◌, length};
ghost use Rattle.refusal.specs.Refused.{answer_as};
ghost use Rattle.file_format.specs.File.{file_of};
ghost use Rattle.chart_lists.specs.Lists.{put, overwritten};
ghost use Rattle.chart_lists.specs.Stored.{lists_in};
ghost use Rattle.list_judging.specs.FromLists.{chart_from};
ghost use Rattle.writer.specs.Bytes.{number_bytes, front_bytes, Writable};
ghost use Rattle.writer.specs.Writing.{write_into, write_answer};

mod fields;
mod records;

use crate::fields::{put_byte, put_pair, put_quad, put_triple};
use crate::records::write_records;
use chart_lists::{ChartLists, Header};
use refusal::Refusal;

// The first n accepting locations.
fn put_accepting(out: &mut [u8], accepting: &[u16], n: u16)
    requires { (n ≤ length accepting.now) × (2 * n ≤ length out.old) }
    ensures { out.new ≡ put (number_bytes 2 accepting.now n) out.old }
{
    for i in 0..n as usize {
        put_pair(&mut out[2 * i..], accepting[i]);
    }
}

// Version, length of what follows, and the header up to the accepting locations.
fn put_front(out: &mut [u8], size: u32, header: Header)
    requires { 12 ≤ length out.old }
    ensures { out.new ≡ put (front_bytes size header) out.old }
{
    put_byte(out, header.version);
    put_quad(&mut out[1..], size);
    put_triple(
        &mut out[5..],
        header.locations,
        header.initial,
        header.timers,
    );
    put_pair(&mut out[10..], header.accepting);
}

// The file of a chart that was judged; n is its length.
fn write_file<'a>(out: &mut [u8], n: usize, header: Header, lists: ChartLists<'a>)
    requires { Writable header (lists_in lists) n (length out.old) }
    ensures { out.new ≡ overwritten file_of (chart_from header (lists_in lists.entry)) out.old }
{
    put_front(out, (n - 5) as u32, header);
    put_accepting(&mut out[12..], lists.accepting, header.accepting);
    let at = 12 + 2 * (header.accepting as usize);
    put_pair(&mut out[at..], header.transitions);
    let after = at + 2;
    write_records(&mut out[after..], header, lists);
}

// Judges all of the chart, then the room, and only then writes its file over the front of the buffer: the file's length.
pub fn write<'a>(header: Header, lists: ChartLists<'a>, out: &mut [u8]) -> Result<usize, Refusal>
    ensures answer { answer_as result ≡ write_answer (length out.old) header (lists_in lists.entry) }
    ensures lent { out.new
        ≡ overwritten file_of (write_into (length out.old) header (lists_in lists.entry)) out.old }
{
    let n = list_judging::judge(header, lists)?;
    if out.len() < n {
        return Err(refusal::NO_ROOM);
    }
    write_file(out, n, header, lists);
    Ok(n)
}
