// The records of the transitions, each in its own stretch of the buffer.
ghost use Rattle.std.specs.Prelude.{◌≡◌, ◌+◌, ◌-◌, ◌*◌, ◌≤◌, ◌<◌, ◌^◌, length};
ghost use Rattle.timer_set.specs.Members.{members};
ghost use Rattle.model.specs.Version.{width_of};
ghost use Rattle.file_format.specs.Parse.{digits, write_all};
ghost use Rattle.chart_lists.specs.Lists.{put, overwritten};
ghost use Rattle.list_judging.specs.FromLists.{transitions_from};
ghost use Rattle.chart_lists.specs.Stored.{lists_in};
ghost use Rattle.writer.specs.Bytes.{test_bytes, tests_bytes, head_bytes, record_bytes, FitFrom, Fit, Room, records};

use crate::fields::{put_byte, put_constant, put_pair, put_triple};
use chart_lists::{ChartLists, Header};
use timer_set::TimerSet;

fn put_test(out: &mut [u8], version: u8, timer: u8, code: u8, constant: u32)
    requires { (2 + width_of version ≤ length out.old) × (constant < 256 ^ width_of version) }
    ensures { out.new ≡ put (test_bytes (width_of version) timer code constant) out.old }
{
    put_byte(out, timer);
    put_byte(&mut out[1..], code);
    put_constant(&mut out[2..], version, constant);
}

// g tests from place k on.
#[tactic(auto, using(model::proofs::Versions::width_most))]
fn put_tests<'a>(out: &mut [u8], version: u8, lists: ChartLists<'a>, k: usize, g: u8)
    requires g_in_bounds { (g ≤ length lists.timers.now - k) × (g ≤ length lists.codes.now - k) × (g ≤ length lists.constants.now - k)
        × ((2 + width_of version) * g ≤ length out.old) }
    requires fit_from { width_of version ≡ 2 → FitFrom 2 lists.constants.now k g }
    ensures { out.new ≡ put (tests_bytes (width_of version) (lists_in lists.entry) k g) out.old }
{
    let size = 2 + file_format::width_of(version) as usize;
    for t in 0..g as usize {
        let here = k + t;
        let constant = lists.constants[here];
        put_test(
            &mut out[size * t..],
            version,
            lists.timers[here],
            lists.codes[here],
            constant,
        );
    }
}

// The timers of a set, rising.
fn put_starts(out: &mut [u8], set: TimerSet)
    requires { length (members set.bits) ≤ length out.old }
    ensures { out.new ≡ put (write_all (digits 1) (members set.bits)) out.old }
{
    let mut at: usize = 0;
    for j in set {
        put_byte(&mut out[at..], j);
        at += 1;
    }
}

// The first eight bytes of the record of a transition with s started timers and g tests.
fn put_head(out: &mut [u8], version: u8, source: u16, target: u16, event: u8, s: u8, g: u8)
    requires { 8 ≤ length out.old }
    ensures { out.new ≡ put (head_bytes (width_of version) source target event s g) out.old }
{
    let width = file_format::width_of(version);
    let length = 7 + (s as u64) + (2 + width) * (g as u64);
    put_pair(out, length as u16);
    put_triple(&mut out[2..], source, target, event);
    put_byte(&mut out[7..], s);
}

// The record of one transition, and how many bytes it has.
#[tactic(auto, using(crate::proofs::TimersLeft::counted, model::proofs::Versions::tests_most, model::proofs::Versions::width_most))]
// stays: the five entries of the transition one by one, since they are read once, for this one call, and `record_bytes` takes them so.
fn write_record<'a>(
    out: &mut [u8],
    version: u8,
    source: u16,
    target: u16,
    event: u8,
    set: TimerSet,
    lists: ChartLists<'a>,
    k: usize,
    g: u8,
) -> usize
    requires g_bound { (g ≤ 8) × (g ≤ length lists.timers.now - k) × (g ≤ length lists.codes.now - k) × (g ≤ length lists.constants.now - k)
        × (9 + length (members set.bits) + (2 + width_of version) * g ≤ length out.old) }
    requires fit_from { width_of version ≡ 2 → FitFrom 2 lists.constants.now k g }
    ensures size { result ≡ 9 + length (members set.bits) + (2 + width_of version) * g }
    ensures written { out.new
        ≡ put (record_bytes (width_of version) source target event set.bits (lists_in lists.entry) k g) out.old }
{
    let s = set.count();
    put_head(out, version, source, target, event, s as u8, g);
    put_starts(&mut out[8..], set);
    let at = 8 + s as usize;
    put_byte(&mut out[at..], g);
    let after = at + 1;
    put_tests(&mut out[after..], version, lists, k, g);
    after + (2 + file_format::width_of(version) as usize) * (g as usize)
}

// The records of all transitions.
pub fn write_records<'a>(out: &mut [u8], header: Header, lists: ChartLists<'a>)
    requires room { Room (records (width_of header.version))
        (transitions_from (lists_in lists) header.locations header.timers 0 0 header.transitions) (length out.old) }
    requires fit { width_of header.version ≡ 2
        → Fit 2 (transitions_from (lists_in lists) header.locations header.timers 0 0 header.transitions) }
    ensures { out.new ≡ overwritten (records (width_of header.version))
        (transitions_from (lists_in lists.entry) header.locations header.timers 0 0 header.transitions)
        out.old }
{
    let mut at: usize = 0;
    let mut k: usize = 0;
    for i in 0..header.transitions as usize {
        let g = lists.test_counts[i];
        at += write_record(
            &mut out[at..],
            header.version,
            lists.sources[i],
            lists.targets[i],
            lists.events[i],
            TimerSet {
                bits: lists.starts[i],
            },
            lists,
            k,
            g,
        );
        k += g as usize;
    }
}
