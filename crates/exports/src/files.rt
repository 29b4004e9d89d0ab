// The reader and the writer as C sees them: the nine lists of a chart are a slice each.
ghost use Rattle.std.specs.Prelude.{◌≡◌, length};
ghost use Rattle.file_format.specs.File.{file_of};
ghost use Rattle.chart_lists.specs.Lists.{overwritten};
ghost use Rattle.chart_lists.specs.Lent.{at_entry, mut_at_entry, at_exit};
ghost use Rattle.reader.specs.Reading.{read_into, read_answer, lists_after};
ghost use Rattle.writer.specs.Writing.{write_into, write_answer};
ghost use Rattle.exports.specs.Exported.{reading_of, writing_of, header_with, IsReading, IsWriting};

use chart_lists::{ChartLists, Header};
use refusal::Refusal;

// A refusal's number and place, or 0 and 0 with the chart's header: its version, numbers of locations, timers, accepting locations and transitions,
// and its initial location.
#[repr(C)]
#[derive(Clone, Copy)]
pub struct chart_reading {
    pub number: u64,
    pub place: u64,
    pub version: u64,
    pub locations: u64,
    pub initial: u64,
    pub timers: u64,
    pub accepting: u64,
    pub transitions: u64,
}

// A refusal's number and place, or 0 and 0 with the file's length.
#[repr(C)]
#[derive(Clone, Copy)]
pub struct chart_writing {
    pub number: u64,
    pub place: u64,
    pub length: u64,
}

impl From<Result<Header, Refusal>> for chart_reading {
    ghost from_gives = { IsReading };

    fn from(answer: Result<Header, Refusal>) -> chart_reading {
        match answer {
            Ok(a) => chart_reading {
                number: 0,
                place: 0,
                version: u64::from(a.version),
                locations: u64::from(a.locations),
                initial: u64::from(a.initial),
                timers: u64::from(a.timers),
                accepting: u64::from(a.accepting),
                transitions: u64::from(a.transitions),
            },
            Err(f) => chart_reading {
                number: u64::from(f.reason.number()),
                place: f.place,
                version: 0,
                locations: 0,
                initial: 0,
                timers: 0,
                accepting: 0,
                transitions: 0,
            },
        }
    }
}

// The chart of a file in the lent lists, over their fronts.
// stays: C hands each list over as a pointer and a length (include/chart.h).
#[unsafe(no_mangle)]
pub extern "C" fn chart_read(
    file: &[u8],
    accepting: &mut [u16],
    sources: &mut [u16],
    targets: &mut [u16],
    events: &mut [u8],
    starts: &mut [u64],
    test_counts: &mut [u8],
    timers: &mut [u8],
    codes: &mut [u8],
    constants: &mut [u32],
) -> chart_reading
    ensures answer { result
        ≡ reading_of (read_answer (mut_at_entry accepting sources targets events starts test_counts timers codes constants) file.now) }
    ensures lists { at_exit accepting sources targets events starts test_counts timers codes constants
        ≡ lists_after (read_into (mut_at_entry accepting sources targets events starts test_counts timers codes constants) file.now)
        (mut_at_entry accepting sources targets events starts test_counts timers codes constants) }
{
    chart_reading::from(reader::read_chart(
        file,
        accepting,
        sources,
        targets,
        events,
        starts,
        test_counts,
        timers,
        codes,
        constants,
    ))
}

impl From<Result<usize, Refusal>> for chart_writing {
    ghost from_gives = { IsWriting };

    fn from(answer: Result<usize, Refusal>) -> chart_writing {
        match answer {
            Ok(n) => chart_writing {
                number: 0,
                place: 0,
                length: n as u64,
            },
            Err(f) => chart_writing {
                number: u64::from(f.reason.number()),
                place: f.place,
                length: 0,
            },
        }
    }
}

// The file of the chart that stands in the lists, over the front of the buffer.
// stays: C hands each list over as a pointer and a length (include/chart.h).
#[unsafe(no_mangle)]
pub extern "C" fn chart_write<'a>(
    version: u8,
    locations: u16,
    initial: u16,
    timer_count: u8,
    accepting_count: u16,
    transition_count: u16,
    accepting: &'a [u16],
    sources: &'a [u16],
    targets: &'a [u16],
    events: &'a [u8],
    starts: &'a [u64],
    test_counts: &'a [u8],
    timers: &'a [u8],
    codes: &'a [u8],
    constants: &'a [u32],
    out: &mut [u8],
) -> chart_writing
    ensures answer { result ≡ writing_of (write_answer (length out.old)
        (header_with version locations initial timer_count accepting_count transition_count)
        (at_entry accepting sources targets events starts test_counts timers codes constants)) }
    ensures lent { out.new ≡ overwritten file_of
        (write_into (length out.old)
        (header_with version locations initial timer_count accepting_count transition_count)
        (at_entry accepting sources targets events starts test_counts timers codes constants))
        out.old }
{
    let header = Header {
        version,
        locations,
        initial,
        timers: timer_count,
        accepting: accepting_count,
        transitions: transition_count,
    };
    chart_writing::from(writer::write(
        header,
        ChartLists {
            accepting,
            sources,
            targets,
            events,
            starts,
            test_counts,
            timers,
            codes,
            constants,
        },
        out,
    ))
}
