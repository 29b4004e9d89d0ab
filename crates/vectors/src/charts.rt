// The reader and the writer: a chart from a file into lent lists and into a file again, and from the lists of a vector into a file.
use crate::input::*;
use crate::lent::*;
use crate::show::*;
use chart_lists::*;
use refusal::Refusal;

// Room for the lists of any chart, filled.
const ROOM: ChartStore = ChartStore {
    accepting: [u16::FILLED; MOST_LOCATIONS],
    sources: [u16::FILLED; MOST_TRANSITIONS],
    targets: [u16::FILLED; MOST_TRANSITIONS],
    events: [u8::FILLED; MOST_TRANSITIONS],
    starts: [u64::FILLED; MOST_TRANSITIONS],
    test_counts: [u8::FILLED; MOST_TRANSITIONS],
    timers: [u8::FILLED; MOST_TESTS],
    codes: [u8::FILLED; MOST_TESTS],
    constants: [u32::FILLED; MOST_TESTS],
};

// Reads a file into lists of the given lengths.
pub fn read(file: &[u8], lengths: &[u8]) {
    let mut lists = ROOM;
    let answer = reader::read_chart(
        file,
        lent(&mut lists.accepting, lengths, 0),
        lent(&mut lists.sources, lengths, 1),
        lent(&mut lists.targets, lengths, 2),
        lent(&mut lists.events, lengths, 3),
        lent(&mut lists.starts, lengths, 4),
        lent(&mut lists.test_counts, lengths, 5),
        lent(&mut lists.timers, lengths, 6),
        lent(&mut lists.codes, lengths, 7),
        lent(&mut lists.constants, lengths, 8),
    );
    show_read(answer, lists);
}

// Shows a refusal, or a chart and the file that is written of it.
fn show_read(answer: Result<Header, Refusal>, lists: ChartStore) {
    match answer {
        Err(r) => refusal(r, all_changed(lists, 0, 0, 0)),
        Ok(header) => {
            show_chart(header, lists);
            write_again(header, lists);
        }
    }
}

// Shows how many entries of given lists are not as if they were lent and left alone, from the given positions on.
pub fn count_changed(vector: &[u8], positions: &[u8]) {
    let mut lists = ROOM;
    put_numbers(field(vector, 2), 0, &mut lists.accepting);
    put_numbers(field(vector, 3), 0, &mut lists.sources);
    put_numbers(field(vector, 4), 0, &mut lists.targets);
    put_bytes(field(vector, 5), &mut lists.events);
    put_numbers(field(vector, 6), 0, &mut lists.starts);
    put_bytes(field(vector, 7), &mut lists.test_counts);
    put_bytes(field(vector, 8), &mut lists.timers);
    put_bytes(field(vector, 9), &mut lists.codes);
    put_numbers(field(vector, 10), 0, &mut lists.constants);
    show_changed(lists, positions);
}

fn show_changed(lists: ChartStore, positions: &[u8]) {
    let a = count(positions, 0, MOST_LOCATIONS);
    let n = count(positions, 1, MOST_TRANSITIONS);
    let g = count(positions, 2, MOST_TESTS);
    changes(all_changed(lists, a, n, g));
}

// How many entries are not as they were: from the a-th on in the list of accepting locations, from the n-th on in those of the transitions, and from
// the g-th on in those of the tests.
fn all_changed(lists: ChartStore, a: usize, n: usize, g: usize) -> usize {
    changed(&lists.accepting, a)
        .wrapping_add(changed(&lists.sources, n))
        .wrapping_add(changed(&lists.targets, n))
        .wrapping_add(changed(&lists.events, n))
        .wrapping_add(changed(&lists.starts, n))
        .wrapping_add(changed(&lists.test_counts, n))
        .wrapping_add(changed(&lists.timers, g))
        .wrapping_add(changed(&lists.codes, g))
        .wrapping_add(changed(&lists.constants, g))
}

fn show_chart(header: Header, lists: ChartStore) {
    let a = header.accepting as usize;
    let n = header.transitions as usize;
    item(b"version ", header.version as u64);
    item(b" locations ", header.locations as u64);
    item(b" initial ", header.initial as u64);
    item(b" timers ", header.timers as u64);
    item(b" accepting ", a as u64);
    entries(&lists.accepting, a);
    item(b" transitions ", n as u64);
    let g = total(&lists.test_counts, n);
    item(b" beyond ", all_changed(lists, a, n, g) as u64);
    end();
    transitions(lists, n);
}

fn entries(list: &[u16], n: usize) {
    for i in 0..n {
        entry(at(list, i), is_shown(i, n, 4));
    }
}

// The number of tests of the first n transitions.
fn total(test_counts: &[u8], n: usize) -> usize {
    let mut sum: usize = 0;
    for i in 0..n {
        sum = sum.wrapping_add(at(test_counts, i) as usize);
    }
    sum
}

fn transitions(lists: ChartStore, n: usize) {
    for i in 0..n {
        if is_shown(i, n, 4) {
            transition(lists, i);
        }
    }
}

// The line of a transition. Its tests begin where those of the one before it end.
fn transition(lists: ChartStore, i: usize) {
    item(b"", at(&lists.sources, i));
    item(b">", at(&lists.targets, i));
    item(b" event ", at(&lists.events, i));
    item(b" starts ", at(&lists.starts, i));
    item(b" tests ", at(&lists.test_counts, i));
    tests(
        lists,
        total(&lists.test_counts, i),
        total(&lists.test_counts, i.wrapping_add(1)),
    );
    end();
}

fn tests(lists: ChartStore, from: usize, to: usize) {
    for i in from..to {
        test(lists, i);
    }
}

fn test(lists: ChartStore, i: usize) {
    item(b" ", at(&lists.timers, i));
    item(b":", at(&lists.codes, i));
    item(b":", at(&lists.constants, i));
}

fn write_again(header: Header, lists: ChartStore) {
    let mut out = [u8::FILLED; BUFFER];
    let answer = writer::write(header, lists.lists(), &mut out);
    show_written(answer, &out);
}

// Writes the nine lists of a vector.
pub fn write(vector: &[u8], values: &[u8]) {
    let mut out = [u8::FILLED; BUFFER];
    write_lent(vector, header(values), lent(&mut out, values, 6));
}

// stays: a vector may have longer lists than a chart, and ChartStore has no room for those.
fn write_lent(vector: &[u8], header: Header, out: &mut [u8]) {
    let mut accepting = [0u16; MOST_TRANSITIONS];
    let mut sources = [0u16; MOST_TRANSITIONS];
    let mut targets = [0u16; MOST_TRANSITIONS];
    let mut starts = [0u64; MOST_TRANSITIONS];
    let mut constants = [0u32; MOST_TRANSITIONS];
    let lists = ChartLists {
        accepting: put_numbers(field(vector, 2), 0, &mut accepting),
        sources: put_numbers(field(vector, 3), 0, &mut sources),
        targets: put_numbers(field(vector, 4), 0, &mut targets),
        events: field(vector, 5),
        starts: put_numbers(field(vector, 6), 0, &mut starts),
        test_counts: field(vector, 7),
        timers: field(vector, 8),
        codes: field(vector, 9),
        constants: put_numbers(field(vector, 10), 0, &mut constants),
    };
    let answer = writer::write(header, lists, out);
    show_written(answer, out);
}

fn header(values: &[u8]) -> Header {
    Header {
        version: u8::low(number(values, 0)),
        locations: u16::low(number(values, 1)),
        initial: u16::low(number(values, 2)),
        timers: u8::low(number(values, 3)),
        accepting: u16::low(number(values, 4)),
        transitions: u16::low(number(values, 5)),
    }
}

fn show_written(answer: Result<usize, Refusal>, out: &[u8]) {
    match answer {
        Err(r) => refusal(r, changed(out, 0)),
        Ok(n) => file(b"written ", out, n),
    }
}
