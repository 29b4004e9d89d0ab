// Parts of the lines that are printed. Of long lists the first entries and the last are shown, of long files the last 8 bytes.
use crate::input::at;
use refusal::Refusal;

pub fn text(s: &[u8]) {
    io::write_all(1, s);
}

pub fn end() {
    text(b"\n");
}

pub fn item(label: &[u8], n: u64) {
    text(label);
    io::print_decimal(1, n);
}

// The line of a refusal, with how many entries of the lent memory changed.
pub fn refusal(r: Refusal, changed: usize) {
    item(b"refused ", u64::from(r.reason.number()));
    item(b" ", r.place);
    text(b" ");
    changes(changed);
}

// How many entries of lent memory are not as they were, at the end of a line.
pub fn changes(n: usize) {
    item(b"changed ", n as u64);
    end();
}

// Whether the i-th of n entries is shown: one of so many first ones, or the last.
pub fn is_shown(i: usize, n: usize, first: usize) -> bool {
    i < first || n <= i.wrapping_add(1)
}

// An entry, if it is shown.
pub fn entry(x: u64, shown: bool) {
    if shown {
        item(b" ", x);
    }
}

// The line of a file of n bytes at the front of a lent buffer: its length, its bytes, and the byte after it, if there is one.
pub fn file(label: &[u8], out: &[u8], n: usize) {
    item(label, n as u64);
    text(b" ");
    bytes(out, if n <= 64 { 0 } else { n - 8 }, n);
    text(b" next ");
    if n < out.len() {
        bytes(out, n, n.wrapping_add(1));
    } else {
        text(b"--");
    }
    end();
}

fn bytes(out: &[u8], from: usize, to: usize) {
    for i in from..to {
        io::print_hex(1, at(out, i), 2);
    }
}
