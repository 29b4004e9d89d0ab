// Fields and numbers of the input. A number takes 8 bytes, big-endian. Before fields stands a table of them, two numbers for each: where it begins,
// counted from the table's begin, and its length. Every function is total: an entry past the end counts as 0, and no field goes past the end.
ghost use Rattle.std.specs.Prelude.{◌≤◌};

// What lists hold: a number of 1, 2, 4 or 8 bytes.
pub trait Entry: Copy {
    // All bytes are 170, as in memory that is lent.
    const FILLED: Self;

    // The low bytes of a number.
    fn low(number: u64) -> Self;

    fn wide(self) -> u64;
}

impl Entry for u8 {
    const FILLED: u8 = 170;

    fn low(number: u64) -> u8 {
        (number % 256) as u8
    }

    fn wide(self) -> u64 {
        u64::from(self)
    }
}

impl Entry for u16 {
    const FILLED: u16 = 43690;

    fn low(number: u64) -> u16 {
        (number % 65536) as u16
    }

    fn wide(self) -> u64 {
        u64::from(self)
    }
}

impl Entry for u32 {
    const FILLED: u32 = 2863311530;

    fn low(number: u64) -> u32 {
        (number % 4294967296) as u32
    }

    fn wide(self) -> u64 {
        u64::from(self)
    }
}

impl Entry for u64 {
    const FILLED: u64 = 12297829382473034410;

    fn low(number: u64) -> u64 {
        number
    }

    fn wide(self) -> u64 {
        self
    }
}

// An entry of a list.
pub fn at<T: Entry>(list: &[T], i: usize) -> u64 {
    if i < list.len() { list[i].wide() } else { 0 }
}

// The numbers from the i-th on.
pub fn numbers_from<'a>(s: &'a [u8], i: usize) -> &'a [u8] {
    let from = (i << 3).min(s.len());
    &s[from..]
}

// The i-th number.
pub fn number(s: &[u8], i: usize) -> u64 {
    let t = numbers_from(s, i);
    let high = at(t, 0) << 56 | at(t, 1) << 48 | at(t, 2) << 40 | at(t, 3) << 32;
    high | at(t, 4) << 24 | at(t, 5) << 16 | at(t, 6) << 8 | at(t, 7)
}

// The i-th number as a count, at most what there is room for.
pub fn count(s: &[u8], i: usize, most: usize) -> usize
    ensures { result ≤ most }
{
    (number(s, i) as usize).min(most)
}

// The k-th field.
pub fn field<'a>(s: &'a [u8], k: usize) -> &'a [u8] {
    let from = count(s, k << 1, s.len());
    let to = from + count(s, k << 1 | 1, s.len() - from);
    &s[from..to]
}

// Puts the bytes of a field into a list.
pub fn put_bytes(s: &[u8], list: &mut [u8]) {
    let n = s.len().min(list.len());
    list[..n].copy_from_slice(&s[..n]);
}

// Puts the numbers of a field into a list, after so many entries that stay, and answers the front that holds them all.
pub fn put_numbers<'a, T: Entry>(s: &[u8], stay: usize, list: &'a mut [T]) -> &'a mut [T] {
    let n = stay.wrapping_add(s.len() >> 3).min(list.len());
    for i in stay..n {
        list[i] = T::low(number(s, i - stay));
    }
    &mut list[0..n]
}
