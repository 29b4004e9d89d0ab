// Lists and buffers to lend, filled with bytes 170, and what has become of them.
use crate::input::{Entry, count};

// The length of the longest buffer to lend.
pub const BUFFER: usize = 65536;

// The front of a list, as long as the k-th of the lengths says.
pub fn lent<'a, T: Entry>(list: &'a mut [T], lengths: &[u8], k: usize) -> &'a mut [T] {
    let n = count(lengths, k, list.len());
    &mut list[0..n]
}

// How many entries from a position on are not as they were.
pub fn changed<T: Entry>(list: &[T], from: usize) -> usize {
    let mut sum: usize = 0;
    for i in from..list.len() {
        sum = sum.wrapping_add(usize::from(list[i].wide() != T::FILLED.wide()));
    }
    sum
}
