// The parts of a list that holds a part for each head, one after another. What reaches beyond the list is cut at its end.
ghost use Rattle.std.specs.Prelude.{◌≡◌, ◌+◌, ◌≤◌, ◌<◌, min};
ghost use Rattle.controller_model.specs.Parts.{offset, part_of};

use controller_model::MOST_HEADS;

// The end of a part of that length which begins at `at`, in a list of so many entries.
pub fn end_of(entries: usize, at: usize, length: u64) -> usize
    requires { at ≤ entries }
    ensures { result ≡ min (at + length) entries }
{
    at + length.min((entries - at) as u64) as usize
}

// The beginning of part h, in a list of so many entries.
pub fn begin_of(entries: usize, lengths: [u64; MOST_HEADS], h: usize) -> usize
    requires { h ≤ 8 }
    ensures { result ≡ min (offset lengths h) entries }
{
    let mut at = 0;
    for g in 0..h {
        at = end_of(entries, at, lengths[g]);
    }
    at
}

// Part h of a list.
pub fn part_of<'a, T: Copy>(list: &'a [T], lengths: [u64; MOST_HEADS], h: usize) -> &'a [T]
    requires { h < 8 }
    ensures { result.now ≡ part_of lengths h list.now }
{
    let begin = begin_of(list.len(), lengths, h);
    let end = end_of(list.len(), begin, lengths[h]);
    &list[begin..end]
}
