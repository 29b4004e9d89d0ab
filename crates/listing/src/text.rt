// Words and numbers over the front of a lent part, and how many bytes they are.
ghost use Rattle.std.specs.Prelude.{◌++◌, ◌+◌, ◌≤◌, length};
ghost use Rattle.listing.specs.Text.{decimal};
ghost use Rattle.listing.specs.PutBytes.{PutBytes};

// A number in decimal.
// stays: `write!` is no plainer: it needs a writer of our own over the buffer, and each line would have to rule out its error at a full buffer.
fn put_decimal(out: &mut [u8], n: u64) -> usize
    requires { length (decimal n) ≤ length out.old }
    ensures { PutBytes (decimal n) out.old out.new result }
{
    if n < 10 {
        out[0] = 48 + n as u8;
        return 1;
    }
    let at = put_decimal(out, n / 10);
    out[at] = 48 + (n % 10) as u8;
    at + 1
}

// A word.
fn put_word(out: &mut [u8], word: &[u8]) -> usize
    requires { length word.now ≤ length out.old }
    ensures { PutBytes word.now out.old out.new result }
{
    let n = word.len();
    out[..n].copy_from_slice(word);
    n
}

// A word and then a number.
pub fn put_number(out: &mut [u8], word: &[u8], n: u64) -> usize
    requires { length word.now + length (decimal n) ≤ length out.old }
    ensures { PutBytes (word.now ++ decimal n) out.old out.new result }
{
    let at = put_word(out, word);
    at + put_decimal(&mut out[at..], n)
}
