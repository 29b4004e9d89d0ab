// Numbers of one, two and four bytes, the highest byte first, at the front of what is lent.
ghost use Rattle.std.specs.Prelude.{◌≡◌, ◌≤◌, ◌<◌, ◌^◌, length};
ghost use Rattle.model.specs.Version.{width_of};
ghost use Rattle.file_format.specs.Parse.{digits};
ghost use Rattle.chart_lists.specs.Lists.{put};
ghost use Rattle.writer.specs.Bytes.{triple_bytes};

// stays: one function for each width. A generic one takes the bytes and not the number: each call would say how they come about, and its proof too.
pub fn put_byte(out: &mut [u8], v: u8)
    requires { 1 ≤ length out.old }
    ensures { out.new ≡ put (digits 1 v) out.old }
{
    out[0] = v;
}

pub fn put_pair(out: &mut [u8], v: u16)
    requires { 2 ≤ length out.old }
    ensures { out.new ≡ put (digits 2 v) out.old }
{
    out[..2].copy_from_slice(&v.to_be_bytes());
}

pub fn put_quad(out: &mut [u8], v: u32)
    requires { 4 ≤ length out.old }
    ensures { out.new ≡ put (digits 4 v) out.old }
{
    out[..4].copy_from_slice(&v.to_be_bytes());
}

// A constant, in as many bytes as the version gives it. It fits them, so that nothing is cut.
pub fn put_constant(out: &mut [u8], version: u8, v: u32)
    requires { (width_of version ≤ length out.old) × (v < 256 ^ width_of version) }
    ensures { out.new ≡ put (digits (width_of version) v) out.old }
{
    if file_format::width_of(version) == 2 {
        put_pair(out, v as u16);
    } else {
        put_quad(out, v);
    }
}

// Two numbers of two bytes and one of one: the ends and the event of a record, or what stands first in the header.
pub fn put_triple(out: &mut [u8], a: u16, b: u16, d: u8)
    requires { 5 ≤ length out.old }
    ensures { out.new ≡ put (triple_bytes a b d) out.old }
{
    put_pair(out, a);
    put_pair(&mut out[2..], b);
    put_byte(&mut out[4..], d);
}
