// The counts of the board, written in part.
ghost use Rattle.std.specs.Prelude.{◌≡◌, ◌+◌, ◌≤◌, length};
ghost use Rattle.controller_model.specs.Parts.{written};

// The entries over those of all counts from o on.
pub fn write_counts(all: &mut [u32; 64], o: usize, entries: &[u32])
    requires { o + length entries.now ≤ 64 }
    ensures { all.new ≡ written o entries.now all.old }
{
    all[o..o + entries.len()].copy_from_slice(entries);
}
