// Writes the file of a chart that is rewritten by the cells of a numbering.
ghost use Rattle.std.specs.Prelude.{◌≡◌, length};
ghost use Rattle.model.specs.Answer.{returned, then};
ghost use Rattle.model.specs.Chart.{Chart};
ghost use Rattle.model.specs.Valid.{Storable};
ghost use Rattle.model.specs.Spare.{spare_cleared};
ghost use Rattle.model.specs.Places.{ReachedIfAsked};
ghost use Rattle.model.specs.Rewrite.{Numbering, rewritten_by};
ghost use Rattle.refusal.specs.Refused.{answer_as};
ghost use Rattle.file_format.specs.File.{file_of};
ghost use Rattle.chart_lists.specs.Lists.{overwritten};
ghost use Rattle.chart_lists.specs.Header.{header_of};
ghost use Rattle.chart_lists.specs.Holds.{Holds};
ghost use Rattle.chart_lists.specs.Stored.{lists_in, stored};
ghost use Rattle.renaming.specs.Renaming.{CellsOf};
ghost use Rattle.rewriting.specs.Parts.{into_room};

use allocation::MOST_CELLS;
use chart_lists::{ChartLists, ChartStore, Header, MOST_TESTS, MOST_TRANSITIONS};
use refusal::Refusal;

// Renames the starts and the timers of tests by the cells of a numbering and writes the rewritten chart's file.
fn write_renamed<'a>(
    header: Header,
    lists: ChartLists<'a>,
    used: u8,
    cells: &'a [u16; MOST_CELLS],
    out: &mut [u8],
) -> Result<usize, Refusal>
    requires { (c : Chart) × (N : Numbering) × (header ≡ header_of c) × Holds c (lists_in lists) × CellsOf c N cells.now }
    ensures answer { ((c : Chart) (N : Numbering) → header ≡ header_of c → Holds c (lists_in lists.entry) → CellsOf c N cells.now
        → Storable (rewritten_by N c) → used ≡ N.used
        → answer_as result ≡ then (into_room (length out.old) (rewritten_by N c)) (λ d. returned (length (file_of d)))) }
    ensures lent { ((c : Chart) (N : Numbering) → header ≡ header_of c → Holds c (lists_in lists.entry) → CellsOf c N cells.now
        → Storable (rewritten_by N c) → used ≡ N.used
        → out.new ≡ overwritten file_of (into_room (length out.old) (rewritten_by N c)) out.old) }
{
    let mut starts = [0u64; MOST_TRANSITIONS];
    renaming::rename_starts(header, lists.targets, lists.starts, cells, &mut starts);
    let mut timers = [0u8; MOST_TESTS];
    renaming::rename_tests(
        header,
        lists.sources,
        lists.test_counts,
        lists.timers,
        cells,
        &mut timers,
    );
    let board = Header {
        timers: used,
        ..header
    };
    let renamed = ChartLists {
        starts: &starts,
        timers: &timers,
        ..lists
    };
    writer::write(board, renamed, out)
}

// The same of a chart whose spare transitions lose their tests and starts first.
// Not inlined: its arrays would stand in the caller's frame while the board numbers are found, 10 KB of the stack on the deepest path.
#[inline(never)]
pub fn write_cleared<'a>(
    header: Header,
    store: &mut ChartStore,
    used: u8,
    cells: &'a [u16; MOST_CELLS],
    out: &mut [u8],
) -> Result<usize, Refusal>
    requires { (c : Chart) × (N : Numbering) × (header ≡ header_of c) × ReachedIfAsked c × Holds c (stored store.old)
        × CellsOf (spare_cleared c) N cells.now }
    ensures answer { ((c : Chart) (N : Numbering) → header ≡ header_of c → ReachedIfAsked c → Holds c (stored store.old)
        → CellsOf (spare_cleared c) N cells.now → Storable (rewritten_by N (spare_cleared c)) → used ≡ N.used
        → answer_as result ≡ then (into_room (length out.old) (rewritten_by N (spare_cleared c))) (λ d. returned (length (file_of d)))) }
    ensures lent { ((c : Chart) (N : Numbering) → header ≡ header_of c → ReachedIfAsked c → Holds c (stored store.old)
        → CellsOf (spare_cleared c) N cells.now → Storable (rewritten_by N (spare_cleared c)) → used ≡ N.used
        → out.new ≡ overwritten file_of (into_room (length out.old) (rewritten_by N (spare_cleared c))) out.old) }
{
    spare::clear_spare(
        header,
        &store.sources,
        &store.targets,
        &mut store.starts,
        &mut store.test_counts,
        &mut store.timers,
        &mut store.codes,
        &mut store.constants,
    );
    write_renamed(header, store.lists(), used, cells, out)
}
