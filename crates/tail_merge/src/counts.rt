// How much is removed.

ghost use Rattle.std.specs.Prelude.{◌≡◌};
ghost use Rattle.psabi_sym.specs.Indexed.{IndexedSection};
ghost use Rattle.psabi_sym.specs.Inputs.{ParsedInputs, parsed};
ghost use Rattle.tail_merge.specs.Merged.{byte_count, removed_in, tail_count};
ghost use Rattle.tail_merge.specs.MovedTails.{AreAllMoved, AreMovedTails, tables_of};
ghost use Rattle.tail_merge.specs.Tails.{saved_bytes};

use crate::moved_tail::MovedTail;
use block_cut::cut::Cut;

/// How many tails are removed, and how many bytes of code fewer there are.
#[derive(Clone, Copy)]
pub struct RemovedCounts {
    pub tails: u32,
    pub bytes: u32,
}

/// How many bytes the tails of a section's table save.
pub(crate) fn saved_by_all(table: &[MovedTail]) -> u32
    ensures { (inputs : ParsedInputs) (l : IndexedSection) → AreMovedTails inputs l table.now
        → result ≡ saved_bytes (removed_in inputs l) }
{
    match table.len() {
        0 => 0,
        n => table[n - 1].saved,
    }
}

/// How much is removed of all sections, by their tables, in time linear in the sections.
pub fn removed_counts(cut: &Cut, tables: &[Vec<MovedTail>]) -> RemovedCounts
    requires { AreAllMoved (parsed cut.now) (tables_of tables.now) }
    ensures tails { result.tails ≡ tail_count (parsed cut.now) }
    ensures bytes { result.bytes ≡ byte_count (parsed cut.now) }
{
    cut.recall_invariant();
    let mut counts = RemovedCounts { tails: 0, bytes: 0 };
    for k in 0..cut.objects().section_count() {
        let table = &tables[k as usize];
        counts.tails += table.len() as u32;
        counts.bytes += saved_by_all(table);
    }
    counts
}
