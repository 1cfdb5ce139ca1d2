// The tables of all sections' removed tails.

ghost use Rattle.std.specs.Prelude.{◌≡◌, ◌<◌, ◌≤◌, ◌+◌, ◌-◌, IfOk, Some, length, slice_get};
ghost use Rattle.psabi_sym.specs.Indexed.{IndexedSection, all_sections};
ghost use Rattle.psabi_sym.specs.Inputs.{parsed};
ghost use Rattle.tail_merge.specs.MovedTails.{AreAllMoved, AreMovedAt, AreMovedTails, entry_by, offset_at, tables_of};
ghost use Rattle.tail_merge.specs.RemovedTails.{AreAllRemoved, AreRemovedFrom, lists_of};

use crate::moved_tail::MovedTail;
use crate::removed_tail::RemovedTail;
use block_cut::code_place::CodePlace;
use block_cut::cut::Cut;
use psabi_sym::objects::Objects;
use std::alloc::{AllocError, Global};

// The offset of the place with a number.
fn offset_at(places: &[CodePlace], k: u32) -> u32
    requires { k < length places.now }
    ensures { result ≡ offset_at places.now k }
{
    places[k as usize].offset
}

// The entry of a tail, by how many bytes fewer stand before it.
fn entry(places: &[CodePlace], tail: RemovedTail, saved: u32) -> MovedTail
    requires end { tail.end + 1 < length places.now }
    requires few { tail.end < 0x40_0000 }
    requires host { tail.host < tail.end }
    requires some { 0 < tail.count }
    requires count { tail.count ≤ tail.host + 1 }
    requires long { offset_at places.now (tail.end + 1 - tail.count) + 4 < offset_at places.now (tail.end + 1) }
    requires saved { saved ≤ offset_at places.now (tail.end + 1 - tail.count) }
    ensures { result ≡ entry_by (offset_at places.now) saved tail }
{
    let start = offset_at(places, tail.end - (tail.count - 1));
    let stop = offset_at(places, tail.end + 1);
    let host = offset_at(places, tail.host - (tail.count - 1));
    let jump = start - saved;
    MovedTail {
        tail,
        start,
        stop,
        host,
        jump,
        after: jump + 4,
        saved: saved + (stop - start - 4),
    }
}

// The table of the tails that are removed from a section, by the section's number among all.
fn section_table(
    alloc: Global,
    cut: &Cut,
    section: u32,
    list: &[RemovedTail],
) -> Result<Vec<MovedTail>, AllocError>
    requires section { section < length (all_sections (parsed cut.now).objects) }
    requires removed { (l : IndexedSection) → slice_get (all_sections (parsed cut.now).objects) section ≡ Some l
        → AreRemovedFrom (parsed cut.now) l list.now }
    ensures { IfOk result (λ table. (l : IndexedSection)
        → slice_get (all_sections (parsed cut.now).objects) section ≡ Some l → AreMovedTails (parsed cut.now) l table.items) }
{
    cut.recall_invariant();
    let places = cut.places(section);
    let mut table = Vec::new(alloc);
    let mut saved = 0;
    for tail in list {
        let entry = entry(places, *tail, saved);
        saved = entry.saved;
        table.push(entry)?;
    }
    Ok(table)
}

/// The tables of all sections' removed tails, in time linear in these.
pub fn all_tables(
    alloc: Global,
    cut: &Cut,
    lists: &[Vec<RemovedTail>],
) -> Result<Vec<Vec<MovedTail>>, AllocError>
    requires { AreAllRemoved (parsed cut.now) (lists_of lists.now) }
    ensures { IfOk result (λ tables. AreAllMoved (parsed cut.now) (tables_of tables.items)) }
{
    let mut tables = Vec::new(alloc);
    for k in 0..cut.objects().section_count() {
        tables.push(section_table(alloc, cut, k, &lists[k as usize])?)?;
    }
    Ok(tables)
}

/// The table of a section, by its object's index and its own; an empty one if there is no such section.
pub fn table_at<'a>(
    objects: &Objects,
    tables: &'a [Vec<MovedTail>],
    object: u16,
    section: u16,
) -> &'a [MovedTail]
    requires { AreAllMoved (parsed objects.now) (tables_of tables.now) }
    ensures { AreMovedAt (parsed objects.now) object section result.now }
{
    match objects.section_number(object, section) {
        None => &[],
        Some(k) => &tables[k as usize],
    }
}
