// The relocations of a section, as they become.

ghost use Rattle.std.specs.Prelude.{◌≡◌, ◌≤◌, ℕ, if◌then◌else◌, pos, ◌+ℤ◌, ◌-ℤ◌, ◌≤ℤ◌, IfOk};
ghost use Rattle.psabi_reloc.specs.Kinds.{kind_of};
ghost use Rattle.psabi_sym.specs.Inputs.{parsed};
ghost use Rattle.block_cut.specs.Items.{target_of};
ghost use Rattle.tail_merge.specs.Merged.{addend_to, is_align_kind, merged_relocs, removed_at};
ghost use Rattle.tail_merge.specs.MovedTails.{AreAllMoved, AreMovedAt, tables_of};
ghost use Rattle.tail_merge.specs.Tails.{merged_offset, moved_down};

use crate::moved_tail::{MovedTail, merged_offset, moved_down};
use crate::tail_tables::table_at;
use block_cut::cut::Cut;
use elf32_read::reloc::Reloc;
use object_passes::relocs::asks;
use psabi_reloc::kind::RelocKind;
use psabi_sym::section_ref::SectionRef;
use psabi_sym::target::Target;
use std::alloc::{AllocError, Global};
use zc_base::place::Place;

// The value of a symbol that leads to an offset by an addend.
fn value_from(offset: u32, addend: i32) -> u32
    requires low { pos 0 ≤ℤ (pos offset -ℤ addend) }
    requires high { (pos offset -ℤ addend) ≤ℤ pos 0x40_0000 }
    ensures { pos result +ℤ addend ≡ pos offset }
{
    (i64::from(offset) - i64::from(addend)) as u32
}

/// The distance from an offset to another.
fn distance(from: u32, to: u32) -> i32
    requires from { from ≤ 0x40_0004 }
    requires to { to ≤ 0x40_0004 }
    ensures { result ≡ pos to -ℤ pos from }
{
    to as i32 - from as i32
}

// The addend with which the symbol that leads to a place of code by the given one leads to where the place is found.
fn addend_to_place(tails: &[MovedTail], cut: &Cut, addend: i32, to: Place) -> i32
    requires tails { AreMovedAt (parsed cut.now) to.object to.section tails.now }
    requires symbol { (value : ℕ) × ((pos value +ℤ addend ≡ pos to.offset) × (value ≤ 0x40_0000)) }
    requires place { to.offset ≤ 0x40_0000 }
    ensures { (value : ℕ) → pos value +ℤ addend ≡ pos to.offset
        → result ≡ pos (merged_offset (removed_at (parsed cut.now) to.object to.section) to.offset)
        -ℤ pos (moved_down (removed_at (parsed cut.now) to.object to.section) value) }
{
    let value = moved_down(tails, value_from(to.offset, addend));
    distance(value, merged_offset(tails, cut, to))
}

// Whether a relocation is one of padding.
fn is_align_kind(kind: Option<RelocKind>) -> bool
    ensures { result ≡ is_align_kind kind }
{
    matches!(kind, Some(RelocKind::Align))
}

// The new addend of a relocation of an object: that of padding stays.
fn merged_addend(cut: &Cut, tables: &[Vec<MovedTail>], object: u16, reloc: Reloc) -> i32
    requires { AreAllMoved (parsed cut.now) (tables_of tables.now) }
    ensures { result ≡ (if is_align_kind (kind_of reloc.kind) then reloc.addend
        else addend_to (parsed cut.now) object reloc (target_of (parsed cut.now) object reloc)) }
{
    // The symbols of objects without a fault stand within their sections.
    cut.recall_invariant();
    if is_align_kind(RelocKind::of(reloc.kind)) {
        return reloc.addend;
    }
    match cut.objects().resolve(object, reloc.symbol, reloc.addend) {
        Target::Code(to) => {
            let tails = table_at(cut.objects(), tables, to.object, to.section);
            addend_to_place(tails, cut, reloc.addend, to)
        }
        Target::Number(_) | Target::Absent(_) | Target::Nowhere => reloc.addend,
    }
}

/// The relocations of a section that ask for something, as they become, in order. Each takes logarithmic time.
pub fn merged_relocs(
    alloc: Global,
    cut: &Cut,
    tables: &[Vec<MovedTail>],
    section: &SectionRef,
) -> Result<Vec<Reloc>, AllocError>
    requires { AreAllMoved (parsed cut.now) (tables_of tables.now) }
    ensures { IfOk result (λ relocs. relocs.items ≡ merged_relocs (parsed cut.now) section.now) }
{
    let tails = table_at(cut.objects(), tables, section.object(), section.index());
    let mut relocs = Vec::new(alloc);
    for k in 0..section.reloc_count() {
        let reloc = section.reloc(k);
        if asks(reloc) {
            relocs.push(Reloc {
                offset: moved_down(tails, reloc.offset),
                addend: merged_addend(cut, tables, section.object(), reloc),
                ..reloc
            })?;
        }
    }
    Ok(relocs)
}
