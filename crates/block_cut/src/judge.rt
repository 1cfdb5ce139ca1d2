// The first fault of relocations.

ghost use Rattle.std.specs.Prelude.{◌≡◌, map};
ghost use Rattle.psabi_sym.specs.Faults.{first_some};
ghost use Rattle.psabi_sym.specs.Inputs.{parsed};
ghost use Rattle.block_cut.specs.Invariants.CodeTables.{AreCodeTables};
ghost use Rattle.block_cut.specs.Faults.{is_bad_target};
ghost use Rattle.block_cut.specs.Resolved.{resolved_fault};

use crate::code_tables::CodeTables;
use crate::kinds::is_transfer;
use crate::resolved_reloc::{RelocFault, ResolvedReloc};
use elf32_read::fault::Fault;
use psabi_sym::objects::Objects;
use psabi_sym::target::Target;

// Whether a target is wrong: a place that is neither an item's start nor a section's end, a number that an instruction
// would go to, or nowhere.
fn is_bad_target(objects: &Objects, tables: &CodeTables, transfers: bool, target: Target) -> bool
    requires { AreCodeTables (parsed objects.now) tables.now }
    ensures { result ≡ is_bad_target (parsed objects.now).objects transfers target }
{
    match target {
        Target::Code(p) => !tables.has_target(objects, p),
        Target::Number(_) => transfers,
        Target::Absent(_) => false,
        Target::Nowhere => true,
    }
}

// The first fault of a relocation of a section, by its index.
fn reloc_fault(
    objects: &Objects,
    tables: &CodeTables,
    section: u16,
    reloc: &ResolvedReloc,
) -> Option<Fault>
    requires { AreCodeTables (parsed objects.now) tables.now }
    ensures { result ≡ resolved_fault (parsed objects.now).objects section reloc.now }
{
    let at = reloc.offset;
    match reloc.fault {
        Some(RelocFault::Kind) => Some(Fault::RelocKind { section, at }),
        Some(RelocFault::Place) => Some(Fault::RelocPlace { section, at }),
        Some(RelocFault::Pair) => Some(Fault::LoPair { section, at }),
        None => {
            if is_bad_target(objects, tables, is_transfer(reloc.kind), reloc.target) {
                return Some(Fault::BadTarget { section, at });
            }
            None
        }
    }
}

/// The first fault of the relocations of a section, by its index. It looks at each relocation once.
pub fn section_fault(
    objects: &Objects,
    tables: &CodeTables,
    section: u16,
    relocs: &[ResolvedReloc],
) -> Option<Fault>
    requires { AreCodeTables (parsed objects.now) tables.now }
    ensures { result ≡ first_some (map (resolved_fault (parsed objects.now).objects section) relocs.now) }
{
    for reloc in relocs {
        if let Some(fault) = reloc_fault(objects, tables, section, reloc) {
            return Some(fault);
        }
    }
    None
}
