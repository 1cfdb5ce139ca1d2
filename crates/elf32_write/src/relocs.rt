// Relocations (System V gABI, "Relocation").

ghost use Rattle.std.specs.Prelude.{◌≡◌, ◌^◌, ◌<◌, ◌++◌, All, IfOk, OnOk};
ghost use Rattle.std.specs.List.{flat_map};
ghost use Rattle.elf32_write.specs.Entries.{reloc_bytes};
ghost use Rattle.elf32_write.specs.Ranges.{IsRelocSized};

use crate::fields::push_words;
use elf32_read::reloc::Reloc;
use std::alloc::{AllocError, Global};

// Appends a relocation.
fn push_reloc(out: &mut Vec<u8>, reloc: Reloc) -> Result<(), AllocError>
    requires { reloc.symbol < 2 ^ 24 }
    ensures appended { OnOk result (out.new.items ≡ out.old.items ++ reloc_bytes reloc) }
    // By the types of its numbers.
    ensures sized { IsRelocSized reloc }
{
    let info = 256 * reloc.symbol + u32::from(reloc.kind);
    push_words(out, &[reloc.offset, info, reloc.addend.cast_unsigned()])
}

/// The bytes of relocations, in order.
pub fn reloc_table(alloc: Global, relocs: &[Reloc]) -> Result<Vec<u8>, AllocError>
    requires { All (λ r. r.symbol < 2 ^ 24) relocs.now }
    ensures table { IfOk result (λ table. table.items ≡ flat_map reloc_bytes relocs.now) }
    ensures sized { OnOk result (All IsRelocSized relocs.now) }
{
    let mut table = Vec::new(alloc);
    for reloc in relocs {
        push_reloc(&mut table, *reloc)?;
    }
    Ok(table)
}
