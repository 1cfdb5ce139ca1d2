// Relocations that ask for something: a pass writes no others.

ghost use Rattle.std.specs.Prelude.{◌≡◌, filter, length};
ghost use Rattle.block_cut.specs.Resolved.{asks};

use elf32_read::reloc::Reloc;
use psabi_reloc::kind::RelocKind;
use psabi_sym::section_ref::SectionRef;

/// Whether a relocation asks for something.
pub fn asks(reloc: Reloc) -> bool
    ensures { result ≡ asks reloc }
{
    RelocKind::of(reloc.kind) != Some(RelocKind::Ignored)
}

/// The number of a section's relocations that ask for something.
pub fn asking_count(section: &SectionRef) -> u32
    ensures { result ≡ length (filter asks section.now.section.relocs) }
{
    let mut count = 0;
    for k in 0..section.reloc_count() {
        if asks(section.reloc(k)) {
            count += 1;
        }
    }
    count
}
