// The relocations of an object.

ghost use Rattle.std.specs.Prelude.{◌≡◌, ◌≤◌, ◌<◌, ◌+◌, ◌*◌, ◌&&◌, ◌==◌, nat_le, [], false, length, MatchOption};
ghost use Rattle.std.specs.List.{list_any};
ghost use Rattle.elf32_read.specs.Header.{header_of, section_count};
ghost use Rattle.elf32_read.specs.Object.{has_two_relas, is_changed_twice, is_kept_rela};
ghost use Rattle.elf32_read.specs.Parts.{relocs_held, relocs_of};
ghost use Rattle.elf32_read.specs.Relocs.{reloc_at, relocs_in};

use crate::header::{RELA, SectionHeader};
use crate::reloc::Reloc;
use crate::sections::Sections;
use zc_base::fields::u32_at;

/// The size of a relocation's entry in bytes.
pub const RELA_SIZE: u32 = 12;

/// The most sections of an object.
pub const MOST_SECTIONS: usize = 4096;

/// A relocation, by its index in the content of its section.
#[tactic(auto, unfolding(crate::specs::Relocs::reloc_at))]
pub fn reloc(content: &[u8], k: usize) -> Reloc
    requires { 12 * k + 12 ≤ length content.now }
    ensures { result ≡ reloc_at content.now k }
{
    let at = 12 * k;
    let info = u32_at(content, at + 4);
    Reloc {
        offset: u32_at(content, at),
        symbol: info / 256,
        kind: (info % 256) as u8,
        addend: u32_at(content, at + 8).cast_signed(),
    }
}

/// Whether a section is a RELA for a section that is kept.
pub fn is_kept_rela(sections: &Sections, header: &SectionHeader) -> bool
    ensures { result ≡ is_kept_rela sections.now header.now }
{
    header.kind == RELA
        && header.info < sections.count()
        && sections.is_kept(&sections.header(header.info))
}

/// Whether a kept section has two sections with its relocations. It reads each header twice.
pub fn has_two_relas(sections: &Sections) -> bool
    requires { section_count sections.now ≤ 4096 }
    ensures { result ≡ has_two_relas sections.now }
{
    let mut changed = [false; MOST_SECTIONS];
    for i in 0..sections.count() {
        let header = sections.header(i);
        if is_kept_rela(sections, &header) {
            if changed[header.info as usize] {
                return true;
            }
            changed[header.info as usize] = true;
        }
    }
    false
}

/// Whether a relocation in this content has a symbol index that isn't below `count`.
#[tactic(auto, using(crate::proofs::Listed::none_listed_more))]
pub fn has_symbol_from(count: usize, content: &[u8]) -> bool
    ensures { result ≡ list_any (λ r. nat_le count r.symbol) (relocs_in content.now) }
{
    for k in 0..content.len() / RELA_SIZE as usize {
        if count <= reloc(content, k).symbol as usize {
            return true;
        }
    }
    false
}

// Whether the section `rela` holds the relocations of the section with index `section`.
fn changes(sections: &Sections, rela: u32, section: u32) -> bool
    requires { rela < section_count sections.now }
    ensures { let header = header_of sections.now rela in
        result ≡ (header.kind == 4 && header.info == section) }
{
    let header = sections.header(rela);
    header.kind == RELA && header.info == section
}

/// The index of the section with the relocations of a section; `None` if the section is dropped or has
/// no relocations. It looks through all headers.
pub fn rela_for(sections: &Sections, section: u32) -> Option<u32>
    requires within { section < section_count sections.now }
    requires once { is_changed_twice sections.now section ≡ false }
    ensures { MatchOption result
        (relocs_of sections.now section ≡ [])
        (λ rela. (rela < section_count sections.now)
        × (relocs_of sections.now section ≡ relocs_held sections.now (header_of sections.now rela))) }
{
    if !sections.is_kept(&sections.header(section)) {
        return None;
    }
    let mut found = None;
    for i in 0..sections.count() {
        if changes(sections, i, section) {
            found = Some(i);
        }
    }
    found
}
