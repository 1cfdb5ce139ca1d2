// Whether an object has sections that are never linked.

ghost use Rattle.std.specs.Prelude.{◌≡◌, ◌≤◌};
ghost use Rattle.std.specs.List.{list_any};
ghost use Rattle.elf32_read.specs.Header.{headers_of, section_count};
ghost use Rattle.elf32_read.specs.Object.{counts_elsewhere, has_other_symbols, has_second_symbol_table, has_two_relas, has_unlinked_sections, is_compressed, is_foreign_kind, is_kept_by_thread, is_kept_rela, is_kept_unknown, is_odd_code, is_odd_rela, is_odd_symbol_table, is_rela_of_none, is_unlinked, lacks_symbols};

use crate::header::{
    FINI_ARRAY, GROUP, INIT_ARRAY, NOBITS, PREINIT_ARRAY, PROGBITS, REL, RELA, SYMTAB,
    SYMTAB_SHNDX, SectionHeader, section_table,
};
use crate::relas::{RELA_SIZE, has_two_relas, is_kept_rela};
use crate::section_flags::SectionFlags;
use crate::sections::Sections;
use crate::symbols::SYMBOL_SIZE;

// Whether e_shnum is 0, but e_shoff isn't.
fn counts_elsewhere(sections: &Sections) -> bool
    ensures { result ≡ counts_elsewhere sections.now }
{
    sections.count() == 0 && section_table(sections.bytes()) != 0
}

fn is_foreign_kind(header: &SectionHeader) -> bool
    ensures { result ≡ is_foreign_kind header.now }
{
    matches!(header.kind, REL | GROUP | SYMTAB_SHNDX)
}

fn is_compressed(header: &SectionHeader) -> bool
    ensures { result ≡ is_compressed header.now }
{
    header.has(SectionFlags::COMPRESSED)
}

// Whether there is a second table of symbols.
fn has_second_symbol_table(sections: &Sections) -> bool
    ensures { result ≡ has_second_symbol_table sections.now }
{
    let mut found = false;
    for i in 0..sections.count() {
        if sections.header(i).kind == SYMTAB {
            if found {
                return true;
            }
            found = true;
        }
    }
    false
}

fn is_odd_symbol_table(header: &SectionHeader) -> bool
    ensures { result ≡ is_odd_symbol_table header.now }
{
    header.kind == SYMTAB && (header.entry_size != SYMBOL_SIZE || header.size % SYMBOL_SIZE != 0)
}

fn is_kept_by_thread(sections: &Sections, header: &SectionHeader) -> bool
    ensures { result ≡ is_kept_by_thread sections.now header.now }
{
    sections.is_kept(header) && header.has(SectionFlags::TLS)
}

fn is_kept_unknown(sections: &Sections, header: &SectionHeader) -> bool
    ensures { result ≡ is_kept_unknown sections.now header.now }
{
    sections.is_kept(header)
        && !matches!(
            header.kind,
            PROGBITS | NOBITS | INIT_ARRAY | FINI_ARRAY | PREINIT_ARRAY
        )
}

fn is_odd_code(sections: &Sections, header: &SectionHeader) -> bool
    ensures { result ≡ is_odd_code sections.now header.now }
{
    sections.is_kept_code(header) && (header.has(SectionFlags::WRITE) || header.kind != PROGBITS)
}

fn is_odd_rela(sections: &Sections, header: &SectionHeader) -> bool
    ensures { result ≡ is_odd_rela sections.now header.now }
{
    is_kept_rela(sections, header)
        && (header.entry_size != RELA_SIZE || header.size % RELA_SIZE != 0)
}

// Whether there is no section with this index, or it is no symbol table.
fn lacks_symbols(sections: &Sections, i: u32) -> bool
    ensures { result ≡ lacks_symbols sections.now i }
{
    sections.count() <= i || sections.header(i).kind != SYMTAB
}

fn has_other_symbols(sections: &Sections, header: &SectionHeader) -> bool
    ensures { result ≡ has_other_symbols sections.now header.now }
{
    is_kept_rela(sections, header) && lacks_symbols(sections, header.link)
}

fn is_rela_of_none(sections: &Sections, header: &SectionHeader) -> bool
    ensures { result ≡ is_rela_of_none sections.now header.now }
{
    header.kind == RELA && sections.count() <= header.info
}

// Whether a section is never linked, for a cause that can be seen from its own header.
fn is_unlinked(sections: &Sections, header: &SectionHeader) -> bool
    ensures { result ≡ is_unlinked sections.now header.now }
{
    is_foreign_kind(header)
        || is_compressed(header)
        || is_odd_symbol_table(header)
        || is_kept_by_thread(sections, header)
        || is_kept_unknown(sections, header)
        || is_odd_code(sections, header)
        || is_odd_rela(sections, header)
        || has_other_symbols(sections, header)
        || is_rela_of_none(sections, header)
}

// Whether some section is never linked, for a cause that can be seen from its own header.
#[tactic(auto, using(crate::proofs::Listed::none_listed_more))]
fn has_unlinked_section(sections: &Sections) -> bool
    ensures { result ≡ list_any (is_unlinked sections.now) (headers_of sections.now) }
{
    for i in 0..sections.count() {
        if is_unlinked(sections, &sections.header(i)) {
            return true;
        }
    }
    false
}

/// Whether an object has sections that are never linked.
pub fn has_unlinked_sections(sections: &Sections) -> bool
    requires { section_count sections.now ≤ 4096 }
    ensures { result ≡ has_unlinked_sections sections.now }
{
    counts_elsewhere(sections)
        || has_second_symbol_table(sections)
        || has_unlinked_section(sections)
        || has_two_relas(sections)
}
