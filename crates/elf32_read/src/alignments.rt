// Whether the alignments of sections and common symbols are allowed, and code ends at a whole word, or in
// a compressed object at a whole halfword.

ghost use Rattle.std.specs.Prelude.{◌≡◌, ◌<◌, drop};
ghost use Rattle.std.specs.List.{list_any};
ghost use Rattle.elf32_read.specs.Compressed.{code_step, has_rvc};
ghost use Rattle.elf32_read.specs.Header.{headers_of};
ghost use Rattle.elf32_read.specs.Object.{has_bad_alignment, has_cut_code, is_bad_alignment, is_bad_common, is_badly_aligned, is_cut_code};
ghost use Rattle.elf32_read.specs.Symbols.{entries_in, symbol_content};

use crate::header::{SectionHeader, file_flags, has_rvc};
use crate::section_flags::SectionFlags;
use crate::sections::Sections;
use crate::symbol::COMMON;
use crate::symbol_entry::SymbolEntry;
use crate::symbols::{SYMBOL_SIZE, symbol_entry};

const MOST_OF_CODE: u32 = 256;

const MOST_OF_DATA: u32 = 4096;

// Whether an alignment is neither 0 nor a power of two, or is above the maximum.
fn is_bad_alignment(most: u32, align: u32) -> bool
    ensures { result ≡ is_bad_alignment most align }
{
    align != 0 && (!align.is_power_of_two() || most < align)
}

fn is_badly_aligned(sections: &Sections, header: &SectionHeader) -> bool
    ensures { result ≡ is_badly_aligned sections.now header.now }
{
    let most = if header.has(SectionFlags::EXECINSTR) {
        MOST_OF_CODE
    } else {
        MOST_OF_DATA
    };
    sections.is_kept(header) && is_bad_alignment(most, header.align)
}

// Whether some section is badly aligned.
#[tactic(auto, using(crate::proofs::Listed::none_listed_more))]
fn has_badly_aligned(sections: &Sections) -> bool
    ensures { result ≡ list_any (is_badly_aligned sections.now) (headers_of sections.now) }
{
    for i in 0..sections.count() {
        if is_badly_aligned(sections, &sections.header(i)) {
            return true;
        }
    }
    false
}

// Whether a common symbol, whose value is its alignment, is badly aligned.
fn is_bad_common(entry: &SymbolEntry) -> bool
    ensures { result ≡ is_bad_common entry.now }
{
    entry.home == COMMON && is_bad_alignment(MOST_OF_DATA, entry.value)
}

// Whether some common symbol other than 0 is badly aligned.
fn has_bad_common(entries: &[u8]) -> bool
    ensures { result ≡ list_any is_bad_common (drop 1 (entries_in entries.now)) }
{
    for i in 1..entries.len() / SYMBOL_SIZE as usize {
        if is_bad_common(&symbol_entry(entries, i)) {
            return true;
        }
    }
    false
}

/// Whether some section or symbol is badly aligned.
pub fn has_bad_alignment(sections: &Sections, entries: &[u8]) -> bool
    requires { entries.now ≡ symbol_content sections.now }
    ensures { result ≡ has_bad_alignment sections.now }
{
    has_badly_aligned(sections) || has_bad_common(entries)
}

// The number that the addresses and sizes of code are multiples of, by the flags of its object.
fn code_step(flags: u32) -> u32
    ensures some { 0 < result }
    ensures value { result ≡ code_step (has_rvc flags) }
{
    if has_rvc(flags) { 2 } else { 4 }
}

// Whether a section is kept code that ends inside a word, or in a compressed object inside a halfword.
fn is_cut_code(sections: &Sections, header: &SectionHeader) -> bool
    ensures { result ≡ is_cut_code sections.now header.now }
{
    sections.is_kept_code(header) && header.size % code_step(file_flags(sections.bytes())) != 0
}

/// Whether some section is kept code that ends inside a word, or in a compressed object inside a halfword.
#[tactic(auto, using(crate::proofs::Listed::none_listed_more))]
pub fn has_cut_code(sections: &Sections) -> bool
    ensures { result ≡ has_cut_code sections.now }
{
    for i in 0..sections.count() {
        if is_cut_code(sections, &sections.header(i)) {
            return true;
        }
    }
    false
}
