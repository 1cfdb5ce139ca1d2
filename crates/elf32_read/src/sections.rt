// The sections of a file, by their headers.

ghost use Rattle.std.specs.Prelude.{◌≡◌, ◌≢◌, ◌≤◌, ◌<◌, ◌+◌, ◌^◌, List, ℕ, false, length};
ghost use Rattle.elf32_read.specs.Header.{content_of, header_of, section_count};
ghost use Rattle.elf32_read.specs.Kept.{is_kept, is_kept_code};
ghost use Rattle.elf32_read.specs.Names.{lacks_strings, section_names, strings_of};
ghost use Rattle.elf32_read.specs.Object.{passes_end, truncated, IsWholeFile};

use crate::header::{STRTAB, SectionHeader, content, name_section, section_count, section_header};
use crate::names::is_name_at;
use crate::section_flags::SectionFlags;
use bitflags::Flags;
use std::marker::Model;

// The name of the table for unwinding the stack, with its terminating zero.
const EH_FRAME: &[u8; 10] = b".eh_frame\0";

// Whether there is no section with this index, or it is no string table.
fn lacks_strings(bytes: &[u8], i: u32) -> bool
    requires { IsWholeFile bytes.now }
    ensures { result ≡ lacks_strings bytes.now i }
{
    u32::from(section_count(bytes)) <= i || section_header(bytes, i).kind != STRTAB
}

// The string table with this section index; empty if that section is no string table.
fn strings(bytes: &[u8], i: u32) -> &[u8]
    requires { IsWholeFile bytes.now }
    ensures { result.now ≡ strings_of bytes.entry.now i }
{
    if lacks_strings(bytes, i) {
        &[]
    } else {
        content(bytes, section_header(bytes, i))
    }
}

/// A file whose section headers lie in it, and the contents of its sections. Clauses see it as its
/// bytes.
#[derive(Drop)]
pub struct Sections<'a> {
    bytes: &'a [u8],
    names: &'a [u8],
}

impl<'a> Model for Sections<'a> {
    ghost Value = { List ℕ };

    ghost view = { λ sections. sections.bytes.now };

    ghost invariant = { λ sections.
        IsWholeFile sections.bytes.now × (sections.names.now ≡ section_names sections.bytes.now) };
}

impl<'a> Sections<'a> {
    /// The sections of a file that isn't truncated.
    pub fn new(bytes: &'a [u8]) -> Sections<'a>
        requires start { 52 ≤ length bytes.now }
        requires whole { truncated bytes.now ≡ false }
        ensures { result ≡ bytes.entry.now }
    {
        let names = strings(bytes, u32::from(name_section(bytes)));
        Sections { bytes, names }
    }

    /// The file.
    pub fn bytes(&self) -> &'a [u8]
        ensures bytes { result.now ≡ self.now }
        ensures long { 52 ≤ length self.now }
    {
        self.bytes
    }

    /// The number of sections.
    pub fn count(&self) -> u32
        ensures count { result ≡ section_count self.now }
        ensures small { result < 2 ^ 16 }
    {
        u32::from(section_count(self.bytes))
    }

    /// The header of a section.
    pub fn header(&self, i: u32) -> SectionHeader
        requires { i < section_count self.now }
        ensures header { result ≡ header_of self.now i }
        ensures whole { passes_end self.now result ≡ false }
    {
        section_header(self.bytes, i)
    }

    /// The content of a section.
    pub fn content(&self, header: &SectionHeader) -> &'a [u8]
        requires { passes_end self.now header.now ≡ false }
        ensures content { result.now ≡ content_of self.now header.now }
        ensures within { length result.now ≤ length self.now }
    {
        content(self.bytes, *header)
    }

    /// The names of the sections.
    pub fn names(&self) -> &'a [u8]
        ensures { result.now ≡ section_names self.now }
    {
        self.names
    }

    /// Whether there is no section with this index, or it is no string table.
    pub fn lacks_strings(&self, i: u32) -> bool
        ensures { result ≡ lacks_strings self.now i }
    {
        lacks_strings(self.bytes, i)
    }

    /// The string table with this section index; empty if that section is no string table.
    pub fn strings(&self, i: u32) -> &'a [u8]
        ensures { result.now ≡ strings_of self.now i }
    {
        strings(self.bytes, i)
    }

    /// Whether a section is kept.
    pub fn is_kept(&self, header: &SectionHeader) -> bool
        ensures { result ≡ is_kept self.now header.now }
    {
        header.has(SectionFlags::ALLOC) && !is_name_at(EH_FRAME, self.names, header.name)
    }

    /// Whether a section is kept code.
    pub fn is_kept_code(&self, header: &SectionHeader) -> bool
        ensures { result ≡ is_kept_code self.now header.now }
    {
        self.is_kept(header) && header.has(SectionFlags::EXECINSTR)
    }
}
