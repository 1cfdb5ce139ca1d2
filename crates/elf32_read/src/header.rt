// The headers of ELF files of class 32 (System V gABI, "ELF Header", "Sections" and "Program
// Header").

ghost use Rattle.std.specs.Prelude.{◌≡◌, ◌≢◌, ◌≤◌, ◌+◌, ◌*◌, length};
ghost use Rattle.zc_base.specs.Fields.{half_in};
ghost use Rattle.elf32_read.specs.Compressed.{has_rvc};
ghost use Rattle.elf32_read.specs.Kept.{has_flags};
ghost use Rattle.elf32_read.specs.Header.{are_known_flags, begins_as, content_of, entry_address, file_flags, has_other_section_headers, header_of, is_empty_kind, name_section, program_count, program_header_of, program_table, section_count, section_table};

use crate::section_flags::SectionFlags;
use bitflags::Flags;
use zc_base::fields::{u16_at, u32_at};

/// File types, e_type.
pub const RELOCATABLE: u16 = 1;

pub const EXECUTABLE: u16 = 2;

/// The machine of a file, e_machine.
pub const RISC_V: u16 = 243;

/// Flags of a file, e_flags (RISC-V ELF psABI, "File Header").
pub const RVC: u32 = 0x1;

pub const TSO: u32 = 0x10;

/// The type of a program header that loads a segment, PT_LOAD.
pub const LOAD: u32 = 1;

/// Section types, sh_type.
pub const NULL: u32 = 0;

pub const PROGBITS: u32 = 1;

pub const SYMTAB: u32 = 2;

pub const STRTAB: u32 = 3;

pub const RELA: u32 = 4;

pub const NOBITS: u32 = 8;

pub const REL: u32 = 9;

pub const INIT_ARRAY: u32 = 14;

pub const FINI_ARRAY: u32 = 15;

pub const PREINIT_ARRAY: u32 = 16;

pub const GROUP: u32 = 17;

pub const SYMTAB_SHNDX: u32 = 18;

/// A section header: the words sh_name, sh_type, sh_flags, sh_addr, sh_offset, sh_size, sh_link,
/// sh_info, sh_addralign and sh_entsize.
#[derive(Clone, Copy)]
pub struct SectionHeader {
    pub name: u32,
    pub kind: u32,
    pub flags: u32,
    pub address: u32,
    pub offset: u32,
    pub size: u32,
    pub link: u32,
    pub info: u32,
    pub align: u32,
    pub entry_size: u32,
}

impl SectionHeader {
    /// Whether the section has all of these flags.
    pub fn has(&self, flags: SectionFlags) -> bool
        ensures { result ≡ has_flags flags.bits self.now.flags }
    {
        SectionFlags { bits: self.flags }.contains(flags)
    }
}

/// A program header: the words p_type, p_offset, p_vaddr, p_paddr, p_filesz, p_memsz, p_flags and
/// p_align.
#[derive(Clone, Copy)]
pub struct ProgramHeader {
    pub kind: u32,
    pub offset: u32,
    pub address: u32,
    pub physical: u32,
    pub file_size: u32,
    pub memory_size: u32,
    pub flags: u32,
    pub align: u32,
}

/// Whether bytes begin as a RISC-V file of class 32 and of this type.
pub fn begins_as(file_type: u16, bytes: &[u8]) -> bool
    requires { 52 ≤ length bytes.now }
    ensures { result ≡ begins_as file_type bytes.now }
{
    u32_at(bytes, 0) == 0x464C_457F
        && bytes[4] == 1
        && bytes[5] == 1
        && bytes[6] == 1
        && u16_at(bytes, 16) == file_type
        && u16_at(bytes, 18) == RISC_V
}

/// The address at which the program starts, e_entry.
pub fn entry_address(bytes: &[u8]) -> u32
    requires { 52 ≤ length bytes.now }
    ensures { result ≡ entry_address bytes.now }
{
    u32_at(bytes, 24)
}

/// Where the program headers begin, e_phoff.
pub fn program_table(bytes: &[u8]) -> u32
    requires { 52 ≤ length bytes.now }
    ensures { result ≡ program_table bytes.now }
{
    u32_at(bytes, 28)
}

/// Where the section headers begin, e_shoff.
pub fn section_table(bytes: &[u8]) -> u32
    requires { 52 ≤ length bytes.now }
    ensures { result ≡ section_table bytes.now }
{
    u32_at(bytes, 32)
}

/// The flags of the file, e_flags (RISC-V ELF psABI, "File Header").
pub fn file_flags(bytes: &[u8]) -> u32
    requires { 52 ≤ length bytes.now }
    ensures { result ≡ file_flags bytes.now }
{
    u32_at(bytes, 36)
}

/// Whether e_flags has no bits other than RVC and TSO.
pub fn are_known_flags(flags: u32) -> bool
    ensures { result ≡ are_known_flags flags }
{
    flags == 0 || flags == RVC || flags == TSO || flags == RVC | TSO
}

/// Whether an object with these e_flags is compressed: RVC is set, so its code may have 2-byte
/// instructions.
pub fn has_rvc(flags: u32) -> bool
    ensures { result ≡ has_rvc flags }
{
    flags & RVC == RVC
}

/// The size of a program header in bytes, e_phentsize.
pub fn program_header_size(bytes: &[u8]) -> u16
    requires { 52 ≤ length bytes.now }
    ensures { result ≡ half_in bytes.now 42 }
{
    u16_at(bytes, 42)
}

/// The number of program headers, e_phnum.
pub fn program_count(bytes: &[u8]) -> u16
    requires { 52 ≤ length bytes.now }
    ensures { result ≡ program_count bytes.now }
{
    u16_at(bytes, 44)
}

/// The size of a section header in bytes, e_shentsize.
pub fn section_header_size(bytes: &[u8]) -> u16
    requires { 52 ≤ length bytes.now }
    ensures { result ≡ half_in bytes.now 46 }
{
    u16_at(bytes, 46)
}

/// The number of sections, e_shnum.
pub fn section_count(bytes: &[u8]) -> u16
    requires { 52 ≤ length bytes.now }
    ensures { result ≡ section_count bytes.now }
{
    u16_at(bytes, 48)
}

/// The section that holds the names of the sections, e_shstrndx.
pub fn name_section(bytes: &[u8]) -> u16
    requires { 52 ≤ length bytes.now }
    ensures { result ≡ name_section bytes.now }
{
    u16_at(bytes, 50)
}

/// Whether there are section headers, and their size isn't 40 bytes.
pub fn has_other_section_headers(bytes: &[u8]) -> bool
    requires { 52 ≤ length bytes.now }
    ensures { result ≡ has_other_section_headers bytes.now }
{
    section_count(bytes) != 0 && section_header_size(bytes) != 40
}

/// The header of a section.
#[tactic(auto, unfolding(crate::specs::Header::header_of))]
pub fn section_header(bytes: &[u8], i: u32) -> SectionHeader
    requires start { 52 ≤ length bytes.now }
    requires within { section_table bytes.now + 40 * i + 40 ≤ length bytes.now }
    ensures { result ≡ header_of bytes.now i }
{
    let at = section_table(bytes) as usize + 40 * i as usize;
    SectionHeader {
        name: u32_at(bytes, at),
        kind: u32_at(bytes, at + 4),
        flags: u32_at(bytes, at + 8),
        address: u32_at(bytes, at + 12),
        offset: u32_at(bytes, at + 16),
        size: u32_at(bytes, at + 20),
        link: u32_at(bytes, at + 24),
        info: u32_at(bytes, at + 28),
        align: u32_at(bytes, at + 32),
        entry_size: u32_at(bytes, at + 36),
    }
}

/// A program header.
#[tactic(auto, unfolding(crate::specs::Header::program_header_of))]
pub fn program_header(bytes: &[u8], i: u32) -> ProgramHeader
    requires start { 52 ≤ length bytes.now }
    requires within { program_table bytes.now + 32 * i + 32 ≤ length bytes.now }
    ensures { result ≡ program_header_of bytes.now i }
{
    let at = program_table(bytes) as usize + 32 * i as usize;
    ProgramHeader {
        kind: u32_at(bytes, at),
        offset: u32_at(bytes, at + 4),
        address: u32_at(bytes, at + 8),
        physical: u32_at(bytes, at + 12),
        file_size: u32_at(bytes, at + 16),
        memory_size: u32_at(bytes, at + 20),
        flags: u32_at(bytes, at + 24),
        align: u32_at(bytes, at + 28),
    }
}

/// Whether sections of this type, NULL or NOBITS, have no content in the file.
pub fn is_without_content(kind: u32) -> bool
    ensures { result ≡ is_empty_kind kind }
{
    kind == NULL || kind == NOBITS
}

/// The content of a section.
pub fn content(bytes: &[u8], header: SectionHeader) -> &[u8]
    requires { header.kind ≢ 0 → header.kind ≢ 8 → header.offset + header.size ≤ length bytes.now }
    ensures content { result.now ≡ content_of bytes.entry.now header }
    ensures whole { header.kind ≢ 0 → header.kind ≢ 8 → length result.now ≡ header.size }
    ensures within { length result.now ≤ length bytes.entry.now }
{
    if is_without_content(header.kind) {
        &[]
    } else {
        let start = header.offset as usize;
        &bytes[start..start + header.size as usize]
    }
}
