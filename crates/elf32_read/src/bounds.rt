// Whether what a file's headers name lies in the file.

ghost use Rattle.std.specs.Prelude.{◌≡◌, ◌≤◌, ◌+◌, ◌*◌, ◌&&◌, ◌==◌, length, nat_lt};
ghost use Rattle.std.specs.List.{list_any};
ghost use Rattle.elf32_read.specs.Header.{header_of, headers_of, program_count, program_header_of, program_table, section_count, section_table};
ghost use Rattle.elf32_read.specs.Object.{passes_end, truncated};
ghost use Rattle.elf32_read.specs.Segments.{loads_of};

use crate::header::{
    LOAD, is_without_content, program_count, program_header, program_table, section_count,
    section_header, section_table,
};

// Whether the section headers pass the end.
fn lacks_headers(bytes: &[u8]) -> bool
    requires { 52 ≤ length bytes.now }
    ensures { result ≡ nat_lt (length bytes.now) (section_table bytes.now + 40 * section_count bytes.now) }
{
    bytes.len() < section_table(bytes) as usize + 40 * section_count(bytes) as usize
}

/// Whether the program headers pass the end.
pub fn lacks_program_headers(bytes: &[u8]) -> bool
    requires { 52 ≤ length bytes.now }
    ensures { result ≡ nat_lt (length bytes.now) (program_table bytes.now + 32 * program_count bytes.now) }
{
    bytes.len() < program_table(bytes) as usize + 32 * program_count(bytes) as usize
}

// Whether the content of a section passes the end.
fn is_section_truncated(bytes: &[u8], i: u32) -> bool
    requires start { 52 ≤ length bytes.now }
    requires within { section_table bytes.now + 40 * i + 40 ≤ length bytes.now }
    ensures { result ≡ passes_end bytes.now (header_of bytes.now i) }
{
    let header = section_header(bytes, i);
    !is_without_content(header.kind) && bytes.len() < header.offset as usize + header.size as usize
}

// Whether the content of some section passes the end.
#[tactic(auto, using(crate::proofs::Listed::none_listed_more))]
fn has_truncated_section(bytes: &[u8]) -> bool
    requires start { 52 ≤ length bytes.now }
    requires within { section_table bytes.now + 40 * section_count bytes.now ≤ length bytes.now }
    ensures { result ≡ list_any (passes_end bytes.now) (headers_of bytes.now) }
{
    for i in 0..u32::from(section_count(bytes)) {
        if is_section_truncated(bytes, i) {
            return true;
        }
    }
    false
}

/// Whether a file ends before its section headers do, or before the content of a section does.
pub fn is_truncated(bytes: &[u8]) -> bool
    requires { 52 ≤ length bytes.now }
    ensures { result ≡ truncated bytes.now }
{
    lacks_headers(bytes) || has_truncated_section(bytes)
}

// Whether a program header loads bytes that pass the end.
fn is_load_truncated(bytes: &[u8], i: u32) -> bool
    requires start { 52 ≤ length bytes.now }
    requires within { program_table bytes.now + 32 * i + 32 ≤ length bytes.now }
    ensures { let header = program_header_of bytes.now i in
        result ≡ (header.kind == 1 && nat_lt (length bytes.now) (header.offset + header.file_size)) }
{
    let header = program_header(bytes, i);
    header.kind == LOAD && bytes.len() < header.offset as usize + header.file_size as usize
}

/// Whether the bytes of some segment pass the end.
#[tactic(auto, using(crate::proofs::Listed::none_listed_more))]
pub fn has_truncated_load(bytes: &[u8]) -> bool
    requires start { 52 ≤ length bytes.now }
    requires within { program_table bytes.now + 32 * program_count bytes.now ≤ length bytes.now }
    ensures { result
        ≡ list_any (λ header. nat_lt (length bytes.now) (header.offset + header.file_size)) (loads_of bytes.now) }
{
    for i in 0..u32::from(program_count(bytes)) {
        if is_load_truncated(bytes, i) {
            return true;
        }
    }
    false
}
