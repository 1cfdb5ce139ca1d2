// Sections of the generated objects.

ghost use Rattle.std.specs.Prelude.{◌≡◌, ◌<◌, ◌^◌, ◌+◌, [], ◌∷◌, ◌++◌, All, IfOk, OnOk, length, map};
ghost use Rattle.zc_base.specs.Fields.{word_bytes};
ghost use Rattle.rv_decode.specs.Immediates.{InRange};
ghost use Rattle.rv_encode.specs.Words.{encoded};
ghost use Rattle.sound_objects.specs.Fragments.{fragments_bytes, relocs_from};
ghost use Rattle.load_maker.specs.Objects.{result_section, symbol_of, text_section_of};
ghost use Rattle.load_maker.specs.Statements.{IsInRange, code_size, named_by, fragment_of};

use crate::instrs::{auipc, jalr};
use crate::register::Register::Ra;
use crate::statement::{CALL, Statement};
use elf32_read::header::{NOBITS, PROGBITS};
use elf32_read::reloc::Reloc;
use elf32_read::section_flags::SectionFlags;
use elf32_write::object_parts::PartSection;
use indexmap::IndexSet;
use rv_decode::instr::Instr;
use rv_encode::encode::encode;
use std::alloc::{AllocError, Global};

// Flags of code and of data.
const CODE_FLAGS: u32 = SectionFlags::ALLOC.bits | SectionFlags::EXECINSTR.bits;

const DATA_FLAGS: u32 = SectionFlags::ALLOC.bits | SectionFlags::WRITE.bits;

// The number of the symbol `result`.
const RESULT: u32 = 1;

// Appends the bytes of an instruction.
fn push_instr(out: &mut Vec<u8>, i: Instr) -> Result<(), AllocError>
    requires { InRange i }
    ensures { OnOk result (out.new.items ≡ out.old.items ++ word_bytes (encoded i)) }
{
    out.extend_from_slice(&encode(i).to_le_bytes())
}

// The bytes of code, whatever symbols its functions have.
fn bytes_of(alloc: Global, statements: &[Statement]) -> Result<Vec<u8>, AllocError>
    requires { All IsInRange statements.now }
    ensures { IfOk result (λ bytes. bytes.items ≡ fragments_bytes (map (fragment_of (λ function. 0)) statements.now)) }
{
    let mut bytes = Vec::new(alloc);
    for statement in statements {
        match *statement {
            Statement::Plain(i) | Statement::WithAddress(_, i) => push_instr(&mut bytes, i)?,
            Statement::Call(_) => {
                push_instr(&mut bytes, auipc(Ra, 0))?;
                push_instr(&mut bytes, jalr(Ra, 0, Ra))?;
            }
        }
    }
    Ok(bytes)
}

// The relocations of code. The functions that it calls are added to those that are named; their symbols come after
// `others` other ones.
fn relocs_of(
    alloc: Global,
    others: u32,
    named: &mut IndexSet<u32>,
    statements: &[Statement],
) -> Result<Vec<Reloc>, AllocError>
    requires size { code_size statements.now < 2 ^ 32 }
    requires symbols { 1 + others + length named.old.keys + length statements.now < 2 ^ 32 }
    ensures named { OnOk result (named.new.keys ≡ named_by named.old.keys statements.now) }
    ensures relocs { let symbol = symbol_of others (named_by named.old.keys statements.now) in
        IfOk result (λ relocs. relocs.items ≡ relocs_from 0 (map (fragment_of symbol) statements.now)) }
{
    let mut relocs = Vec::new(alloc);
    let mut at = 0;
    for statement in statements {
        match *statement {
            Statement::Plain(_) => {
                at += 4;
            }
            Statement::Call(function) => {
                let (k, _) = named.insert_full(function)?;
                relocs.push(Reloc {
                    offset: at,
                    symbol: 1 + others + k as u32,
                    kind: CALL,
                    addend: 0,
                })?;
                at += 8;
            }
            Statement::WithAddress(kind, _) => {
                relocs.push(Reloc {
                    offset: at,
                    symbol: RESULT,
                    kind,
                    addend: 0,
                })?;
                at += 4;
            }
        }
    }
    Ok(relocs)
}

// The section of code. The functions that it calls are added to those that are named; their symbols come after `others`
// other ones.
fn text_section(
    alloc: Global,
    others: u32,
    named: &mut IndexSet<u32>,
    statements: &[Statement],
) -> Result<PartSection, AllocError>
    requires range { All IsInRange statements.now }
    requires size { code_size statements.now < 2 ^ 32 }
    requires symbols { 1 + others + length named.old.keys + length statements.now < 2 ^ 32 }
    ensures named { OnOk result (named.new.keys ≡ named_by named.old.keys statements.now) }
    ensures text { let named = named_by named.old.keys statements.now in
        IfOk result (λ section. section ≡ text_section_of others named statements.now) }
{
    let name = Vec::from_slice(alloc, b".text")?;
    let bytes = bytes_of(alloc, statements)?;
    let relocs = relocs_of(alloc, others, named, statements)?;
    Ok(PartSection {
        name,
        kind: PROGBITS,
        flags: CODE_FLAGS,
        align: 4,
        size: bytes.len() as u32,
        bytes,
        relocs,
    })
}

/// The section of code, as all sections of an object. The functions that it calls are added to those that are named;
/// their symbols come after `others` other ones.
pub fn code_sections(
    alloc: Global,
    others: u32,
    named: &mut IndexSet<u32>,
    statements: &[Statement],
) -> Result<Vec<PartSection>, AllocError>
    requires range { All IsInRange statements.now }
    requires size { code_size statements.now < 2 ^ 32 }
    requires symbols { 1 + others + length named.old.keys + length statements.now < 2 ^ 32 }
    ensures named { OnOk result (named.new.keys ≡ named_by named.old.keys statements.now) }
    ensures sections { let named = named_by named.old.keys statements.now in
        IfOk result (λ sections. sections.items ≡ text_section_of others named statements.now ∷ []) }
{
    let mut sections = Vec::new(alloc);
    sections.push(text_section(alloc, others, named, statements)?)?;
    Ok(sections)
}

// Room for `result`.
fn result_section(alloc: Global) -> Result<PartSection, AllocError>
    ensures { IfOk result (λ section. section ≡ result_section) }
{
    let name = Vec::from_slice(alloc, b".bss")?;
    Ok(PartSection {
        name,
        kind: NOBITS,
        flags: DATA_FLAGS,
        align: 4,
        size: 4,
        bytes: Vec::new(alloc),
        relocs: Vec::new(alloc),
    })
}

/// Appends the section of `result`.
pub fn push_result(alloc: Global, sections: &mut Vec<PartSection>) -> Result<(), AllocError>
    ensures { OnOk result (sections.new.items ≡ sections.old.items ++ result_section ∷ []) }
{
    sections.push(result_section(alloc)?)?;
    Ok(())
}
