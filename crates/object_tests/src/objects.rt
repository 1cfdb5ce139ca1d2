// An object made by hand, what it reads as, and its first fault after changes.

use crate::fixture::{bytes_of, changed};
use elf32_read::object::Object;
use std::alloc::Global;
use std::process::Abort;
use std::test::Fail;

// Two instructions, at 52; two relocations of them, at 60; four symbols, at 84; the names of sections and symbols,
// at 148; and the headers: none at 208, `.text` at 248, `.rela.text` at 288, `.bss` at 328, `.eh_frame` at 368,
// `.rela.eh_frame` at 408, `.symtab` at 448 and `.strtab` at 488. The relocation of `.eh_frame`, which is dropped,
// is the file's first bytes.
const OBJECT: &str = "
7f454c46010101 00*9
0100 f300 01000000 00*8 d0000000 10000000
3400 00*4 2800 0800 0700
13053000 73000000
00*4 17020000 00*4
04000000 01030000 fcffffff
00*16
00*12 03 00 0100
30000000 04000000 04000000 12 00 0100
37000000 04000000 08000000 11 00 f2ff
00 =.rela.text =.bss =.rela.eh_frame =.symtab =.strtab =_start =c 00*3
00*40
06000000 01000000 06000000 00*4 34000000 08000000 00*8 04000000 00*4
01000000 04000000 40000000 00*4 3c000000 18000000 06000000 01000000 04000000 0c000000
0c000000 08000000 03000000 00*8 10000000 00*8 10000000 00*4
16000000 01000000 02000000 00*4 34000000 04000000 00*8 04000000 00*4
11000000 04000000 40000000 00*8 0c000000 06000000 04000000 04000000 0c000000
20000000 02000000 00*8 54000000 40000000 07000000 02000000 04000000 10000000
28000000 03000000 00*8 94000000 39000000 00*8 01000000 00*4";

// How many sections and symbols there are.
const COUNTS: &str = "8 4";

// Each section: its name, type, flags, size and alignment, how many bytes it has in the file, and how many
// relocations.
const SECTIONS: &str = " 0 0 0 0 0 0
.text 1 6 8 4 8 2
.rela.text 4 64 24 4 24 0
.bss 8 3 16 16 0 0
.eh_frame 1 2 4 4 4 0
.rela.eh_frame 4 64 12 4 12 0
.symtab 2 0 64 4 64 0
.strtab 3 0 57 1 57 0";

// Each symbol: its name, value, size, binding, type and home. The last one is common.
const SYMBOLS: &str = " 0 0 0 0 0
 0 0 0 3 1
_start 4 4 1 2 1
c 4 8 1 1 65522";

// Each relocation of section 1: its offset, symbol, type and addend.
const RELOCS: &str = "0 2 23 0
4 3 1 -4";

// The contents of section 1, two instructions: `addi a0,x0,3` and `ecall`.
const CONTENTS: &str = "[19, 5, 48, 0, 115, 0, 0, 0]";

// Fields of a header: its type at 4, flags at 8, the offset of its content at 16, size at 20, link at 24, info at 28,
// alignment at 32, and the size of an entry at 36. Each line: the fault, or `-` for none, the changes, and what
// they make.
const FILES: &str = "- as it is
- 4:3010101 8:1 another system
- 20:9 another e_version
- 36:0 no flags
- 36:1 RVC
- 36:11 RVC and TSO
NotElf 0:464c457e magic
NotElf 0:474c457f magic's end
NotElf 4:10102 class 64
NotElf 4:10201 big-endian
NotElf 4:101 version 0
NotElf 16:f30002 a program
NotElf 16:f20001 another machine
NotElf 16:1f30001 a machine's high byte
NotElf 44:270000 headers of 39 bytes
NotElf 44:270000 48:71001 4,097 headers of 39 bytes
TooLarge 48:71001 4,097 sections
Truncated 48:71000 4,096 sections
Truncated 32:d1 headers past the end
Truncated 32:fffffff0 headers far out
Truncated 248+20:1dd content past the end
- 248+20:1dc content to the end
Truncated 248+16:fffffffc content that would wrap
- 328+16:fffffffc zeros past the end
Truncated 408+16:211 408+20:0 an empty section past the end
Truncated 36:2 248+20:1dd truncated, and other flags
Flags 36:2 floats in registers
Flags 36:5 RVC, and doubles in registers
Flags 36:8 RVE
Flags 36:31 a flag above RVC and TSO
Flags 36:1000000 a high flag
Flags 36:1000001 RVC, and a high flag
Flags 36:2 408+4:11 other flags, and a group";

// Sections that are never linked.
const KINDS: &str = "SectionKind 48:0 headers, but no sections
- 32:0 48:0 no headers and no sections
- 32:0 44:270000 48:0 no headers of 39 bytes
SectionKind 408+4:9 REL
SectionKind 408+4:11 GROUP
SectionKind 408+4:12 SYMTAB_SHNDX
SectionKind 488+8:800 a compressed table of strings
SectionKind 408+4:2 408+36:10 408+20:0 a second SYMTAB
SectionKind 448+36:c symbols of 12 bytes
SectionKind 448+20:3f a part of a symbol
SectionKind 328+8:403 memory of each thread
- 368+8:402 .eh_frame of each thread
SectionKind 328+4:7 a kept section of another kind
- 328+4:f a kept array
- 368+4:7 .eh_frame of another kind
SectionKind 488+8:2 a kept table of strings
SectionKind 248+8:7 code that can be written
SectionKind 248+4:e code that is no PROGBITS
SectionKind 248+4:8 code of zeros
SectionKind 288+36:8 relocations of 8 bytes
- 408+36:8 dropped relocations of 8 bytes
SectionKind 288+20:17 a part of a relocation
- 408+20:b a part of a dropped one
SectionKind 288+24:7 relocations by names
SectionKind 288+24:8 relocations by no section
- 408+24:8 dropped relocations by no section
SectionKind 408+28:8 relocations of no section
SectionKind 408+28:1 two RELA for code
- 288+28:4 two RELA for .eh_frame
SectionKind 448+4:8 a SYMTAB of zeros is none, and a RELA lacks it
SectionKind 408+4:11 248+32:3 an unaligned group";

// A symbol's value is at 4, and its binding and type at 12, in the same word as st_shndx above them.
const OTHERS: &str = "Alignment 248+32:3 code aligned to 3
- 248+32:100 code aligned to 256
Alignment 248+32:200 code aligned to 512
- 328+32:1000 data aligned to 4096
Alignment 328+32:2000 data aligned to 8192
- 328+32:0 data without alignment
- 368+32:3 .eh_frame aligned to 3
Alignment 132+4:3 a common symbol aligned to 3
Alignment 132+4:2000 a common symbol aligned to 8192
- 132+4:0 a common symbol without alignment
- 84+4:3 84+12:fff20000 symbol 0 in common, aligned to 3
Alignment 248+32:3 248+20:6 badly aligned, and cut code
CodeSize 248+20:6 cut code
CodeSize 36:0 248+20:6 cut code without flags
CodeSize 248+20:7 code that is cut in a halfword
- 36:1 248+20:6 compressed code of three halfwords
- 36:11 248+20:6 the same with TSO
CodeSize 36:1 248+20:7 compressed code that is cut
CodeSize 36:11 248+20:5 the same with TSO
- 328+20:6 cut data
- 36:1 328+20:7 cut data beside compressed code
CodeSize 248+20:6 48:60008 cut code, and no names
BadName 48:60008 names in the symbols
BadName 48:80008 names in no section
BadName 488+4:1 no strings
BadName 448+24:6 names of symbols in no strings
BadName 448+24:8 names of symbols in no section
BadName 208:39 a section's name past the table
- 208:38 a section's name at its last zero
BadName 84:39 symbol 0's name past the table
- 116:38 a symbol's name at its last zero
BadName 204:78 a last name without its zero
BadName 208:39 116+12:10032 no name, and a bad symbol
BadSymbol 116+12:10032 an unknown binding
- 84+12:30 symbol 0 with one
BadSymbol 116+12:10016 a symbol of each thread
BadSymbol 116+12:1001a an indirect function
- 116+12:12 undefined
BadSymbol 100+12:3 undefined and local
BadSymbol 116+12:80012 a home past the sections
BadSymbol 116+12:fff00012 a home before ABS
- 116+12:fff10012 absolute
BadSymbol 116+12:fff30012 a home after COMMON
- 116+4:8 at the end of code
BadSymbol 116+4:9 past the end of code
BadSymbol 116+4:ffffffff far out of code
BadSymbol 116+4:11 116+12:30012 past the end of zeros
- 116+4:9 116+12:40012 past the end of .eh_frame
BadSymbol 76:400 a relocation of no symbol
BadSymbol 368:17 .eh_frame by another name";

// A section as text; its `SectionEntry` should have the same fields.
fn section_text(alloc: Global, object: &Object, i: u32) -> Result<String, Fail> {
    if object.section_count() <= i {
        return Err("no section".into());
    }
    let (s, entry) = (object.section(i), object.section_entry(i));
    if !(entry.name_starts_with(s.name) && entry.bytes == s.bytes) {
        return Err("another entry".into());
    }
    let (name, length) = (str::from_utf8(s.name)?, s.bytes.len());
    let head = format!(in alloc; "{name} {} {} {}", s.kind, s.flags.bits, s.size)?;
    Ok(format!(in alloc; "{head} {} {length} {}", s.align, object.reloc_count(i))?)
}

fn symbol_text(alloc: Global, object: &Object, i: u32) -> Result<String, Fail> {
    if object.symbol_count() <= i {
        return Err("no symbol".into());
    }
    let s = object.symbol(i);
    let head = format!(in alloc; "{} {} {}", str::from_utf8(s.name)?, s.value, s.size)?;
    Ok(format!(in alloc; "{head} {} {} {}", s.bind, s.kind, s.home)?)
}

// A relocation of section 1.
fn reloc_text(alloc: Global, object: &Object, k: u32) -> Result<String, Fail> {
    if object.section_count() <= 1 || object.reloc_count(1) <= k {
        return Err("no relocation".into());
    }
    let r = object.reloc(1, k);
    Ok(format!(in alloc; "{} {} {} {}", r.offset, r.symbol, r.kind, r.addend)?)
}

fn contents_text(alloc: Global, object: &Object) -> Result<String, Fail> {
    if object.section_count() <= 1 {
        return Err("no section".into());
    }
    Ok(format!(in alloc; "{:?}", object.section_entry(1).bytes)?)
}

fn told(alloc: Global, object: &Object, word: &str, i: u32) -> Result<String, Fail> {
    match word {
        "section" => section_text(alloc, object, i),
        "symbol" => symbol_text(alloc, object, i),
        "relocation" => reloc_text(alloc, object, i),
        "contents" => contents_text(alloc, object),
        _ => {
            let (sections, symbols) = (object.section_count(), object.symbol_count());
            Ok(format!(in alloc; "{sections} {symbols}")?)
        }
    }
}

// Checks the object's parts of this kind, from the first on, against the lines.
fn expect<R: Abort + AllocGlobal>(rt: &R, word: &str, lines: &str) -> Result<(), Fail> {
    let bytes = bytes_of(rt.alloc(), OBJECT)?;
    let object = Object::read(&bytes)?;
    for (i, line) in lines.lines().enumerate() {
        let text = told(rt.alloc(), &object, word, u32::try_from(i)?)?;
        assert_eq!(rt; text.as_str(), line, "{word} {i}");
    }
    Ok(())
}

#[test]
fn sections_are_read_with_names_contents_and_relocations(rt: HostRuntime) -> Result<(), Fail> {
    expect(&rt, "section", SECTIONS)
}

#[test]
fn sections_and_symbols_are_counted_and_contents_lent(rt: HostRuntime) -> Result<(), Fail> {
    expect(&rt, "counts", COUNTS)?;
    expect(&rt, "contents", CONTENTS)
}

#[test]
fn symbols_and_relocations_are_read(rt: HostRuntime) -> Result<(), Fail> {
    expect(&rt, "symbol", SYMBOLS)?;
    expect(&rt, "relocation", RELOCS)
}

fn fault_of(bytes: &[u8]) -> &'static str {
    match Object::read(bytes) {
        Ok(_) => "-",
        Err(fault) => fault.name(),
    }
}

// Checks that the object with the changes of each line has the fault that the line begins with.
fn expect_faults<R: Abort + AllocGlobal>(rt: &R, lines: &str) -> Result<(), Fail> {
    for line in lines.lines() {
        let bytes = changed(rt.alloc(), OBJECT, line)?;
        let (fault, _) = line.split_once(" ").ok_or("no fault")?;
        assert_eq!(rt; fault_of(&bytes), fault, "{line}");
    }
    Ok(())
}

#[test]
fn faults_of_the_file_come_first(rt: HostRuntime) -> Result<(), Fail> {
    expect_faults(&rt, FILES)
}

#[test]
fn some_sections_are_never_linked(rt: HostRuntime) -> Result<(), Fail> {
    expect_faults(&rt, KINDS)
}

#[test]
fn alignments_sizes_names_and_symbols_are_looked_at(rt: HostRuntime) -> Result<(), Fail> {
    expect_faults(&rt, OTHERS)
}
