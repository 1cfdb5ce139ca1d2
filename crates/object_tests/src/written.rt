// An object worked out by hand from the ELF format; readelf shows it as its parts.

ghost use Rattle.std.specs.Prelude.{◌≡◌, IfOk, false};
ghost use Rattle.elf32_write.specs.Writable.{IsWritable};

use crate::fixture::bytes_of;
use elf32_read::header::SectionHeader;
use elf32_read::object::Object;
use elf32_read::reloc::Reloc;
use elf32_read::symbol_entry::SymbolEntry;
use elf32_write::object_parts::{ObjectParts, PartSection, PartSymbol};
use elf32_write::write_object::write_object;
use std::alloc::{AllocError, Global};
use std::test::Fail;

// Relocations and zeros in memory, a section and a symbol without a name, data whose size is odd, and a local
// symbol after a global one.
const MIXED: &str = "
7f454c46010101 00*9
0100 f300 01000000 00*8 f0000000 10000000
3400 00*4 2800 0900 0800
97000000 e7800000
01020304 05000000
00*4 12020000 00*4
00*4 33000000 fcffffff
01000000 01010000 ffffffff
00*16
01000000 01000000 04000000 01 00 0300
03000000 00*8 10 00*3
00*12 03 00 0100
00 =x =f 00*3
00 =.text =.data =.rela.text =.rela.data =.symtab =.strtab =.shstrtab 00*3
00*40
01000000 01000000 06000000 00*4 34000000 08000000 00*8 02000000 00*4
00*4 08000000 03000000 00*4 3c000000 18000000 00*8 08000000 00*4
07000000 01000000 03000000 00*4 3c000000 05000000 00*8 01000000 00*4
0d000000 04000000 40000000 00*4 44000000 18000000 06000000 01000000 04000000 0c000000
18000000 04000000 40000000 00*4 5c000000 0c000000 06000000 03000000 04000000 0c000000
23000000 02000000 00*8 68000000 40000000 07000000 04000000 04000000 10000000
2b000000 03000000 00*8 a8000000 05000000 00*8 01000000 00*4
33000000 03000000 00*8 b0000000 3d000000 00*8 01000000 00*4";

// auipc ra,0 and jalr ra,0(ra).
const CALL: [u8; 8] = [0x97, 0, 0, 0, 0xE7, 0x80, 0, 0];

// A global symbol that isn't defined.
const GLOBAL: SymbolEntry = SymbolEntry {
    name: 0,
    value: 0,
    size: 0,
    bind: 1,
    kind: 0,
    home: 0,
};

// A section: its type, flags, alignment and size are the header's.
fn section(
    alloc: Global,
    name: &[u8],
    header: SectionHeader,
    bytes: &[u8],
    relocs: &[Reloc],
) -> Result<PartSection, AllocError>
    ensures { IfOk result (λ s. s ≡ record {
      name = name.now;
      kind = header.kind;
      flags = header.flags;
      align = header.align;
      size = header.size;
      bytes = bytes.now;
      relocs = relocs.now;
      compressed = false;
    }) }
{
    Ok(PartSection {
        name: Vec::from_slice(alloc, name)?,
        kind: header.kind,
        flags: header.flags,
        align: header.align,
        size: header.size,
        bytes: Vec::from_slice(alloc, bytes)?,
        relocs: Vec::from_slice(alloc, relocs)?,
    })
}

// A symbol: all but its name is the entry's.
fn symbol(alloc: Global, name: &[u8], entry: SymbolEntry) -> Result<PartSymbol, AllocError>
    ensures { IfOk result (λ s. s ≡ record {
      name = name.now;
      value = entry.value;
      size = entry.size;
      bind = entry.bind;
      kind = entry.kind;
      home = entry.home;
    }) }
{
    Ok(PartSymbol {
        name: Vec::from_slice(alloc, name)?,
        value: entry.value,
        size: entry.size,
        bind: entry.bind,
        kind: entry.kind,
        home: entry.home,
    })
}

// A header of this type, with these flags, alignment and size.
fn header(kind: u32, flags: u32, align: u32, size: u32) -> SectionHeader
    ensures { result ≡ record { name = 0; kind = kind; flags = flags; address = 0; offset = 0; size = size; link = 0; info = 0; align = align; entry_size = 0 } }
{
    SectionHeader {
        name: 0,
        kind,
        flags,
        address: 0,
        offset: 0,
        size,
        link: 0,
        info: 0,
        align,
        entry_size: 0,
    }
}

fn mixed(alloc: Global) -> Result<ObjectParts, AllocError>
    ensures { IfOk result (λ parts. IsWritable parts) }
{
    let call = Reloc {
        offset: 0,
        symbol: 2,
        kind: 18,
        addend: 0,
    };
    let relax = Reloc {
        symbol: 0,
        kind: 51,
        addend: -4,
        ..call
    };
    let word = Reloc {
        offset: 1,
        symbol: 1,
        kind: 1,
        addend: -1,
    };
    let text = section(alloc, b".text", header(1, 6, 2, 8), &CALL, &[call, relax])?;
    let zeros = section(alloc, b"", header(8, 3, 8, 24), &[], &[])?;
    let data = section(
        alloc,
        b".data",
        header(1, 3, 1, 5),
        &[1, 2, 3, 4, 5],
        &[word],
    )?;
    let x = symbol(
        alloc,
        b"x",
        SymbolEntry {
            name: 0,
            value: 1,
            size: 4,
            bind: 0,
            kind: 1,
            home: 3,
        },
    )?;
    let f = symbol(alloc, b"f", GLOBAL)?;
    let code = symbol(
        alloc,
        b"",
        SymbolEntry {
            bind: 0,
            kind: 3,
            home: 1,
            ..GLOBAL
        },
    )?;
    Ok(ObjectParts {
        flags: 0x10,
        sections: vec![in alloc; text, zeros, data]?,
        symbols: vec![in alloc; x, f, code]?,
    })
}

// Code of six bytes in an object with compressed code, e_flags 1: `c.li a0,5` and `li a7,93`.
const COMPRESSED: &str = "
7f454c46010101 00*9
0100 f300 01000000 00*8 74000000 01000000
3400 00*4 2800 0500 0400
15459308d005 00*2
00*16
00*4
00 =.text =.symtab =.strtab =.shstrtab 00*3
00*40
01000000 01000000 06000000 00*4 34000000 06000000 00*8 02000000 00*4
07000000 02000000 00*8 3c000000 10000000 03000000 01000000 04000000 10000000
0f000000 03000000 00*8 4c000000 01000000 00*8 01000000 00*4
17000000 03000000 00*8 50000000 21000000 00*8 01000000 00*4";

// The code of that object.
const SHORT: [u8; 6] = [0x15, 0x45, 0x93, 0x08, 0xD0, 0x05];

fn compressed(alloc: Global) -> Result<ObjectParts, AllocError>
    ensures { IfOk result (λ parts. IsWritable parts) }
{
    let text = section(alloc, b".text", header(1, 6, 2, 6), &SHORT, &[])?;
    Ok(ObjectParts {
        flags: 1,
        sections: vec![in alloc; text]?,
        symbols: Vec::new(alloc),
    })
}

#[test]
fn compressed_code_of_six_bytes_is_written_and_read_back(rt: HostRuntime) -> Result<(), Fail> {
    let parts = compressed(rt.alloc())?;
    let file = write_object(rt.alloc(), &parts)?;
    assert!(rt; file == bytes_of(rt.alloc(), COMPRESSED)?);
    let object = Object::read(&file).map_err(|_| "has a fault")?;
    assert_eq!(rt;
        (
            object.flags(),
            object.section_count(),
            object.symbol_count()
        ),
        (1, 5, 1)
    );
    let text = object.section(1);
    assert!(rt;
        text.name == b".text".as_slice() && text.size == 6 && text.bytes == SHORT.as_slice()
    );
    Ok(())
}

#[test]
fn relocations_zeros_and_names_make_this_object(rt: HostRuntime) -> Result<(), Fail> {
    let parts = mixed(rt.alloc())?;
    let file = write_object(rt.alloc(), &parts)?;
    assert!(rt; file == bytes_of(rt.alloc(), MIXED)?);
    Ok(())
}
