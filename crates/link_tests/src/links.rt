// An object with a relocation of each kind, linked.

use crate::objects::bytes_of;
use psabi_sym::objects::Objects;
use std::alloc::Global;
use std::process::Abort;
use std::test::Fail;
use zc_base::link_options::LinkOptions;
use zc_base::mem_map::MemMap;
use zc_link::linked::Linked;
use zc_link::plain::link_plain;
use zc_link::zc::link_zc;

// By GNU as 2.40 (`-march=rv32im_zicsr -mabi=ilp32 -mrelax`), without its attributes:
//
//     _start: lui a0,%hi(value); lw a1,%lo(value)(a0); beq a1,zero,1f
//     1: auipc a2,%pcrel_hi(value); sw a1,%pcrel_lo(1b)(a2); call f; .balign 16
//     f: ret; j f; .word f; csrrw x0,0x17,t0
//     .data
//     value: .word f; .word 7
const OBJECT: &str = "
7f454c46 01010100 00000000 00000000 0100f300 01000000 00000000 00000000 64020000 00000000 34000000
00002800 09000800 00000000 00000000 00000000 37050000 83250500 63820500 17060000 2320b600 97000000
e7800000 13000000 13000000 13000000 67800000 6ff0dfff 00000000 73907201 00000000 00000000 00000000
07000000 00000000 00000000 00000000 00000000 00000000 00000000 00000000 03000100 00000000 00000000
00000000 03000300 00000000 00000000 00000000 03000500 01000000 00000000 00000000 00000100 23000000
00000000 00000000 00000300 29000000 28000000 00000000 00000100 2b000000 30000000 00000000 00000100
2e000000 34000000 00000000 00000100 31000000 0c000000 00000000 00000100 37000000 00000000 00000000
10000100 00247872 76333269 3270315f 6d327030 5f7a6963 73723270 305f7a6d 6d756c31 70300076 616c7565
00660024 64002478 002e4c31 0231005f 73746172 74000000 00000000 1a050000 00000000 00000000 33000000
00000000 04000000 1b050000 00000000 04000000 33000000 00000000 08000000 10090000 00000000 0c000000
17050000 00000000 0c000000 33000000 00000000 10000000 19090000 00000000 10000000 33000000 00000000
14000000 13060000 00000000 14000000 33000000 00000000 1c000000 2b000000 0c000000 2c000000 11060000
00000000 30000000 01060000 00000000 00000000 01060000 00000000 002e7379 6d746162 002e7374 72746162
002e7368 73747274 6162002e 72656c61 2e746578 74002e72 656c612e 64617461 002e6273 73000000 00000000
00000000 00000000 00000000 00000000 00000000 00000000 00000000 00000000 00000000 20000000 01000000
06000000 00000000 40000000 40000000 00000000 00000000 10000000 00000000 1b000000 04000000 40000000
00000000 78010000 a8000000 06000000 01000000 04000000 0c000000 2b000000 01000000 03000000 00000000
80000000 08000000 00000000 00000000 01000000 00000000 26000000 04000000 40000000 00000000 20020000
0c000000 06000000 03000000 04000000 0c000000 31000000 08000000 03000000 00000000 88000000 00000000
00000000 00000000 01000000 00000000 01000000 02000000 00000000 00000000 88000000 b0000000 07000000
0a000000 04000000 10000000 09000000 03000000 00000000 00000000 38010000 3e000000 00000000 00000000
01000000 00000000 11000000 03000000 00000000 00000000 2c020000 36000000 00000000 00000000 01000000
00000000
";

// The bytes under the standard memory map: `f` is at 0x10020, and `value` at 0x100000. The padding is one word. Data
// comes after it.
const PLAIN: &str = "
37051000 83250500 63820500 17060f00 232ab6fe 97000000 e780c000 13000000 67800000 6ff0dfff 20000100
73907201 00000000 00000000
20000100 07000000 00000000 00000000
";

// By GNU as 2.40 (`-march=rv32imc_zicsr`), of `lui a0,0x100; c.lw a1,0(a0); c.beqz a1,.+2; auipc a2,0xf0;
// sw a1,-8(a2); c.jal .+16; c.nop`, three `addi x0,x0,0` in four bytes each, `c.jr ra; c.j .-2; .word 0x10020;
// csrrw x0,0x17,t0` and two words of 0: `f` is at 0x10020 again, after 14 bytes of padding.
const SMALL: &str = "
37051000 0c4189c1 17060f00 232cb6fe 01280100 13000000 13000000 13000000 8280fdbf 20000100 73907201
00000000 00000000
";

// The object, linked as it is or made smaller.
fn link(alloc: Global, is_smaller: bool) -> Result<Linked, Fail> {
    let mut files = Vec::new(alloc);
    files.push(bytes_of(alloc, OBJECT)?)?;
    let options = LinkOptions::of_map(alloc, MemMap::standard());
    let objects = Objects::gather(alloc, &files, &options)?;
    if is_smaller {
        Ok(link_zc(alloc, objects)?)
    } else {
        Ok(link_plain(alloc, objects)?)
    }
}

// How many bytes of text, items and short ones a plain link and this one have, and the flags.
fn counts_text(alloc: Global, linked: &Linked) -> Result<String, Fail> {
    let (plain, zc) = (linked.plain, linked.zc);
    let before = format!(in alloc; "{} {} {}", plain.text, plain.items, plain.short)?;
    let after = format!(in alloc; "{} {} {}", zc.text, zc.items, zc.short)?;
    let flags = linked.elf.get(36..40).ok_or("no flags")?;
    Ok(format!(in alloc; "{before}, {after}, {flags:?}")?)
}

// Checks that a link has these counts and flags, and these bytes after its headers.
fn expect<R: Abort + AllocGlobal>(
    rt: &R,
    is_smaller: bool,
    counts: &str,
    words: &str,
) -> Result<(), Fail> {
    let linked = link(rt.alloc(), is_smaller)?;
    let found = counts_text(rt.alloc(), &linked)?;
    assert_eq!(rt; found.as_str(), counts);
    let bytes = bytes_of(rt.alloc(), words)?;
    let end = bytes.len().saturating_add(116);
    assert!(rt;
        linked.elf.get(116..end) == Some(bytes.as_slice()),
        "{counts}"
    );
    Ok(())
}

#[test]
fn each_relocation_is_filled_in_and_each_item_has_its_shortest_form(
    rt: HostRuntime,
) -> Result<(), Fail> {
    expect(&rt, false, "56 13 0, 56 13 0, [0, 0, 0, 0]", PLAIN)?;
    expect(&rt, true, "56 13 0, 52 13 5, [1, 0, 0, 0]", SMALL)
}
