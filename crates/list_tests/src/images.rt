// Listings of images.

use elf32_read::image::Image;
use std::alloc::Global;
use std::test::Fail;
use zc_base::mem_map::MemMap;
use zc_list::list::list;

// A file's header, in words.
const HEADER: &str = "464C457F 00010101 00000000 00000000 00F30002 00000001 00010000
00000034 00000000 00000001 00200034 00280002 00000000";

// The bytes of words of eight hexadecimal digits, the low byte of each first.
fn bytes_of_words(alloc: Global, text: &str) -> Result<Vec<u8>, Fail> {
    let mut bytes = Vec::new(alloc);
    for digits in text.split_whitespace() {
        let mut number = u32::from_str_radix(digits, 16)?;
        for _ in 0..4 {
            bytes.push((number % 256) as u8)?;
            number /= 256;
        }
    }
    Ok(bytes)
}

// The file of an image with these bytes of code at 0x10000 and these of data at 0x100000, each followed by zeros up to
// its size.
fn file_of(alloc: Global, code: (&str, &str), data: (&str, &str)) -> Result<Vec<u8>, Fail> {
    let text = hex::decode(alloc, code.0.as_bytes())?;
    let rest = hex::decode(alloc, data.0.as_bytes())?;
    let (length, more) = (u32::try_from(text.len())?, u32::try_from(rest.len())?);
    let at = length.wrapping_add(116);
    let headers = format!(in alloc;
        "{HEADER} 00000001 00000074 00010000 00010000 {length:08x} {} 00000005 00000004
        00000001 {at:08x} 00100000 00100000 {more:08x} {} 00000006 00000001",
        code.1, data.1
    )?;
    let mut file = bytes_of_words(alloc, headers.as_str())?;
    file.extend_from_slice(&text)?;
    file.extend_from_slice(&rest)?;
    Ok(file)
}

// The listing of an image, by its code's bytes and size and its data's bytes and size.
fn listed(alloc: Global, given: &str) -> Result<Vec<u8>, Fail> {
    let (code, data) = given.split_once(", ").ok_or("no data")?;
    let code = code.split_once(" ").ok_or("no size")?;
    let data = data.split_once(" ").ok_or("no size")?;
    let file = file_of(alloc, code, data)?;
    let image = Image::read(file.as_slice(), MemMap::standard())?;
    Ok(list(alloc, &image)?)
}

// Each image, and then its listing: three instructions; what the tables don't have, a word that is cut off, and zeros; and
// rows of sixteen bytes. Examples of the tables' rows are in the tests of `instruction_text`.
const IMAGES: &str = "0d459308d00573000000 0000000a,  00000000
zcld list 1
segment 00010000 10 code
00010000 c.li x10 x0 3
00010002 addi x17 x0 93
00010006 ecall
segment 00100000 0 data
end
;73000000019c0f10000013 00000010, 68690a 00000003
zcld list 1
segment 00010000 16 code
00010000 ecall
00010004 .half 9c01
00010006 .word 0000100f
0001000a .byte 13
0001000b .zero 5
segment 00100000 3 data
00100000 .byte 68 69 0a
end
;0100130000 00000005, 000102030405060708090a0b0c0d0e0f10 00000013
zcld list 1
segment 00010000 5 code
00010000 c.addi x0 x0 0
00010002 .byte 13 00 00
segment 00100000 19 data
00100000 .byte 00 01 02 03 04 05 06 07 08 09 0a 0b 0c 0d 0e 0f
00100010 .byte 10
00100011 .zero 2
end
";

#[test]
fn images_are_listed(rt: HostRuntime) -> Result<(), Fail> {
    for row in IMAGES.split(';') {
        let (given, want) = row.split_once("\n").ok_or("no listing")?;
        let found = listed(rt.alloc(), given)?;
        assert_eq!(&rt; found.as_slice(), want.as_bytes(), "{row}");
    }
    Ok(())
}
