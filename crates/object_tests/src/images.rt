// An image made by hand: what it reads as, its first fault after changes, and that `elf32_write` writes the same bytes.

use crate::fixture::{bytes_of, changed};
use elf32_read::image::Image;
use elf32_read::image_fault::ImageFault;
use elf32_write::image_parts::ImageParts;
use elf32_write::write_image::write_image;
use std::alloc::{AllocError, Global};
use std::test::Fail;
use zc_base::mem_map::MemMap;
use zc_base::place::Place;

// Three instructions in ten bytes, with four places and no data: two program headers, at 52; the text, at 116; the
// places, at 128; the names of the sections, at 176; and the headers, from 220 on.
const IMAGE: &str = "
7f454c46010101 00*9
0200 f300 01000000 00000100 34000000 dc000000 01000000
3400 2000 0200 2800 0600 0500
01000000 74000000 00000100 00000100 0a000000 0a000000 05000000 04000000
01000000 80000000 00001000 00001000 00*8 06000000 04000000
0d459308 d0057300 00*4
00000100 00*4 00000100
00000100 04000000 02000100
00000100 08000000 06000100
00000100 0c000000 0a000100
00 =.text =.data =.bss =.zcld.places =.shstrtab 00*3
00*40
01000000 01000000 06000000 00000100 74000000 0a000000 00*8 04000000 00*4
07000000 01000000 03000000 00001000 80000000 00*12 04000000 00*4
0d000000 08000000 03000000 00001000 80000000 00*12 04000000 00*4
12000000 01000000 00*8 80000000 30000000 00*8 04000000 00*4
1f000000 03000000 00*8 b0000000 29000000 00*8 01000000 00*4";

// Each line: the number of the fault, or 0 for none, the changes, and what they make.
const FAULTS: &str = "0 as it is
0 36:11 both known flags
1 <51 a header that is cut off
1 36:2 an unknown flag
1 36:101 an unknown high flag
1 16:f30001 an object
1 40:210034 program headers of 33 bytes
1 44:290002 section headers of 41 bytes
0 44:290002 48:50000 section headers of 41 bytes, none
2 44:28000d program headers past the end
2 28:ffffffff program headers far out
2 <459 section headers that are cut off
2 48:50007 section headers past the end
2 56:274 text past the end
2 400:230 places past the end
0 360:1000000 zeros past the end
3 44:280000 no segment
3 72:9 text with less memory than bytes
3 76:7 text that can be written
3 60:0 text below its place
0 72:f0000 text up to the data
3 72:f0001 text into the data
3 72:ffffffff text over all memory
0 104:400000 data of 4 MiB
3 104:400001 data of 4 MiB and a byte
3 104:ffffffff data over all memory
3 92:f0000 data below its place
0 92:10004 108:5 an empty code segment in the text
3 92:10009 108:5 104:2 a code segment over the text's end
0 92:1000a 108:5 104:2 a code segment after the text
3 24:10001 an odd entry
0 24:1000a the entry at the text's end
3 24:1000c the entry past the text's end
4 48:60006 the names in no section
4 48:40006 the names in no STRTAB
4 380:29 a name past the table
0 380:28 an empty name
4 340:12 two lists of places
4 384:8 a list without content
4 400:2f a list with a part of an entry
4 144:0 the same place twice
4 136:0 an address below the text
4 136:200000 an address above the data's start
0 172:100000 an address at the data
4 172:100001 an address past it";

fn fault_of(bytes: &[u8]) -> u32 {
    fault_in(MemMap::standard(), bytes)
}

fn fault_in(map: MemMap, bytes: &[u8]) -> u32 {
    match Image::read(bytes, map) {
        Ok(_) => 0,
        Err(fault) => fault.number(),
    }
}

#[test]
fn the_first_fault_of_an_image_is_numbered(rt: HostRuntime) -> Result<(), Fail> {
    for line in FAULTS.lines() {
        let bytes = changed(rt.alloc(), IMAGE, line)?;
        let (fault, _) = line.split_once(" ").ok_or("no fault")?;
        assert_eq!(rt; fault_of(&bytes), fault.parse::<u32>()?, "{line}");
    }
    assert_eq!(rt; bytes_of(rt.alloc(), IMAGE)?.len(), 460);
    let zeros = vec![in rt.alloc(); 0; 0x80_0001]?;
    assert_eq!(rt; (fault_of(&zeros), fault_of(&zeros[1..])), (5, 1));
    Ok(())
}

// Each line: the number of the fault, or 0 for none, where the stack begins in the standard map, the changes, and what
// they make.
const ROOM: &str = "0 100000 104:0 no data, and the stack where they would begin
3 100000 104:1 a byte of data there
0 100010 104:10 data up to the stack
3 100010 104:11 data into the stack
0 4ffff0 104:3ffff0 data up to the stack, 16 bytes fewer than 4 MiB
3 4ffff0 104:3ffff1 and a byte more
0 500010 104:400000 data of 4 MiB
3 500010 104:400001 data of 4 MiB and a byte, below the stack";

#[test]
fn data_of_an_image_lie_below_the_stack(rt: HostRuntime) -> Result<(), Fail> {
    for line in ROOM.lines() {
        let (fault, rest) = line.split_once(" ").ok_or("no fault")?;
        let (low, changes) = rest.split_once(" ").ok_or("no changes")?;
        let mut map = MemMap::standard();
        map.stack_low = u32::from_str_radix(low, 16)?;
        let bytes = changed(rt.alloc(), IMAGE, changes)?;
        assert_eq!(rt; fault_in(map, &bytes), fault.parse::<u32>()?, "{line}");
    }
    Ok(())
}

// What the image says: where it starts, and how many segments and places it has; of a segment its address, its size,
// whether it is code, and its bytes; and of each place the object, the section, the offset and the address.
const PARTS: &str = "counts = 10000 2 4
segment 0 = 10000 10 true [13, 69, 147, 8, 208, 5, 115, 0, 0, 0]
segment 1 = 100000 0 false []
places = 0:1:0 10000; 0:1:4 10002; 0:1:8 10006; 0:1:12 1000a;";

fn segment_text(alloc: Global, image: &Image, i: u32) -> Result<String, Fail> {
    if image.segment_count() <= i {
        return Err("no segment".into());
    }
    let s = image.segment(i);
    Ok(format!(in alloc; "{:x} {} {} {:?}", s.at, s.size, s.code, s.bytes)?)
}

fn places_text(alloc: Global, image: &Image) -> Result<String, AllocError> {
    let mut text = String::new(alloc);
    for i in 0..image.place_count() {
        let (p, address) = image.place(i);
        let place = format!(in alloc; "{}:{}:{} {address:x}; ", p.object, p.section, p.offset)?;
        text.push_str(place.as_str())?;
    }
    Ok(text)
}

fn told(alloc: Global, image: &Image, question: &str) -> Result<String, Fail> {
    let (word, number) = question.split_once(" ").unwrap_or((question, ""));
    match word {
        "segment" => segment_text(alloc, image, number.parse::<u32>()?),
        "places" => Ok(places_text(alloc, image)?),
        _ => {
            let (entry, segments) = (image.entry(), image.segment_count());
            Ok(format!(in alloc; "{entry:x} {segments} {}", image.place_count())?)
        }
    }
}

#[test]
fn an_image_has_its_segments_and_places(rt: HostRuntime) -> Result<(), Fail> {
    let bytes = bytes_of(rt.alloc(), IMAGE)?;
    let image = Image::read(&bytes, MemMap::standard())?;
    for line in PARTS.lines() {
        let (question, want) = line.split_once(" = ").ok_or("no answer")?;
        let text = told(rt.alloc(), &image, question)?;
        assert_eq!(rt; text.as_str().trim(), want.trim(), "{line}");
    }
    Ok(())
}

// li a0,3 in two bytes, and addi a7,x0,93 and ecall in four each.
const TEXT: &str = "0d45 9308d005 73000000";

// The offset of each place in section 1 of the object, and its address.
const PLACES: &str = "0 10000
4 10002
8 10006
12 1000a";

fn places(alloc: Global) -> Result<Vec<(Place, u32)>, Fail> {
    let mut places = Vec::new(alloc);
    for line in PLACES.lines() {
        let (offset, address) = line.split_once(" ").ok_or("no address")?;
        let place = Place {
            object: 0,
            section: 1,
            offset: offset.parse::<u32>()?,
        };
        places.push((place, u32::from_str_radix(address, 16)?))?;
    }
    Ok(places)
}

#[test]
fn an_image_is_written_from_its_parts(rt: HostRuntime) -> Result<(), Fail> {
    let (text, places) = (bytes_of(rt.alloc(), TEXT)?, places(rt.alloc())?);
    assert!(rt; text.len() == 10 && places.len() == 4);
    let parts = ImageParts {
        entry: 0x10000,
        flags: 1,
        text_at: 0x10000,
        text,
        data_at: 0x0010_0000,
        data_bytes: Vec::new(rt.alloc()),
        zero: 0,
        places,
    };
    let file = write_image(rt.alloc(), &parts)?;
    assert!(rt; file == bytes_of(rt.alloc(), IMAGE)?);
    Ok(())
}
