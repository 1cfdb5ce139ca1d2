// Objects gathered by hand.

ghost use Rattle.std.specs.Prelude.{IfOk};
ghost use Rattle.zc_base.specs.MemMap.{IsMap};

use crate::fixture::{bytes_of, changed};
use psabi_sym::link_fault::LinkFault;
use psabi_sym::objects::Objects;
use psabi_sym::target::Target;
use std::alloc::{AllocError, Global};
use std::process::Abort;
use std::test::Fail;
use zc_base::link_options::LinkOptions;
use zc_base::mem_map::MemMap;

// An object without sections: a header alone.
const HEADER: &str = "7f454c46010101 00*9
0100 f300 01000000 00*12 10000000
3400 00*4 2800 00*4";

// Code with `f` in it, and data of each class, where `l` is local and `w` weak; `abs` is absolute, `d` is in
// a dropped section, `c` is common, and `u`, weak, `_end` and `g` are undefined. Then the sections.
const FIRST: &str = "
7f454c46010101 00*9
0100 f300 01000000 00*8 74010000 00*4
3400 00*4 2800 0b00 0a00
13000000 13000000 61626300 64656667 68690000
00*16
01000000 02000000 00*4 01 00 0200
03000000 04000000 00*4 12 00 0100
05000000 01000000 00*4 21 00 0300
07000000 04000000 0a000000 11 00 f2ff
09000000 00*8 20 00*3
0b000000 34120000 00*4 10 00 f1ff
0f000000 00*8 11 00 0700
11000000 00*8 10 00*3
16000000 00*8 10 00*3
00*12 03 00 0300
00*12 03 00 0400
00*12 03 00 0500
00*12 03 00 0600
00 =l =f =w =c =u =abs =d =_end =g
00 =.text =.rodata =.data =.sdata.x =.sbss =.bss =.comment 0000
00*40
01000000 01000000 06000000 00*4 34000000 08000000 00*8 04000000 00*4
07000000 01000000 02000000 00*4 3c000000 03000000 00*8 01000000 00*4
0f000000 01000000 03000000 00*4 40000000 04000000 00*8 08000000 00*4
15000000 01000000 03000000 00*4 44000000 02000000 00*8 02000000 00*4
1e000000 08000000 03000000 00*4 46000000 05000000 00*8 04000000 00*4
24000000 08000000 03000000 00*4 46000000 06000000 00*8 04000000 00*4
29000000 01000000 00*8 48000000 00*12 01000000 00*4
00*4 02000000 00*8 48000000 e0000000 09000000 00*4 04000000 10000000
00*4 03000000 00*8 28010000 18000000 00*8 01000000 00*4
00*4 03000000 00*8 40010000 32000000 00*8 01000000 00*4";

// `k` is local and common, `f` undefined, `w` strong, and `c` common. Then its section of data.
const SECOND: &str = "
7f454c46010101 00*9
0100 f300 01000000 00*8 bc000000 00*4
3400 00*4 2800 0600 0500
13000000 6a6b6c6d 6e000000
00*16
01000000 01000000 01000000 01 00 f2ff
03000000 00*8 10 00*3
05000000 03000000 00*4 11 00 0200
07000000 08000000 04000000 11 00 f2ff
00*12 03 00 0200
00 =k =f =w =c 00*3
00 =.text =.rodata 00
00*40
01000000 01000000 06000000 00*4 34000000 04000000 00*8 04000000 00*4
07000000 01000000 02000000 00*4 38000000 05000000 00*8 04000000 00*4
00*4 02000000 00*8 40000000 60000000 04000000 00*4 04000000 10000000
00*4 03000000 00*8 a0000000 09000000 00*8 01000000 00*4
00*4 03000000 00*8 ac000000 0f000000 00*8 01000000 00*4";

// Code that calls `g`, which is undefined: its symbol is at 84, and the type of the symbol at 96. The size of the
// zeroed data is at 216.
const CALLER: &str = "
7f454c46010101 00*9
0100 f300 01000000 00*8 74000000 00*4
3400 00*4 2800 0700 0600
6f000000
00*4 11010000 00*4
00*16
01000000 00*8 10 00*3
00 =g 00
00 =.text =.bss
00*40
01000000 01000000 06000000 00*4 34000000 04000000 00*8 04000000 00*4
07000000 08000000 03000000 00*4 38000000 00*12 01000000 00*4
00*4 04000000 40000000 00*4 38000000 0c000000 04000000 01000000 04000000 0c000000
00*4 02000000 00*8 44000000 20000000 05000000 00*4 04000000 10000000
00*4 03000000 00*8 64000000 03000000 00*8 01000000 00*4
00*4 03000000 00*8 68000000 0c000000 00*8 01000000 00*4";

// Symbols that are absolute, with the values 1 to 7, whose names are the last 130, 129, 128, 65, 64, 63 and 1 bytes of
// one text.
const ENDS: &str = "
7f454c46010101 00*9
0100 f300 01000000 00*8 38010000 00*4
3400 00*4 2800 0300 0200
00*16
01000000 01000000 00*4 10 00 f1ff
02000000 02000000 00*4 10 00 f1ff
03000000 03000000 00*4 10 00 f1ff
42000000 04000000 00*4 10 00 f1ff
43000000 05000000 00*4 10 00 f1ff
44000000 06000000 00*4 10 00 f1ff
82000000 07000000 00*4 10 00 f1ff
00 78*130 00
00*40
00*4 02000000 00*8 34000000 80000000 02000000 01000000 04000000 10000000
00*4 03000000 00*8 b4000000 84000000 00*8 01000000 00*4";

// Weak symbols that aren't defined, with names in a table where the same text is a byte later. The table begins with
// another byte, which the first name has too.
const LATER_ENDS: &str = "
7f454c46010101 00*9
0100 f300 01000000 00*8 99010000 00*4
3400 00*4 2800 0300 0200
00*16
01000000 00*8 20 00*3
02000000 01000000 00*4 20 00*3
03000000 02000000 00*4 20 00*3
04000000 03000000 00*4 20 00*3
05000000 00*8 20 00*3
42000000 00*8 20 00*3
43000000 04000000 00*4 20 00*3
44000000 05000000 00*4 20 00*3
45000000 06000000 00*4 20 00*3
46000000 00*8 20 00*3
82000000 00*8 20 00*3
83000000 07000000 00*4 20 00*3
84000000 00*8 20 00*3
00 79 78*130 00
00*40
00*4 02000000 00*8 34000000 e0000000 02000000 01000000 04000000 10000000
00*4 03000000 00*8 14010000 85000000 00*8 01000000 00*4";

// Four sections named `.shared`: code, data, zeroed data, and one without ALLOC, which is dropped. Then data named
// `.shared.x`.
const SHARED: &str = "
7f454c46010101 00*9
0100 f300 01000000 00*8 58000000 00*4
3400 00*4 2800 0700 0600
13000000 61626364 65000000 66670000
00 =.shared =.shared.x 00
00*40
01000000 01000000 06000000 00*4 34000000 04000000 00*8 04000000 00*4
01000000 01000000 03000000 00*4 38000000 05000000 00*8 04000000 00*4
01000000 08000000 03000000 00*4 40000000 06000000 00*8 08000000 00*4
01000000 01000000 00*8 40000000 02000000 00*8 01000000 00*4
09000000 01000000 03000000 00*4 40000000 02000000 00*8 02000000 00*4
00*4 03000000 00*8 44000000 13000000 00*8 01000000 00*4";

// Code of 262,144 bytes. The alignment of the code is at 262276, and its size at 262264.
const LONG: &str = "
7f454c46010101 00*9
0100 f300 01000000 00*8 3c000400 00*4
3400 00*4 2800 0300 0200
0000000000000000*32768
00 =.text 00
00*40
01000000 01000000 06000000 00*4 34000000 00000400 00*8 04000000 00*4
00*4 03000000 00*8 34000400 08000000 00*8 01000000 00*4";

// The objects of a list, each with its changes, with `;` between them.
fn files_of(alloc: Global, list: &str) -> Result<Vec<Vec<u8>>, Fail> {
    let mut files = Vec::new(alloc);
    for text in list.split(';') {
        let (name, changes) = text.split_once(" ").unwrap_or((text, ""));
        let object = match name {
            "first" => FIRST,
            "second" => SECOND,
            "caller" => CALLER,
            "header" => HEADER,
            "ends" => ENDS,
            "later" => LATER_ENDS,
            "shared" => SHARED,
            "long" => LONG,
            "empty" => "",
            _ => return Err("no object".into()),
        };
        files.push(changed(alloc, object, changes)?)?;
    }
    Ok(files)
}

fn target_text(alloc: Global, target: Target) -> Result<String, AllocError> {
    match target {
        Target::Code(at) => format!(in alloc; "code {} {} {}", at.object, at.section, at.offset),
        Target::Number(value) => format!(in alloc; "number {value:x}"),
        Target::Absent(addend) => format!(in alloc; "absent {addend}"),
        Target::Nowhere => String::from_str(alloc, "nowhere"),
    }
}

// The target of a symbol, by three numbers: the object's index, the symbol's own, and the addend.
fn target_of(objects: &Objects, numbers: &str) -> Result<Target, Fail> {
    let (object, rest) = numbers.split_once(" ").ok_or("no symbol")?;
    let (symbol, addend) = rest.split_once(" ").ok_or("no addend")?;
    Ok(objects.resolve(
        object.parse::<u16>()?,
        symbol.parse::<u32>()?,
        addend.parse::<i32>()?,
    ))
}

// Where the data end in the file and in memory, and their bytes in the file.
fn data_text(alloc: Global, objects: &Objects) -> Result<String, Fail> {
    let (file_end, end) = (objects.data_file_end(), objects.data_end());
    let bytes = objects.data_contents(alloc)?;
    let digits = hex::encode(alloc, bytes.as_slice())?;
    Ok(format!(in alloc; "{file_end:x} {end:x} {digits}")?)
}

// How many sections are shared, and the address and size of each.
fn shared_text(alloc: Global, objects: &Objects) -> Result<String, AllocError> {
    let ranges = objects.shared(alloc)?;
    let mut text = format!(in alloc; "{}", ranges.len())?;
    for range in &ranges {
        let (at, size) = *range;
        text.push_str(format!(in alloc; " {at:x}:{size}")?.as_str())?;
    }
    Ok(text)
}

// The flags of each object, and whether it is compressed, as the object says and as the list of objects says.
fn flags_text(alloc: Global, objects: &Objects) -> Result<String, AllocError> {
    let mut text = String::new(alloc);
    for i in 0..objects.object_count() {
        let object = objects.object(i as u16);
        let (flags, own, among) = (
            object.flags(),
            object.is_compressed(),
            objects.compressed(i as u16),
        );
        text.push_str(format!(in alloc; "{flags:x} {own} {among}; ")?.as_str())?;
    }
    Ok(text)
}

// How many objects there are, whether the map is the standard one, and the number that a next section would have.
fn counts_text(alloc: Global, objects: &Objects) -> Result<String, AllocError> {
    let count = objects.object_count();
    let is_standard = objects.map() == MemMap::standard();
    let after = objects.section_number(count as u16, 0);
    format!(in alloc; "{count} {is_standard} {after:?}")
}

// For each section of the first object, which section has its relocations, and whether it is code.
fn relas_text(alloc: Global, objects: &Objects) -> Result<String, Fail> {
    if objects.object_count() == 0 {
        return Err("no object".into());
    }
    let mut text = String::new(alloc);
    for section in 0..objects.object(0).section_count() as u16 {
        let (rela, is_code) = (objects.rela_of(0, section), objects.is_code(0, section));
        text.push_str(format!(in alloc; "{rela:?} {is_code}; ")?.as_str())?;
    }
    Ok(text)
}

// A section by its number among all: its object and its index there, its number by these two, its type, alignment, size
// and bytes, whether it is code, whether its object is compressed, and the offsets of its relocations.
fn section_text(alloc: Global, objects: &Objects, number: u32) -> Result<String, Fail> {
    if objects.section_count() <= number {
        return Err("no section".into());
    }
    let s = objects.section(number);
    let (object, index) = (s.object(), s.index());
    let found = objects.section_number(object, index);
    let head = format!(in alloc; "{object}:{index} {found:?} {} {}", s.kind(), s.align())?;
    let (length, is_code, compressed) = (s.bytes().len(), s.is_code(), s.is_compressed());
    let mut text = format!(in alloc; "{head} {} {length} {is_code} {compressed}", s.size())?;
    for k in 0..s.reloc_count() {
        let offset = s.reloc(k).offset;
        text.push_str(format!(in alloc; " {offset}")?.as_str())?;
    }
    Ok(text)
}

// A fault with its object, and the symbol that it names.
fn fault_text(alloc: Global, fault: LinkFault) -> Result<String, AllocError> {
    let LinkFault::Object { index, fault } = fault else {
        return Err(AllocError);
    };
    match fault.symbol() {
        None => format!(in alloc; "{index} {}", fault.name()),
        Some(symbol) => format!(in alloc; "{index} {} {symbol}", fault.name()),
    }
}

// A question about objects: the target of a symbol, or what one of the words below means.
fn told(alloc: Global, objects: &Objects, question: &str) -> Result<String, Fail> {
    let (word, number) = question.split_once(" ").unwrap_or((question, ""));
    match word {
        "linked" => Ok(String::from_str(alloc, "linked")?),
        "start" => Ok(target_text(alloc, objects.start())?),
        "data" => data_text(alloc, objects),
        "shared" => Ok(shared_text(alloc, objects)?),
        "flags" => Ok(flags_text(alloc, objects)?),
        "counts" => Ok(counts_text(alloc, objects)?),
        "relocated" => relas_text(alloc, objects),
        "section" => section_text(alloc, objects, number.parse::<u32>()?),
        _ => Ok(target_text(alloc, target_of(objects, question)?)?),
    }
}

// The fault of objects in a map, or the answer to a question about them.
fn answer(alloc: Global, map: MemMap, list: &str, question: &str) -> Result<String, Fail>
    requires { IsMap map }
{
    let files = files_of(alloc, list)?;
    match Objects::gather(alloc, &files, &LinkOptions::of_map(alloc, map)) {
        Ok(objects) => told(alloc, &objects, question),
        Err(fault) => Ok(fault_text(alloc, fault)?),
    }
}

// Checks each line, after the same text: the objects, a question about them, and the expected answer.
fn expect<R: Abort + AllocGlobal>(rt: &R, before: &str, lines: &str) -> Result<(), Fail> {
    for line in lines.lines() {
        let row = format!(in rt.alloc(); "{before}{line}")?;
        let (given, want) = row.as_str().split_once(" = ").ok_or("no answer")?;
        let (list, question) = given.split_once(" @ ").ok_or("no question")?;
        let text = answer(rt.alloc(), MemMap::standard(), list, question)?;
        assert_eq!(rt; text.as_str().trim(), want.trim(), "{line}");
    }
    Ok(())
}

const TARGETS: &str = "0 0 5 = number 5
0 1 -1 = number 100001
0 2 0 = code 0 1 4
0 2 4 = code 0 1 8
0 2 5 = nowhere
0 2 -5 = nowhere
1 2 -4 = code 0 1 0
0 3 0 = number 100007
0 4 1 = number 100051
1 4 0 = number 100050
0 5 7 = absent 7
0 6 -4661 = number ffffffff
0 7 0 = nowhere
0 8 0 = number 10005b
0 9 0 = nowhere
1 1 0 = number 10005a";

#[test]
fn symbols_lead_to_code_numbers_and_nowhere(rt: HostRuntime) -> Result<(), Fail> {
    expect(&rt, "first;second @ ", TARGETS)
}

// `abc` and `jklmn` are read only, `defg` is data, and `hi` small data.
const DATA: &str = "1 5 0 = number 100004
0 10 0 = number 100010
0 11 0 = number 100020
0 12 0 = number 100030
0 13 0 = number 100040
data = 100022 10005b 616263006a6b6c6d6e00000000000000646566670000000000000000000000006869";

#[test]
fn data_stands_class_after_class(rt: HostRuntime) -> Result<(), Fail> {
    expect(&rt, "first;second @ ", DATA)
}

// In the last, the name of the section of data begins a byte later, so it is `shared`.
const SHARED_RANGES: &str = "first;second @ shared = 0
shared @ shared = 2 100000:5 100010:6
shared;first;shared @ shared = 4 100010:5 100050:6 10001c:5 100060:6
shared 168:2 @ shared = 1 100010:6";

#[test]
fn shared_sections_are_data_of_that_very_name(rt: HostRuntime) -> Result<(), Fail> {
    expect(&rt, "", SHARED_RANGES)
}

// Each name of the second object is a name of the first, except the whole text, two names that aren't defined, and the
// empty name.
const NAMES: &str = "1 1 0 = absent 0
1 2 0 = number 1
1 3 0 = number 2
1 4 0 = number 3
1 5 0 = absent 0
1 6 0 = absent 0
1 7 0 = number 4
1 8 0 = number 5
1 9 0 = number 6
1 10 0 = absent 0
1 11 0 = absent 0
1 12 0 = number 7
1 13 0 = absent 0";

#[test]
fn names_that_end_alike_are_told_apart(rt: HostRuntime) -> Result<(), Fail> {
    expect(&rt, "ends;later @ ", NAMES)
}

// In the names of symbols, `_start` begins at 11, where `abs` was, and `t` at 16.
const STARTS: &str = " @ start = number 1234
 104:b 168:10 @ start = code 0 1 4
 120:b 168:10 @ start = number 100011
 168:10 184:b @ start = nowhere
 168:10 @ start = nowhere";

#[test]
fn a_program_starts_where_its_name_leads(rt: HostRuntime) -> Result<(), Fail> {
    expect(&rt, "first 307:6174735f 310:747261", STARTS)
}

// In the last two the data are as large as they may be, and a byte larger.
const FAULTS: &str = "header @ linked = linked
header;empty;empty @ linked = 1 NotElf
caller;first @ linked = 0 Undefined 1
caller;first;first @ linked = 2 Duplicate 2
caller 216:3fff9f @ linked = 0 Undefined 1
caller 216:3fffa0 @ linked = 0 TooLarge";

#[test]
fn the_first_fault_and_its_object_are_named(rt: HostRuntime) -> Result<(), Fail> {
    expect(&rt, "", FAULTS)
}

const RELOCATED: &str = "counts = 2 true None
flags = 0 false false; 10 false false;
relocated = None false; Some(3) true; None false; None false; None false; None false; None false;";

#[test]
fn relocations_stand_in_the_section_that_names_theirs(rt: HostRuntime) -> Result<(), Fail> {
    expect(&rt, "caller 96:20;header @ ", RELOCATED)
}

// The header has no section. The second object has six.
const SECTIONS: &str = "header;caller 96:20 @ counts = 2 true None
header;caller 96:20 @ section 0 = 1:0 Some(0) 0 0 0 0 false false
header;caller 96:20 @ section 1 = 1:1 Some(1) 1 4 4 4 true false 0
header;caller 96:20 @ section 2 = 1:2 Some(2) 8 1 0 0 false false
header;caller 96:20 @ section 3 = 1:3 Some(3) 4 4 12 12 false false
header;caller 96:20 @ section 4 = 1:4 Some(4) 2 4 32 32 false false
header;caller 96:20 @ section 5 = 1:5 Some(5) 3 1 3 3 false false
header;caller 96:20 @ section 6 = 1:6 Some(6) 3 1 12 12 false false
second;caller 96:20 @ section 2 = 0:2 Some(2) 1 4 5 5 false false
second;caller 96:20 @ section 7 = 1:1 Some(7) 1 4 4 4 true false 0
caller 36:11 96:20;caller 96:20 @ section 1 = 0:1 Some(1) 1 4 4 4 true true 0
caller 36:11 96:20;caller 96:20 @ section 2 = 0:2 Some(2) 8 1 0 0 false true
caller 36:11 96:20;caller 96:20 @ section 8 = 1:1 Some(8) 1 4 4 4 true false 0";

#[test]
fn sections_are_numbered_through_all_objects(rt: HostRuntime) -> Result<(), Fail> {
    expect(&rt, "", SECTIONS)
}

const FLAGS: &str = "header 36:0;header 36:1 @ flags = 0 false false; 1 true true;
header;header 36:11 @ flags = 10 false false; 11 true true;";

#[test]
fn objects_with_rvc_among_their_flags_are_compressed(rt: HostRuntime) -> Result<(), Fail> {
    expect(&rt, "", FLAGS)
}

// The bytes of code and its alignments are 262,144 at most. Bytes of compressed objects count twice, but not their
// alignments and their data.
const SUMS: &str = "long 262264:3fffc @ linked = linked
long @ linked = 0 TooLarge
long 36:10 262264:20000 @ linked = linked
long 36:1 262264:1fffe @ linked = linked
long 36:1 262264:20000 @ linked = 0 TooLarge
long 36:11 262264:1fffe @ linked = linked
long 36:11 262264:20000 @ linked = 0 TooLarge
long 36:1 262264:1ff80 262276:100 @ linked = linked
long 36:1 262264:1ff82 262276:100 @ linked = 0 TooLarge
long 262264:1fffc;long 36:1 262264:fffe @ linked = linked
long 262264:1fffc;long 36:1 262264:10000 @ linked = 1 TooLarge
long 36:1 262264:fffe;long 262264:1fffc @ linked = linked
long 36:1 262264:fffe;long 262264:20000 @ linked = 1 TooLarge
caller 36:1 96:20 216:3fff9f @ linked = linked
caller 36:1 96:20 216:3fffa0 @ linked = 0 TooLarge";

#[test]
fn code_of_compressed_objects_counts_twice(rt: HostRuntime) -> Result<(), Fail> {
    expect(&rt, "", SUMS)
}

// The standard map with a stack that begins at an address.
fn map_with_stack(low: &str) -> Result<MemMap, Fail>
    ensures { IfOk result IsMap }
{
    let mut map = MemMap::standard();
    map.stack_low = u32::from_str_radix(low, 16)?;
    Ok(MemMap::checked(map).ok_or("no map")?)
}

// Each line: where the stack begins in the standard map, the objects, and what they come to. Data end at a multiple of
// 16, unless there are common symbols. Sums and names come first, and the first object is named, whosever data they are.
const ROOM: &str = "100000 caller 96:20 216:0 = linked
100000 caller 96:20 216:1 = 0 TooLarge
100010 caller 96:20 216:10 = linked
100010 caller 96:20 216:11 = 0 TooLarge
100010 header;caller 96:20 216:11 = 0 TooLarge
100050 first;second = 0 TooLarge
100060 first;second = linked
100010 caller 216:11 = 0 Undefined 1
100010 caller;first;first = 2 Duplicate 2
500000 caller 96:20 216:3fff9f = linked
500000 header;caller 96:20 216:3fffa0 = 1 TooLarge";

#[test]
fn data_that_end_above_the_start_of_the_stack_are_too_large(rt: HostRuntime) -> Result<(), Fail> {
    for line in ROOM.lines() {
        let (given, want) = line.split_once(" = ").ok_or("no answer")?;
        let (low, list) = given.split_once(" ").ok_or("no objects")?;
        let text = answer(rt.alloc(), map_with_stack(low)?, list, "linked")?;
        assert_eq!(rt; text.as_str(), want, "{line}");
    }
    Ok(())
}
