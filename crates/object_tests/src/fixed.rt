// Sections of code that names make fixed.

use crate::fixture::changed;
use psabi_sym::link_fault::LinkFault;
use psabi_sym::objects::Objects;
use std::alloc::{AllocError, Global};
use std::test::Fail;
use zc_base::link_options::LinkOptions;
use zc_base::mem_map::MemMap;

// Code in sections 1 to 4, which are `.v`, `.v.a`, `.vx` and `.w`. Then data named `.v`, and code of that name that is
// dropped. The name of section 2 is at 172: 6 makes it `.a`, the end of its name.
const OBJECT: &str = "
7f454c46010101 00*9
0100 f300 01000000 00*8 5c000000 00*4
3400 00*4 2800 0800 0700
13000000*6
00 =.v =.v.a =.vx =.w
00*40
01000000 01000000 06000000 00*4 34000000 04000000 00*8 04000000 00*4
04000000 01000000 06000000 00*4 38000000 04000000 00*8 04000000 00*4
09000000 01000000 06000000 00*4 3c000000 04000000 00*8 04000000 00*4
0d000000 01000000 06000000 00*4 40000000 04000000 00*8 04000000 00*4
01000000 01000000 03000000 00*4 44000000 04000000 00*8 04000000 00*4
01000000 01000000 04000000 00*4 48000000 04000000 00*8 04000000 00*4
00*4 03000000 00*8 4c000000 10000000 00*8 01000000 00*4";

// Names with commas between; none in an empty text.
fn names_of(alloc: Global, text: &str) -> Result<Vec<Vec<u8>>, AllocError> {
    let mut names = Vec::new(alloc);
    if !text.is_empty() {
        for name in text.split(',') {
            names.push(Vec::from_slice(alloc, name.as_bytes())?)?;
        }
    }
    Ok(names)
}

// Two objects, of which the first is changed, with the options of a link.
fn gathered(alloc: Global, names: &str, changes: &str) -> Result<Objects, Fail> {
    let options = LinkOptions::new(MemMap::standard(), names_of(alloc, names)?);
    let mut files = Vec::new(alloc);
    files.push(changed(alloc, OBJECT, changes)?)?;
    files.push(changed(alloc, OBJECT, "")?)?;
    match Objects::gather(alloc, &files, &options) {
        Ok(objects) => Ok(objects),
        Err(LinkFault::Object { fault, .. }) => Err(fault.name().into()),
        Err(LinkFault::OutOfMemory) => Err(AllocError.into()),
    }
}

// How many names there are, whether sections are fixed that there aren't, and which are fixed.
fn fixed_text(alloc: Global, objects: &Objects) -> Result<String, AllocError> {
    let count = objects.fixed_names().len();
    let (past, beyond) = (objects.is_fixed(0, 8), objects.is_fixed(2, 1));
    let mut text = format!(in alloc; "{count} {past} {beyond}")?;
    for k in 0..16_u16 {
        let (object, section) = (k / 8, k % 8);
        if objects.is_fixed(object, section) {
            text.push_str(format!(in alloc; " {object}:{section}")?.as_str())?;
        }
    }
    Ok(text)
}

// The names, the first object's changes, and what is fixed. A name with a zero is no section's.
const FIXED: &str = " @ = 0 false false
.v @ = 1 false false 0:1 0:2 1:1 1:2
.v @ 172:6 = 1 false false 0:1 1:1 1:2
.a @ 172:6 = 1 false false 0:2
.v.a @ = 1 false false 0:2 1:2
.v. @ = 1 false false
.vx @ = 1 false false 0:3 1:3
. @ = 1 false false
v @ = 1 false false
.w,.v.b @ = 2 false false 0:4 1:4
.b,.v.a,.w @ = 3 false false 0:2 0:4 1:2 1:4
.v\0 @ = 1 false false
.v\0.v.a @ = 1 false false";

#[test]
fn names_make_code_fixed_that_has_them_or_a_dot_behind(rt: HostRuntime) -> Result<(), Fail> {
    for line in FIXED.lines() {
        let (given, want) = line.split_once(" = ").ok_or("no answer")?;
        let (names, changes) = given.split_once(" @").ok_or("no changes")?;
        let objects = gathered(rt.alloc(), names, changes)?;
        let text = fixed_text(rt.alloc(), &objects)?;
        assert_eq!(rt; text.as_str(), want, "{line}");
    }
    Ok(())
}
