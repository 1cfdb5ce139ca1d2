// The generated objects: a hash of the lengths and bytes of their files (FNV-1a of 64 bits), which `models/made_load.py`
// prints too.

use load_maker::make_objects::make_objects;
use std::alloc::{AllocError, Global};
use std::test::Fail;

const OFFSET_BASIS: u64 = 0xcbf2_9ce4_8422_2325;

const PRIME: u64 = 0x100_0000_01b3;

fn mixed(hash: u64, bytes: &[u8]) -> u64 {
    let mut mixed = hash;
    for byte in bytes {
        mixed = (mixed ^ u64::from(*byte)).wrapping_mul(PRIME);
    }
    mixed
}

// How many objects are generated, and their hash; or why none are.
fn said_of(alloc: Global, number: u64, functions: u32) -> Result<String, AllocError> {
    let files = match make_objects(alloc, number, functions) {
        Ok(files) => files,
        Err(fault) => return format!(in alloc; "{fault}"),
    };
    let mut hash = OFFSET_BASIS;
    for file in &files {
        let length = file.len() as u64;
        hash = mixed(hash, &length.to_le_bytes()[..4]);
        hash = mixed(hash, file);
    }
    format!(in alloc; "{} objects, {hash:016x}", files.len())
}

// A number, and how many functions are made from it.
const MADE: &str = "5 0 = 1 objects, f420e298cead2ea0
7 1 = 2 objects, 827769d603f15832
7 8 = 2 objects, 9514e7db337d2900
7 9 = 3 objects, 7116a29e508d4060
7 300 = 39 objects, ff81f22585f0bf5c
0 17 = 4 objects, 67dc4f81e9c7cb81
18446744073709551615 40 = 6 objects, 79421e1a3780ff5d
123456789 1600 = 201 objects, 7c284ddb7a8bfce1
99 1599 = 201 objects, 60784479ae5b0893
99 1601 = too many functions
99 4294967295 = too many functions";

#[test]
fn objects_are_those_of_their_number(rt: HostRuntime) -> Result<(), Fail> {
    for row in MADE.lines() {
        let (given, want) = row.split_once(" = ").ok_or("no answer")?;
        let (number, functions) = given.split_once(' ').ok_or("no count")?;
        let number = number.parse::<u64>().map_err(|_| "no number")?;
        let functions = functions.parse::<u32>().map_err(|_| "no number")?;
        let found = said_of(rt.alloc(), number, functions)?;
        assert_eq!(rt; found.as_str(), want, "{row}");
    }
    Ok(())
}
