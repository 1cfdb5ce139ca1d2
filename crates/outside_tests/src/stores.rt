// What stores hold, and how calls are refused.
//
// These wrong bodies of `DiskStore` fail here: a `get` that drops a byte, or returns a file that is too long; a `put`
// that writes nothing, leaves its new file, ignores a refused creation, change of permissions, write, sync or
// renaming, returns Done or changes the old file after one, writes over a link or over the file that it put under
// another name, remembers names of files that are gone, or reports running out of memory as a fault. The proof refuses
// a body that ignores a short or refused write, or stops a read before the end; `scripts/check_program` tests
// permissions.

use crate::refusing::{CALLS, Refusing};
use std::alloc::{AllocError, Global};
use std::io::ErrorKind;
use std::os::unix::fs::symlink;
use std::process::Abort;
use std::test::Fail;
use std::{fs, process};
use zc_outside::disk_store::DiskStore;
use zc_outside::mem_store::MemStore;
use zc_outside::store::{Store, StoreFault};

fn fault_text(alloc: Global, fault: StoreFault) -> Result<String, Fail> {
    Ok(format!(in alloc; "{fault}")?)
}

// The bytes that a store gave, between bars.
fn given(alloc: Global, answer: Result<Vec<u8>, StoreFault>) -> Result<String, Fail> {
    match answer {
        Ok(bytes) => Ok(format!(in alloc; "|{}|", str::from_utf8(bytes.as_slice())?)?),
        Err(fault) => fault_text(alloc, fault),
    }
}

fn put(alloc: Global, answer: Result<(), StoreFault>) -> Result<String, Fail> {
    match answer {
        Ok(()) => Ok(String::from_str(alloc, "put")?),
        Err(fault) => fault_text(alloc, fault),
    }
}

// A name of the folder, unless it begins with a slash.
fn path_of(alloc: Global, folder: &str, name: &str) -> Result<String, AllocError> {
    if name.starts_with('/') {
        String::from_str(alloc, name)
    } else {
        format!(in alloc; "{folder}/{name}")
    }
}

// What a store returns for `get LIMIT NAME`, or for `put BYTES NAME` with bytes of one word.
fn answer<S: Store>(
    alloc: Global,
    store: &mut S,
    folder: &str,
    call: &str,
) -> Result<String, Fail> {
    let (kind, rest) = call.split_once(" ").ok_or("no call")?;
    let (value, name) = rest.split_once(" ").ok_or("no name")?;
    let path = path_of(alloc, folder, name)?;
    let path = path.as_str();
    match kind {
        "put" => put(alloc, store.put(path, value.as_bytes())),
        "get" => given(
            alloc,
            store.get(alloc, path, u32::from(value.parse::<u16>()?)),
        ),
        _ => Err("no call".into()),
    }
}

// Makes the calls of the lines, each of which should have the answer after its arrow.
fn expect_calls<R: Abort + AllocGlobal, S: Store>(
    rt: &R,
    store: &mut S,
    folder: &str,
    lines: &str,
) -> Result<(), Fail> {
    for line in lines.lines() {
        let (call, want) = line.split_once(" => ").ok_or("no arrow")?;
        let found = answer(rt.alloc(), store, folder, call)?;
        assert_eq!(rt; found.as_str(), want, "{call}");
    }
    Ok(())
}

// The second put and the third get are to fail.
#[test]
fn a_store_in_memory_keeps_files_but_for_the_listed_calls(rt: HostRuntime) -> Result<(), Fail> {
    let mut store = MemStore::new(rt.alloc(), &[1, 5])?;
    store.add("m/old", b"was")?;
    let lines = "put abc new => put
put lost old => the file can't be read or written
get 3 new => |abc|
get 2 new => the file has 3 bytes or more, over its limit
get 9 none => the file can't be read or written
get 3 new => the file can't be read or written
put  new => put
get 0 new => ||
get 3 old => |was|";
    expect_calls(&rt, &mut store, "m", lines)?;
    assert!(rt; store.file("m/old") == Some(b"was".as_slice()));
    assert!(rt; store.file("m/none").is_none());
    Ok(())
}

// Makes a folder of its own for a test.
fn make_folder(rt: &HostRuntime, test: &str) -> Result<String, Fail> {
    let id = process::id(rt.process());
    let folder = format!(in rt.alloc(); "zc_outside-{test}-{id}")?;
    fs::create_dir(rt, folder.as_str())?;
    Ok(folder)
}

// Changes a folder: `link TEXT NAME` makes a link, `rename NAME NAME` renames, and `remove NAME` removes.
fn change(rt: &HostRuntime, folder: &str, lines: &str) -> Result<(), Fail> {
    for line in lines.lines() {
        let (kind, rest) = line.split_once(" ").ok_or("no change")?;
        let (from, name) = rest.split_once(" ").unwrap_or(("", rest));
        let to = format!(in rt.alloc(); "{folder}/{name}")?;
        match kind {
            "link" => symlink(rt, from, to.as_str())?,
            "rename" => {
                let from = format!(in rt.alloc(); "{folder}/{from}")?;
                fs::rename(rt, from.as_str(), to.as_str())?;
            }
            "remove" => fs::remove_file(rt, to.as_str())?,
            _ => return Err("no change".into()),
        }
    }
    Ok(())
}

// Puts, and gets at the limit and one byte over it, of a file, of devices, and of names that no file has. That the
// folder can be removed shows that no other file is left.
#[test]
fn a_disk_gives_what_was_put_where_a_file_may_be(rt: HostRuntime) -> Result<(), Fail> {
    let folder = make_folder(&rt, "files")?;
    let mut store = DiskStore::new(&rt, rt.process());
    let lines = "put the_first_bytes file => put
get 15 file => |the_first_bytes|
put  file => put
get 15 file => ||
put then_others file => put
get 11 file => |then_others|
get 10 file => the file has 11 bytes or more, over its limit
get 10 /dev/zero => the file has 11 bytes or more, over its limit
get 10 none => the file can't be read or written
get 10 . => the file can't be read or written
put bytes /dev/null => put
put bytes /dev/full => the file can't be read or written
put bytes . => the file can't be read or written
put bytes none/file => the file can't be read or written";
    expect_calls(&rt, &mut store, folder.as_str(), lines)?;
    change(&rt, folder.as_str(), "remove file")?;
    Ok(fs::remove_dir(&rt, folder.as_str())?)
}

// Both ways in which a call may be refused; the result is then a refusal of that kind.
const KINDS: [(ErrorKind, &str); 2] = [
    (ErrorKind::Other, "the file can't be read or written"),
    (ErrorKind::OutOfMemory, "out of memory"),
];

#[test]
fn a_refused_call_leaves_the_old_file(rt: HostRuntime) -> Result<(), Fail> {
    let folder = make_folder(&rt, "refused")?;
    let mut store = DiskStore::new(&rt, rt.process());
    expect_calls(&rt, &mut store, folder.as_str(), "put old file => put")?;
    for (kind, fault) in KINDS {
        let lines = format!(in rt.alloc(); "put new file => {fault}\nget 3 file => |old|")?;
        for call in 0..CALLS {
            let over = &rt;
            let mut store = DiskStore::new(Refusing { over, call, kind }, rt.process());
            expect_calls(&rt, &mut store, folder.as_str(), lines.as_str())?;
        }
    }
    change(&rt, folder.as_str(), "remove file")?;
    Ok(fs::remove_dir(&rt, folder.as_str())?)
}

// A link to a link, at first to nothing, stays. Then the file `b` is renamed to `a`, and is known by the name that it
// was put under until that name is put again. At last `a` is removed. On a system that gives its inode number to the
// next file, as ext4 does, this shows that it was forgotten.
#[test]
fn links_stay_and_files_are_known_by_their_last_names(rt: HostRuntime) -> Result<(), Fail> {
    let folder = make_folder(&rt, "names")?;
    let name = folder.as_str();
    let mut store = DiskStore::new(&rt, rt.process());
    change(&rt, name, "link file link\nlink link far")?;
    let lines = "put new far => put
put newer far => put
get 5 file => |newer|
put other link => the file can't be read or written
get 5 file => |newer|
put one a => put
put two b => put";
    expect_calls(&rt, &mut store, name, lines)?;
    change(&rt, name, "rename b a")?;
    let lines = "put three a => the file can't be read or written
put four b => put
put five a => put
get 4 a => |five|";
    expect_calls(&rt, &mut store, name, lines)?;
    change(&rt, name, "remove a")?;
    let lines = "put six c => put
put seven c => put
get 4 b => |four|";
    expect_calls(&rt, &mut store, name, lines)?;
    change(
        &rt,
        name,
        "remove far\nremove link\nremove file\nremove b\nremove c",
    )?;
    Ok(fs::remove_dir(&rt, name)?)
}
