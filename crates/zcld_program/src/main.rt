//! The program: it hands the words of the command line, the files of the system and its streams to the top call, and ends with
//! the status that this gives.
#![tactic(auto)]

use std::alloc::Global;
use std::process::ExitCode;
use zc_outside::disk_store::DiskStore;
use zc_outside::std_console::StdConsole;
use zcld::program::{end, words};

// More bytes than any list or table has that a call makes of the most objects that it accepts.
const LARGE: usize = 16 << 20;

// Takes a large block and lets it go. glibc's malloc maps blocks that are larger than any that were let go before, and
// unmaps them, so that each one pays for new pages again. From now on it keeps them, and uses their pages again.
fn keep_pages(alloc: Global) {
    let _ = Vec::<u8>::with_capacity(alloc, LARGE);
}

fn main(rt: HostRuntime) -> ExitCode {
    keep_pages(rt.alloc());
    let mut store = DiskStore::new(rt, rt.process());
    let mut console = StdConsole::new(rt.stdin(), rt.stdout(), rt.stderr());
    ExitCode::from(end(rt.alloc(), words(&rt), &mut store, &mut console))
}
