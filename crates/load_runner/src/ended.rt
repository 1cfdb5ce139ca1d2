// How a run over a console in memory ended.

ghost use Rattle.std.specs.Prelude.{◌≡◌, IfOk};

use crate::load::Exit;
use std::alloc::{AllocError, Global};
use zc_outside::mem_console::MemConsole;

/// An exit, and at which step or commit it is made, counted from 1.
#[derive(Drop)]
pub struct Ended {
    pub count: u64,
    pub exit: Exit,
}

/// The exit of a program with this status, and with the output that this console got.
pub fn exit_of(alloc: Global, console: &MemConsole, status: u8) -> Result<Exit, AllocError>
    ensures { IfOk result (λ exit. exit ≡ record { bytes = console.now.out; status = status }) }
{
    let bytes = Vec::from_slice(alloc, console.out_bytes())?;
    Ok(Exit { bytes, status })
}
