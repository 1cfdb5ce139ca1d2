// What a step of the symbolic machine comes to.

use crate::known::Known;
use crate::why::Why;
use rv_decode::instr::{LoadOp, StoreOp};
use zc_base::place::Place;

/// A word of which a store sends the low bytes to a device's address.
#[derive(Clone, Copy)]
pub struct SentWord {
    pub op: StoreOp,
    pub at: u32,
    pub word: u32,
}

/// What a step comes to: the machine went on, and has read `count` bytes or written these bytes to the output (1) or to
/// the output for errors (2); or a device has answered a load or an instruction of the system, or got a number or the
/// address of a place by a store; or it exited, or is stuck.
#[derive(Drop)]
pub enum SymStep {
    Done,
    Read { count: u32 },
    Wrote { fd: u8, bytes: Vec<u8> },
    Loaded { op: LoadOp, at: u32 },
    Stored(SentWord),
    StoredCode { at: u32, place: Place },
    System { word: u32, operand: Known },
    Exited(u8),
    Stuck(Place, Why),
}
