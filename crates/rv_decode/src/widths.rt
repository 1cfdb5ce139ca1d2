// The widths of loads and stores.

ghost use Rattle.std.specs.Prelude.{◌≡◌, ◌<◌, ◌≤◌};
ghost use Rattle.rv_decode.specs.Effect.{load_width, store_width};

use crate::instr::{LoadOp, StoreOp};

/// The number of bytes that a load asks for.
pub fn load_width(op: LoadOp) -> u32
    ensures width { result ≡ load_width op }
    ensures some { 0 < result }
{
    match op {
        LoadOp::Lb | LoadOp::Lbu => 1,
        LoadOp::Lh | LoadOp::Lhu => 2,
        LoadOp::Lw => 4,
    }
}

/// The number of bytes that a store sends.
pub fn store_width(op: StoreOp) -> u32
    ensures width { result ≡ store_width op }
    ensures some { 0 < result }
    ensures few { result ≤ 4 }
{
    match op {
        StoreOp::Sb => 1,
        StoreOp::Sh => 2,
        StoreOp::Sw => 4,
    }
}
