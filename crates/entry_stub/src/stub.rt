// The code that sets the base of the jump table.

ghost use Rattle.std.specs.Prelude.{◌≡◌, ◌%◌, true};
ghost use Rattle.entry_stub.specs.Stub.{AreWordsOf, SetsBase, stub_instrs};
ghost use Rattle.psabi_reloc.specs.Reaches.{jal_reach};

use rv_decode::instr::{Instr, UpperOp};
use rv_encode::encode::encode;
use zc_base::fields::put_u32;
use zc_base::reg::Reg;

/// The code at the entry of an image with a jump table: it sets the table base register jvt (RISC-V Zc specification
/// 1.0, "Zcmt"), by way of t0, to the address of the text, where the table lies, in mode 0; and jumps to the program.
/// The distance is in bytes, from the jump to the program's start.
#[tactic(auto, using(crate::proofs::BaseLaws::sets_base))]
pub fn stub(text: u32, distance: i32) -> [u8; 12]
    requires page { text % 4096 ≡ 0 }
    requires reach { jal_reach distance ≡ true }
    ensures words { AreWordsOf (stub_instrs text distance) result }
    ensures base { SetsBase text distance }
{
    let zero = Reg::new(0).unwrap();
    let t0 = Reg::new(5).unwrap();
    let upper = Instr::Upper {
        op: UpperOp::Lui,
        rd: t0,
        imm: text >> 12,
    };
    let csrrw = Instr::Csrrw {
        rd: zero,
        source: t0,
    };
    let jump = Instr::Jal { rd: zero, distance };
    let mut bytes = [0; 12];
    put_u32(&mut bytes, 0, encode(upper));
    put_u32(&mut bytes, 4, encode(csrrw));
    put_u32(&mut bytes, 8, encode(jump));
    bytes
}
