// The long form of a branch.

ghost use Rattle.std.specs.Prelude.{◌≡◌, ◌-ℤ◌, ℕ, ℤ, pos, true, Some};
ghost use Rattle.rv_decode.specs.Decode.{decoded};
ghost use Rattle.rv_decode.specs.declared.instr.BranchOp.{BranchOp};
ghost use Rattle.psabi_reloc.specs.Reaches.{jal_reach};
ghost use Rattle.zca_zcb_pass.specs.Forms.{IsBranch, IsLongForm, IsOpposite};

use rv_decode::instr::{BranchOp, Instr};
use rv_encode::encode::encode;
use zc_base::reg::Reg;

/// The two words of a branch whose target is farther than a branch reaches: a branch of the opposite
/// condition over both, and a jump, whose own distance is less by the four bytes before it.
pub fn long_branch(i: Instr, distance: i32) -> [u32; 2]
    requires branch { IsBranch i }
    requires reach { jal_reach (distance -ℤ pos 4) ≡ true }
    ensures { (op : BranchOp) (first second : ℕ) (old : ℤ) →
        i ≡ Instr.Branch op first second old → IsLongForm op first second distance result }
{
    match i {
        Instr::Branch {
            op,
            first,
            second,
            ..
        } => [over(op, first, second), jump(distance)],
        _ => unreachable!(),
    }
}

// The branch of the opposite condition over eight bytes.
fn over(op: BranchOp, first: Reg, second: Reg) -> u32
    ensures { (other : BranchOp) × IsOpposite op other
        × (decoded result ≡ Some (Instr.Branch other first second (pos 8))) }
{
    encode(Instr::Branch {
        op: opposite(op),
        first,
        second,
        distance: 8,
    })
}

// The branch with the opposite condition.
fn opposite(op: BranchOp) -> BranchOp
    ensures { IsOpposite op result }
{
    match op {
        BranchOp::Beq => BranchOp::Bne,
        BranchOp::Bne => BranchOp::Beq,
        BranchOp::Blt => BranchOp::Bge,
        BranchOp::Bge => BranchOp::Blt,
        BranchOp::Bltu => BranchOp::Bgeu,
        BranchOp::Bgeu => BranchOp::Bltu,
    }
}

// The jump at offset 4 of the long form, whose own distance is less by 4.
fn jump(distance: i32) -> u32
    requires { jal_reach (distance -ℤ pos 4) ≡ true }
    ensures { decoded result ≡ Some (Instr.Jal 0 (distance -ℤ pos 4)) }
{
    encode(Instr::Jal {
        rd: Reg::new(0).unwrap(),
        distance: distance - 4,
    })
}
