// The items that code is cut into.

use psabi_sym::target::Target;
use rv_decode::instr::{BranchOp, Instr};
use zc_base::place::Place;
use zc_base::reg::Reg;

/// What the bytes and relocations at a place in code mean.
///
/// | Item | Stands for |
/// |---|---|
/// | `Op` | an instruction without relocation that is neither a branch nor a `jal` |
/// | `Hi`, `Lo` | an instruction whose immediate is the upper or lower part of the target |
/// | `PcHi` | an `auipc` whose immediate is the upper part of the PC-relative offset of the target |
/// | `PcLo` | an instruction with the lower part that goes with the `auipc` at that place |
/// | `Branch`, `Jump` | a branch with its operation and registers, or a `jal` with its link register `rd`, to a place |
/// | `Call` | an `auipc` of `temp` and a `jalr` with the link register `rd`, to a place |
/// | `Align` | this number of bytes of padding |
/// | `Word` | a word of data in code that holds the target |
/// | `Raw` | a word that is copied unread |
/// | `RawShort` | two bytes that are copied as they are: a halfword of Zcmp, or one that isn't read as an instruction |
/// | `RawPair` | the two words of a call to a weak symbol that no object defines |
#[derive(Clone, Copy)]
pub enum Item {
    Op(Instr),
    Hi(Instr, Target),
    Lo(Instr, Target),
    PcHi(Instr, Target),
    PcLo(Instr, Place),
    Branch {
        op: BranchOp,
        first: Reg,
        second: Reg,
        to: Place,
    },
    Jump {
        rd: Reg,
        to: Place,
    },
    Call {
        rd: Reg,
        temp: Reg,
        to: Place,
    },
    Align(u16),
    Word(Target),
    Raw(u32),
    RawShort(u16),
    RawPair(u32, u32),
}
