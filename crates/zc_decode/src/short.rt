// What a halfword spells (RISC-V Zc specification 1.0).

use rv_decode::instr::Instr;
use zc_base::reg::Reg;

/// What a halfword spells: an instruction that a word spells too, or one that Zcmp and Zcmt add.
///
/// `list` is the register list's number, `adjust` the whole change of the stack pointer in bytes.
/// `MoveSa` moves a0 to `first` and a1 to `second`, `MoveAs` moves them back, and `TableJump` goes to
/// the address in that entry of the jump table, from entry 32 on with the return address in ra.
#[derive(Clone, Copy)]
pub enum Short {
    Base(Instr),
    Push { list: u8, adjust: u8 },
    Pop { list: u8, adjust: u8 },
    PopRet { list: u8, adjust: u8 },
    PopRetz { list: u8, adjust: u8 },
    MoveSa { first: Reg, second: Reg },
    MoveAs { first: Reg, second: Reg },
    TableJump { index: u8 },
}
