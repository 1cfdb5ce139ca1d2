// Types of relocations.

ghost use Rattle.std.specs.Prelude.{◌≡◌, Some};
ghost use Rattle.psabi_reloc.specs.Kinds.{field_length, fits, kind_of};

use crate::spelled::{spells_auipc, spells_call, spells_lui, spells_store, spells_sum};
use rv_decode::instr::Instr;

/// What a relocation asks for (RISC-V ELF psABI, "Relocations").
///
/// | Kind | Types |
/// |---|---|
/// | `Ignored` | NONE, RELAX |
/// | `Word` | 32 |
/// | `Branch`, `Jal` | BRANCH, JAL |
/// | `Call` | CALL, CALL_PLT |
/// | `PcrelHi20`, `PcrelLo12I`, `PcrelLo12S` | PCREL_HI20, PCREL_LO12_I, PCREL_LO12_S |
/// | `Hi20`, `Lo12I`, `Lo12S` | HI20, LO12_I, LO12_S |
/// | `RvcBranch`, `RvcJump` | RVC_BRANCH, RVC_JUMP |
/// | `Align` | ALIGN |
#[derive(Clone, Copy, PartialEq, Eq)]
pub enum RelocKind {
    Ignored,
    Word,
    Branch,
    Jal,
    Call,
    PcrelHi20,
    PcrelLo12I,
    PcrelLo12S,
    Hi20,
    Lo12I,
    Lo12S,
    RvcBranch,
    RvcJump,
    Align,
}

impl RelocKind {
    /// The kind of a type; none if it isn't known.
    #[inline(always)]
    pub fn of(number: u8) -> Option<RelocKind>
        ensures { result ≡ kind_of number }
    {
        match number {
            0 | 51 => Some(RelocKind::Ignored),
            1 => Some(RelocKind::Word),
            16 => Some(RelocKind::Branch),
            17 => Some(RelocKind::Jal),
            18 | 19 => Some(RelocKind::Call),
            23 => Some(RelocKind::PcrelHi20),
            24 => Some(RelocKind::PcrelLo12I),
            25 => Some(RelocKind::PcrelLo12S),
            26 => Some(RelocKind::Hi20),
            27 => Some(RelocKind::Lo12I),
            28 => Some(RelocKind::Lo12S),
            43 => Some(RelocKind::Align),
            44 => Some(RelocKind::RvcBranch),
            45 => Some(RelocKind::RvcJump),
            _ => None,
        }
    }
}

impl RelocKind {
    /// The number of bytes that a relocation of this kind changes, with its addend.
    pub fn field_length(self, addend: i32) -> u32
        ensures { result ≡ field_length (Some self) addend }
    {
        match self {
            RelocKind::Ignored => 0,
            RelocKind::Call => 8,
            RelocKind::RvcBranch | RelocKind::RvcJump => 2,
            RelocKind::Align => { if addend < 0 { 0 } else { addend as u32 } }
            RelocKind::Word
            | RelocKind::Branch
            | RelocKind::Jal
            | RelocKind::PcrelHi20
            | RelocKind::PcrelLo12I
            | RelocKind::PcrelLo12S
            | RelocKind::Hi20
            | RelocKind::Lo12I
            | RelocKind::Lo12S => 4,
        }
    }

    /// Whether the instructions at a relocation of this kind are such as it may change. The second counts for a
    /// call alone.
    pub fn fits(self, first: Option<Instr>, second: Option<Instr>) -> bool
        ensures { result ≡ fits self first second }
    {
        match self {
            RelocKind::Ignored | RelocKind::Word | RelocKind::Align => true,
            RelocKind::Branch | RelocKind::RvcBranch => matches!(first, Some(Instr::Branch { .. })),
            RelocKind::Jal | RelocKind::RvcJump => matches!(first, Some(Instr::Jal { .. })),
            RelocKind::Call => spells_call(first, second),
            RelocKind::PcrelHi20 => spells_auipc(first),
            RelocKind::Hi20 => spells_lui(first),
            RelocKind::PcrelLo12I | RelocKind::Lo12I => spells_sum(first),
            RelocKind::PcrelLo12S | RelocKind::Lo12S => spells_store(first),
        }
    }
}
