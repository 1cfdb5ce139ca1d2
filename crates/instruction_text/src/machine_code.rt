// The code of an instruction.

/// The code of one instruction: a halfword, or a word.
#[derive(Clone, Copy)]
pub enum MachineCode {
    Half(u16),
    Word(u32),
}
