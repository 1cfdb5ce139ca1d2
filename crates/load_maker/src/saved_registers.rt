// The registers that functions save.

ghost use Rattle.std.specs.Prelude.{◌≡◌};
ghost use Rattle.load_maker.specs.Functions.{saves_numbered, saves_ra};

/// What a function saves on the stack: s0, which then holds its argument, and the return address; the return address
/// alone; or neither, and then it calls no other.
#[derive(Clone, Copy)]
pub enum SavedRegisters {
    Both,
    ReturnAddress,
    Neither,
}

impl SavedRegisters {
    /// What a number below 3 stands for.
    pub fn of(number: u32) -> SavedRegisters
        ensures { result ≡ saves_numbered number }
    {
        match number {
            0 => SavedRegisters::Both,
            1 => SavedRegisters::ReturnAddress,
            _ => SavedRegisters::Neither,
        }
    }

    /// Whether it saves the return address.
    pub fn saves_ra(self) -> bool
        ensures { result ≡ saves_ra self }
    {
        match self {
            SavedRegisters::Both | SavedRegisters::ReturnAddress => true,
            SavedRegisters::Neither => false,
        }
    }
}
