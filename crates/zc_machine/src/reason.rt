// Why the machine stops.

ghost use Rattle.std.specs.Prelude.{◌≡◌};
ghost use Rattle.zc_machine.specs.Reason.{reason_name, reason_number};

/// Why the machine stops.
#[derive(Clone, Copy, PartialEq, Eq, Debug)]
pub enum Reason {
    /// The word or halfword at the program counter encodes no instruction that the machine runs, or one of the system
    /// that nothing answers.
    Illegal,
    /// An instruction or a table entry is fetched from outside the segments of code, or a load, a
    /// store or a call's buffer isn't wholly in the memory for data.
    BadAccess,
    /// A half or a word is loaded or stored at an address that isn't a multiple of its size, be it in
    /// memory or not.
    Misaligned,
    /// The instruction is `ebreak`.
    Break,
    /// An `ecall` by whose a7 there is no call, or whose a0 that call doesn't take, wherever its buffer
    /// lies.
    UnknownCall,
}

impl Reason {
    /// The number that is printed.
    pub fn number(self) -> u32
        ensures { result ≡ reason_number self }
    {
        match self {
            Reason::Illegal => 1,
            Reason::BadAccess => 2,
            Reason::Misaligned => 3,
            Reason::Break => 4,
            Reason::UnknownCall => 5,
        }
    }

    /// The name that is printed.
    pub fn name(self) -> &'static str
        ensures { result.now ≡ reason_name self }
    {
        match self {
            Reason::Illegal => "Illegal",
            Reason::BadAccess => "BadAccess",
            Reason::Misaligned => "Misaligned",
            Reason::Break => "Break",
            Reason::UnknownCall => "UnknownCall",
        }
    }
}
