// Why the symbolic machine is stuck.

ghost use Rattle.std.specs.Prelude.{◌≡◌};
ghost use Rattle.sym_machine.specs.Why.{why_name, why_number};

/// Why the symbolic machine is stuck.
#[derive(Clone, Copy, PartialEq, Eq, Debug)]
pub enum Why {
    /// A load or a store goes to an address that is no number.
    AddressUnknown,
    /// What a branch compares doesn't say whether it is taken.
    ConditionUnknown,
    /// A `jalr`, or the call of a weak symbol that nothing defines, goes to no place in code.
    TargetUnknown,
    /// The number of an environment call, an argument that the call uses, or a byte that it would
    /// write to an output, is no number.
    ArgumentUnknown,
    /// A load, a store or a call's buffer isn't wholly in the memory for data.
    BadAddress,
    /// A half or a word is loaded or stored at an address that isn't a multiple of its size, be it in
    /// memory or not.
    Misaligned,
    /// The step would leave a stack pointer that is no number, or that lies below the stack or above
    /// its end.
    StackPointer,
    /// The place is the end of its section, or nothing that the machine runs stands there.
    NoInstruction,
    /// An `ecall` by whose a7 there is no call, or whose a0 that call doesn't take.
    UnknownCall,
}

impl Why {
    /// The number that is printed.
    pub fn number(self) -> u32
        ensures { result ≡ why_number self }
    {
        match self {
            Why::AddressUnknown => 1,
            Why::ConditionUnknown => 2,
            Why::TargetUnknown => 3,
            Why::ArgumentUnknown => 4,
            Why::BadAddress => 5,
            Why::Misaligned => 6,
            Why::StackPointer => 7,
            Why::NoInstruction => 8,
            Why::UnknownCall => 9,
        }
    }

    /// The name that is printed.
    pub fn name(self) -> &'static str
        ensures { result.now ≡ why_name self }
    {
        match self {
            Why::AddressUnknown => "AddressUnknown",
            Why::ConditionUnknown => "ConditionUnknown",
            Why::TargetUnknown => "TargetUnknown",
            Why::ArgumentUnknown => "ArgumentUnknown",
            Why::BadAddress => "BadAddress",
            Why::Misaligned => "Misaligned",
            Why::StackPointer => "StackPointer",
            Why::NoInstruction => "NoInstruction",
            Why::UnknownCall => "UnknownCall",
        }
    }
}
