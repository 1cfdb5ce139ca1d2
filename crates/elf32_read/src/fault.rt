// What can be wrong with an object.

ghost use Rattle.std.specs.Prelude.{◌≡◌, Some};
ghost use Rattle.elf32_read.specs.Fault.{fault_name, fault_number, fault_symbol};

use std::error::Error;
use std::fmt;

/// Why the linker rejects an object. A fault is printed as its name. `Object::read` returns those from
/// `NotElf` to `BadSymbol`, and `TooLarge`; the other crates of the linker find the others.
///
/// `symbol` and `section` are the indices of a symbol and of a section in the object, and `at` is the
/// offset of a relocation or of a branch in that section.
#[derive(Clone, Copy, PartialEq, Eq, Debug)]
pub enum Fault {
    /// The file is shorter than its header, isn't a relocatable RISC-V file of class 32, or has
    /// section headers whose size isn't 40 bytes.
    NotElf,
    /// The section headers, or the content of a section, pass the file's end.
    Truncated,
    /// e_flags has bits other than RVC and TSO.
    Flags,
    /// A section has a type, flags or entries that the linker doesn't support.
    SectionKind,
    /// The alignment of a section, or of a common symbol, is neither 0 nor a power of two, or is
    /// too large.
    Alignment,
    /// A section of code ends inside a word, or in a compressed object inside a halfword.
    CodeSize,
    /// There is no table of names, or a name in it isn't terminated.
    BadName,
    /// A symbol has a binding, a type, a section index or a value that isn't accepted, or a
    /// relocation names a symbol that the object doesn't have.
    BadSymbol,
    /// The symbol is the second strong definition of its name.
    Duplicate { symbol: u32 },
    /// No object defines this global symbol, which a relocation uses.
    Undefined { symbol: u32 },
    /// The relocation has a type that isn't allowed in its section.
    RelocKind { section: u16, at: u32 },
    /// The relocation doesn't fit the bytes at its offset, or overlaps another one.
    RelocPlace { section: u16, at: u32 },
    /// A PCREL_LO12 relocation has an addend, or there is no PCREL_HI20 `auipc` in its section where
    /// its symbol points.
    LoPair { section: u16, at: u32 },
    /// The relocation's target isn't in the program, is inside an item, or is an absolute number
    /// where a jump or branch needs a place in code.
    BadTarget { section: u16, at: u32 },
    /// The target of the branch, or of the 2-byte jump, is out of range.
    Range { section: u16, at: u32 },
    /// `_start` isn't defined at an item of code.
    NoEntry,
    /// There are too many objects or sections, or an object, or a total over all objects, is too
    /// large.
    TooLarge,
}

impl Fault {
    /// The fault's number, from 1 on in the order above.
    pub fn number(&self) -> u32
        ensures { result ≡ fault_number self.now }
    {
        match self {
            Fault::NotElf => 1,
            Fault::Truncated => 2,
            Fault::Flags => 3,
            Fault::SectionKind => 4,
            Fault::Alignment => 5,
            Fault::CodeSize => 6,
            Fault::BadName => 7,
            Fault::BadSymbol => 8,
            Fault::Duplicate { .. } => 9,
            Fault::Undefined { .. } => 10,
            Fault::RelocKind { .. } => 11,
            Fault::RelocPlace { .. } => 12,
            Fault::LoPair { .. } => 13,
            Fault::BadTarget { .. } => 14,
            Fault::Range { .. } => 15,
            Fault::NoEntry => 16,
            Fault::TooLarge => 17,
        }
    }

    /// The fault's name, as spelled in this enum.
    pub fn name(&self) -> &'static str
        ensures { result.now ≡ fault_name self.now }
    {
        match self {
            Fault::NotElf => "NotElf",
            Fault::Truncated => "Truncated",
            Fault::Flags => "Flags",
            Fault::SectionKind => "SectionKind",
            Fault::Alignment => "Alignment",
            Fault::CodeSize => "CodeSize",
            Fault::BadName => "BadName",
            Fault::BadSymbol => "BadSymbol",
            Fault::Duplicate { .. } => "Duplicate",
            Fault::Undefined { .. } => "Undefined",
            Fault::RelocKind { .. } => "RelocKind",
            Fault::RelocPlace { .. } => "RelocPlace",
            Fault::LoPair { .. } => "LoPair",
            Fault::BadTarget { .. } => "BadTarget",
            Fault::Range { .. } => "Range",
            Fault::NoEntry => "NoEntry",
            Fault::TooLarge => "TooLarge",
        }
    }

    /// The index of the symbol that the fault names, if any.
    pub fn symbol(&self) -> Option<u32>
        ensures { result ≡ fault_symbol self.now }
    {
        match self {
            Fault::Duplicate { symbol } | Fault::Undefined { symbol } => Some(*symbol),
            _ => None,
        }
    }
}

impl fmt::Display for Fault {
    ghost output = { λ fault. Some (fault_name fault) };

    fn fmt<W: fmt::Write>(&self, f: &mut fmt::Formatter<W>) -> fmt::Result {
        f.write_str(self.name())
    }
}

impl Error for Fault {}
