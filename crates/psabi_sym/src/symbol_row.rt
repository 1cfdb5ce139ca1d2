// Symbols, as a link keeps them.

ghost use Rattle.std.specs.Prelude.{◌≡◌};
ghost use Rattle.psabi_sym.specs.Invariants.Rows.{row_defines, row_is_common};

use elf32_read::symbol::{COMMON, UNDEF};

/// What a link keeps of a symbol: its object's index and its own, the number of its name, and the
/// fields of its entry but for the type (System V gABI, "Symbol Table"). The number is 0, and says
/// nothing, for a local symbol that isn't common: it is its own definition.
#[derive(Clone, Copy)]
pub struct SymbolRow {
    pub object: u16,
    pub home: u16,
    pub index: u32,
    pub name: u32,
    pub value: u32,
    pub size: u32,
    pub bind: u8,
}

impl SymbolRow {
    /// Whether it defines its name with this binding: it is neither undefined nor common.
    pub fn defines(&self, bind: u8) -> bool
        ensures { result ≡ row_defines bind self.now }
    {
        self.bind == bind && self.home != UNDEF && self.home != COMMON
    }

    /// Whether it is common.
    pub fn is_common(&self) -> bool
        ensures { result ≡ row_is_common self.now }
    {
        self.home == COMMON
    }
}
