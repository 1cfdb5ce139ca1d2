// Symbols.

/// Symbol bindings, the upper four bits of st_info.
pub const LOCAL: u8 = 0;

pub const GLOBAL: u8 = 1;

pub const WEAK: u8 = 2;

/// Values of st_shndx for symbols in no section: undefined, absolute, and common.
pub const UNDEF: u16 = 0;

pub const ABS: u16 = 0xFFF1;

pub const COMMON: u16 = 0xFFF2;

/// A symbol of an object (System V gABI, "Symbol Table").
///
/// `name` is without its terminating zero, `bind` and `kind` are the binding and the type in st_info, and `home` is
/// st_shndx: the index of the symbol's section, or UNDEF, ABS or COMMON. `value` is the offset in that section.
#[derive(Clone, Copy)]
pub struct Symbol<'a> {
    pub name: &'a [u8],
    pub value: u32,
    pub size: u32,
    pub bind: u8,
    pub kind: u8,
    pub home: u16,
}
