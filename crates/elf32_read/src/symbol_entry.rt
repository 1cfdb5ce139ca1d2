// Entries of symbol tables.

/// An entry of the symbol table, Elf32_Sym (System V gABI, "Symbol Table"): `name` is the offset of the name in the
/// string table, and `bind` and `kind` are the binding and the type in st_info.
#[derive(Clone, Copy)]
pub struct SymbolEntry {
    pub name: u32,
    pub value: u32,
    pub size: u32,
    pub bind: u8,
    pub kind: u8,
    pub home: u16,
}
