// Relocations.

/// A relocation with its addend, Elf32_Rela (System V gABI, "Relocation").
///
/// A relocation: it changes bytes of its section from `offset` on, as `kind` says (ELF32_R_TYPE; RISC-V ELF psABI,
/// "Relocations"), to hold the address of the symbol with the index `symbol`, plus `addend`.
#[derive(Clone, Copy)]
pub struct Reloc {
    pub offset: u32,
    pub symbol: u32,
    pub kind: u8,
    pub addend: i32,
}
