// Relocations that are resolved: each is decided once, and all that asks for relocations goes by these.

use psabi_reloc::kind::RelocKind;
use psabi_sym::target::Target;

/// What is wrong with a relocation by itself, wherever it leads: its kind, its place, or that a lower part has no
/// upper part.
#[derive(Clone, Copy)]
pub enum RelocFault {
    Kind,
    Place,
    Pair,
}

/// A relocation that asks for something: what its symbol with its addend resolves to, its offset in its section, the
/// number of bytes that it changes (255 stands for more), its kind, if that is known, and what is wrong with it.
#[derive(Clone, Copy)]
pub struct ResolvedReloc {
    pub target: Target,
    pub offset: u32,
    pub size: u8,
    pub kind: Option<RelocKind>,
    pub fault: Option<RelocFault>,
}
