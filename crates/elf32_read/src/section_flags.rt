// The flags of a section.

ghost use Rattle.std.specs.Prelude.{⊤, [], ◌∷◌, codes};

use bitflags::{Flag, Flags};

/// A section's flags, sh_flags (System V gABI, "Sections"). Bits without a name are kept.
#[derive(Clone, Copy)]
pub struct SectionFlags {
    pub bits: u32,
}

impl SectionFlags {
    /// The section is writable.
    pub const WRITE: SectionFlags = SectionFlags { bits: 1 };

    /// The section occupies memory while the program runs.
    pub const ALLOC: SectionFlags = SectionFlags { bits: 2 };

    /// The section holds instructions.
    pub const EXECINSTR: SectionFlags = SectionFlags { bits: 4 };

    /// The section holds thread-local data.
    pub const TLS: SectionFlags = SectionFlags { bits: 0x400 };

    /// The section's content is compressed.
    pub const COMPRESSED: SectionFlags = SectionFlags { bits: 0x800 };

    const NAMED: &'static [Flag<SectionFlags>] = &[
        Flag {
            name: "WRITE",
            value: SectionFlags::WRITE,
        },
        Flag {
            name: "ALLOC",
            value: SectionFlags::ALLOC,
        },
        Flag {
            name: "EXECINSTR",
            value: SectionFlags::EXECINSTR,
        },
        Flag {
            name: "TLS",
            value: SectionFlags::TLS,
        },
        Flag {
            name: "COMPRESSED",
            value: SectionFlags::COMPRESSED,
        },
    ];
}

impl Flags for SectionFlags {
    type Bits = u32;

    ghost exact = { ⊤ };

    ghost table = { (codes "WRITE", 1) ∷ (codes "ALLOC", 2) ∷ (codes "EXECINSTR", 4)
        ∷ (codes "TLS", 0x400) ∷ (codes "COMPRESSED", 0x800) ∷ [] };

    ghost set_of = { λ flags. flags.bits };

    fn flags<'a>() -> &'a [Flag<SectionFlags>] {
        SectionFlags::NAMED
    }

    fn bits(&self) -> u32 {
        self.bits
    }

    fn from_bits_retain(bits: u32) -> SectionFlags {
        SectionFlags { bits }
    }
}
