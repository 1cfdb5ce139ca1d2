// Sections, without their names.

ghost use Rattle.std.specs.Prelude.{◌≡◌, ◌==◌, ◌++◌, ◌∷◌, [], List, ℕ, false, nat_eq};
ghost use Rattle.std.specs.Cmp.Lexicographic.{pointwise};
ghost use Rattle.std.specs.List.{list_any, starts_with};
ghost use Rattle.elf32_read.specs.Lent.{IsSectionEntry};
ghost use Rattle.elf32_read.specs.Parts.{SectionParts};

use crate::section_flags::SectionFlags;

/// A section of an object, by its header (System V gABI, "Sections"): like `Section`, but without
/// looking for the end of its name.
///
/// `names` is the table of names from the section's name on: the name, its terminating zero, and all
/// that follows in the table.
#[derive(Clone, Copy)]
pub struct SectionEntry<'a> {
    pub names: &'a [u8],
    pub kind: u32,
    pub flags: SectionFlags,
    pub size: u32,
    pub align: u32,
    pub bytes: &'a [u8],
}

impl<'a> SectionEntry<'a> {
    /// Whether the section has this name, which is given with its terminating zero. It looks at no more
    /// bytes than the given name has.
    pub fn is_named(&self, ended: &[u8]) -> bool
        ensures { (parts : SectionParts) (name : List ℕ) → IsSectionEntry self.now parts
            → list_any (λ byte. byte == 0) name ≡ false → ended.now ≡ name ++ 0 ∷ []
            → result ≡ pointwise nat_eq parts.name name }
    {
        self.names.starts_with(ended)
    }

    /// Whether the section's name begins with these bytes, of which none is zero. It looks at no more
    /// bytes than are given.
    pub fn name_starts_with(&self, start: &[u8]) -> bool
        ensures { (parts : SectionParts) → IsSectionEntry self.now parts
            → list_any (λ byte. byte == 0) start.now ≡ false
            → result ≡ starts_with nat_eq parts.name start.now }
    {
        self.names.starts_with(start)
    }
}
