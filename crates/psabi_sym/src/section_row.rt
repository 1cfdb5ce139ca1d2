// Sections, as a link keeps them.

ghost use Rattle.std.specs.Prelude.{◌≡◌};
ghost use Rattle.psabi_sym.specs.Data.{has_class, is_code_role};

use crate::data_class::DataClass;

/// What a section is to a link: it is code, or data of a class, or it is dropped.
#[derive(Clone, Copy)]
pub enum SectionRole {
    Code,
    InClass(DataClass),
    Dropped,
}

impl SectionRole {
    /// Whether it is code.
    pub fn is_code(self) -> bool
        ensures { result ≡ is_code_role self }
    {
        matches!(self, SectionRole::Code)
    }
}

/// What a link keeps of a section: its object's index and its own, what it is, and whether it is code that stays as it was
/// compiled.
#[derive(Clone, Copy)]
pub struct SectionRow {
    pub object: u16,
    pub index: u16,
    pub role: SectionRole,
    pub align: u32,
    pub size: u32,
    pub fixed: bool,
}

impl SectionRow {
    /// Whether the section is code.
    pub fn is_code(&self) -> bool
        ensures { result ≡ is_code_role self.now.role }
    {
        self.role.is_code()
    }

    /// Whether the section is data of this class.
    pub fn is_of(&self, class: DataClass) -> bool
        ensures { result ≡ has_class class self.now.role }
    {
        match self.role {
            SectionRole::InClass(own) => own == class,
            SectionRole::Code | SectionRole::Dropped => false,
        }
    }
}
