// What can be wrong with an image.

ghost use Rattle.std.specs.Prelude.{◌≡◌};
ghost use Rattle.elf32_read.specs.ImageFault.{image_fault_number};

use thiserror::Error;

/// Why the machine can't run these bytes as an image. A fault is printed as its name.
#[derive(Clone, Copy, PartialEq, Eq, Debug, Error)]
pub enum ImageFault {
    /// The file is shorter than its header, isn't an executable RISC-V file of class 32, or has
    /// flags other than RVC and TSO, or program or section headers of an unexpected size.
    #[error("NotElf")]
    NotElf,
    /// A table of headers, a segment's bytes or a section's content passes the file's end.
    #[error("Truncated")]
    Truncated,
    /// There are more than 16 segments; or one is longer in the file than in memory, holds writable
    /// code, or lies outside the region for its kind; or two overlap; or the entry address is odd,
    /// or neither inside the bytes of a code segment nor at their end.
    #[error("BadSegment")]
    BadSegment,
    /// There are sections, and they lack names, or more than one lists places, or the list is
    /// incomplete, out of order, or has addresses below text or above the start of data.
    #[error("BadPlaces")]
    BadPlaces,
    /// The file is longer than 8 MiB.
    #[error("TooLarge")]
    TooLarge,
}

impl ImageFault {
    /// The fault's number, from 1 on in the order above.
    pub fn number(&self) -> u32
        ensures { result ≡ image_fault_number self.now }
    {
        match self {
            ImageFault::NotElf => 1,
            ImageFault::Truncated => 2,
            ImageFault::BadSegment => 3,
            ImageFault::BadPlaces => 4,
            ImageFault::TooLarge => 5,
        }
    }
}
