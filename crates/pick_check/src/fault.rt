// Why a text is no certificate.

use std::alloc::AllocError;
use thiserror::Error;

/// Why a text is no certificate. `number` counts lines from 1.
#[derive(Clone, Copy, PartialEq, Eq, Debug, Error)]
pub enum CertFault {
    /// A line isn't allowed where it is, or is missing, or comes after the last one.
    #[error("line {number} isn't one of a certificate")]
    BadLine { number: u32 },
    /// The text is longer than `CERTIFICATE_LIMIT`.
    #[error("the certificate is too large")]
    TooLarge,
    #[error("out of memory")]
    OutOfMemory,
}

impl From<AllocError> for CertFault {
    ghost use Rattle.std.specs.Prelude.{◌≡◌};
    ghost use Rattle.pick_check.specs.declared.fault.CertFault.TheVariants.{OutOfMemory};

    ghost from_gives = { λ _ fault. fault ≡ OutOfMemory };

    fn from(_error: AllocError) -> CertFault {
        CertFault::OutOfMemory
    }
}
