// The files that a command reads, each as a whole.

ghost use Rattle.std.specs.Prelude.{◌<◌, ◌-◌, ◌^◌, [], ◌∷◌, IfErr, IfOk};
ghost use Rattle.zc_outside.specs.Wanted.{IsRead, ReadCause, ReadsAll};

use crate::store::{Store, StoreFault};
use std::alloc::Global;
use thiserror::Error;

/// Why the files of a command can't be read.
#[derive(Clone, Copy, PartialEq, Eq, Debug, Error)]
pub enum ReadFault {
    #[error("a file can't be read, or is too long")]
    Unread,
    #[error("out of memory")]
    OutOfMemory,
}

/// The bytes of the file with this name, if it has at most `limit` bytes.
pub fn read_file<S: Store>(
    alloc: Global,
    name: &str,
    limit: u32,
    store: &mut S,
) -> Result<Vec<u8>, ReadFault>
    requires { limit < 2 ^ 32 - 1 }
    ensures ok { IfOk result (λ file.
        IsRead (S.shown store.old).files (record { name = name.now; limit = limit }) file.items) }
    ensures cause { IfErr result (ReadCause (record { name = name.now; limit = limit } ∷ [])
        (S.shown store.old) (S.shown store.new)) }
    ensures reads { ReadsAll (record { name = name.now; limit = limit } ∷ []) (S.shown store.old) (S.shown store.new) }
{
    store.get(alloc, name, limit).map_err(|fault| match fault {
        StoreFault::OutOfMemory => ReadFault::OutOfMemory,
        StoreFault::Failed | StoreFault::TooLong { .. } => ReadFault::Unread,
    })
}
