// What a store of files promises.

ghost use Rattle.std.specs.Prelude.{◌≤◌, ◌<◌, ◌-◌, ◌^◌, length, IfOk, IfErr, OnOk, OnErr};
ghost use Rattle.zc_outside.specs.Files.{KeepsFiles, PutsFile, HasFile};
ghost use Rattle.zc_outside.specs.Shelf.{GetCause, OnlyPuts, OnlyReads, PutCause, Shelf};

use std::alloc::Global;
use thiserror::Error;

/// Why a store refuses.
#[derive(Clone, Copy, PartialEq, Eq, Debug, Error)]
pub enum StoreFault {
    #[error("the file can't be read or written")]
    Failed,
    /// The file is over the limit of the call, and `taken` is one more than that limit.
    #[error("the file has {taken} bytes or more, over its limit")]
    TooLong { taken: u32 },
    #[error("out of memory")]
    OutOfMemory,
}

/// Files by name, and how often reading and writing them went wrong.
///
/// A store shows a `Shelf`. It tells its files if the `Shelf` has their bytes by name; if it doesn't, no
/// clause says what they hold. A store that is sure stays so, and returns `Failed` from no `put`, and
/// from no `get` of a name that it holds. The counts are 64-bit counters that never fall and stop at
/// their largest value: `read_faults` and `write_faults` count the calls that return `Failed`,
/// `long_files` the files over their limit, and `write_memory_faults` the puts that run out of memory.
pub trait Store {
    ghost shown: { Self → Shelf };

    /// The whole file under a name, if it has at most `limit` bytes.
    fn get(&mut self, alloc: Global, name: &str, limit: u32) -> Result<Vec<u8>, StoreFault>
        requires { limit < 2 ^ 32 - 1 }
        ensures within { IfOk result (λ v. length v.items ≤ limit) }
        ensures content { IfOk result (λ v. HasFile (shown self.old).files name.now v.items) }
        ensures cause { IfErr result (GetCause name.now limit (shown self.old) (shown self.new)) }
        ensures reads { OnlyReads name.now limit (shown self.old) (shown self.new) };

    /// Stores these bytes under a name, in place of what it held.
    fn put(&mut self, name: &str, bytes: &[u8]) -> Result<(), StoreFault>
        ensures ok { OnOk result (PutsFile (shown self.old).files (shown self.new).files name.now bytes.now) }
        ensures err { OnErr result (KeepsFiles (shown self.old).files (shown self.new).files) }
        ensures cause { IfErr result (PutCause (shown self.old) (shown self.new)) }
        ensures puts { OnlyPuts (shown self.old) (shown self.new) };
}
