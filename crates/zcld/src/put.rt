// A file that a command puts at its end.

ghost use Rattle.std.specs.Prelude.{IfErr, OnErr, OnOk};
ghost use Rattle.zc_outside.specs.Files.{KeepsFiles, PutsFile};
ghost use Rattle.zc_outside.specs.Shelf.{OnlyPuts};
ghost use Rattle.zcld.specs.ErrLine.{NamesNothing};
ghost use Rattle.zcld.specs.Puts.{UnputCause};

use crate::outcome::Outcome;
use zc_outside::store::{Store, StoreFault};

/// Puts a file, or says how the call ends if it is refused.
pub fn put<S: Store>(name: &str, bytes: &[u8], store: &mut S) -> Result<(), Outcome>
    ensures ok { OnOk result (PutsFile (S.shown store.old).files (S.shown store.new).files name.now bytes.now) }
    ensures err { OnErr result (KeepsFiles (S.shown store.old).files (S.shown store.new).files) }
    ensures cause { IfErr result (λ outcome. UnputCause outcome (S.shown store.old) (S.shown store.new)) }
    ensures puts { OnlyPuts (S.shown store.old) (S.shown store.new) }
    ensures line { IfErr result NamesNothing }
{
    match store.put(name, bytes) {
        Ok(()) => Ok(()),
        Err(StoreFault::OutOfMemory) => Err(Outcome::OutOfMemory),
        Err(_) => Err(Outcome::WriteFault),
    }
}
