// The command `check`: a certificate is read, and if it is accepted, what its slots save is written.

ghost use Rattle.std.specs.Prelude.{◌≡◌, ◌⊎◌, ℕ, IfOk, IfErr, List, None, Some};
ghost use Rattle.pick_check.specs.Text.{certificate_in};
ghost use Rattle.zc_outside.specs.World.{world};
ghost use Rattle.command_words.specs.Command.{Check};
ghost use Rattle.zcld.specs.Call.{DoesWith};
ghost use Rattle.zcld.specs.Check.{Certifies, certificate_refusal};

use crate::err_line::numbered_line;
use crate::outcome::{FileFault, Outcome};
use crate::print::print_line;
use pick_check::accepts::accepts;
use pick_check::read_certificate::{CERTIFICATE_LIMIT, read_certificate};
use std::alloc::Global;
use zc_outside::console::Console;
use zc_outside::read_files::read_file;
use zc_outside::store::Store;

/// Reads the certificate under this name, and if it is accepted, writes what its slots save: no slots save more.
///
/// No line about it names anything in the file, so the file isn't kept.
pub fn check<S: Store, C: Console>(
    alloc: Global,
    cert: &str,
    store: &mut S,
    console: &mut C,
) -> Outcome
    ensures { (left : List (List ℕ)) → DoesWith (Some (Check cert.now)) left result
        (world (S.shown store.old) (C.shown console.old)) (world (S.shown store.new) (C.shown console.new)) }
{
    let text = match read_file(alloc, cert, CERTIFICATE_LIMIT as u32, store) {
        Ok(text) => text,
        Err(fault) => return Outcome::from(fault),
    };
    match accepted_net(alloc, text.as_slice()) {
        Ok(net) => {
            let line = numbered_line("net ", net);
            print_line(line.as_str(), console)
        }
        Err(outcome) => outcome,
    }
}

// What the slots of the certificate in a text save, or why that isn't accepted.
fn accepted_net(alloc: Global, text: &[u8]) -> Result<u64, Outcome>
    ensures ok { IfOk result (λ net. Certifies text.now net) }
    ensures accepted { IfOk result (λ net. certificate_refusal (certificate_in text.now) ≡ None) }
    ensures err { IfErr result (λ outcome.
        (certificate_refusal (certificate_in text.now) ≡ Some outcome) ⊎ (outcome ≡ Outcome.OutOfMemory)) }
{
    let (savings, certificate) = read_certificate(alloc, text)?;
    if accepts(savings.as_slice(), &certificate) {
        Ok(certificate.net)
    } else {
        Err(Outcome::BadFile(FileFault::Rejected))
    }
}
