// Certificates, read from texts.

ghost use Rattle.std.specs.Prelude.{◌≡◌, ◌⊎◌, ◌+◌, ◌*◌, ◌<◌, ◌≤◌, ◌++◌, IfOk, IfErr, Ok, Err, None, length, drop};
ghost use Rattle.std.specs.Result.{result_map_both};
ghost use Rattle.pick_check.specs.Fault.{IsCertFault};
ghost use Rattle.pick_check.specs.Text.{IsCertText, ReadsEachCert, certificate_in, certificate_of, last_in, read_first, read_while, saving_in_line, slot_in_line};
ghost use Rattle.text_lines.specs.Lines.{lines_of};

use crate::certificate::Certificate;
use crate::fault::CertFault;
use crate::first::{behind_line, first_net, first_prices, first_saving, first_slot};
use crate::saving::Saving;
use std::alloc::{AllocError, Global};

/// The longest text that is read, in bytes.
pub const CERTIFICATE_LIMIT: usize = 8_388_608;

/// The savings and the certificate that a text spells, or the first fault in the text, with the number of its line.
pub fn read_certificate(alloc: Global, text: &[u8]) -> Result<(Vec<Saving>, Certificate), CertFault>
    ensures ok { IfOk result (λ r. certificate_in text.now ≡ Ok (r.0.items, r.1)) }
    ensures err { IfErr result (λ fault. (fault ≡ CertFault.OutOfMemory) ⊎ (certificate_in text.now ≡ Err fault)) }
    ensures fault { IfErr result (IsCertFault text.now) }
    ensures spells { IfOk result (λ r. IsCertText text.now r.0.items r.1) }
    ensures few { IfOk result (λ r. length r.0.items ≤ 1048576) }
    ensures complete { ReadsEachCert text.now (result_map_both (λ r. (r.0.items, r.1)) (λ fault. fault) result) }
{
    if text.len() > CERTIFICATE_LIMIT {
        return Err(CertFault::TooLarge);
    }
    read_lines(alloc, text)
}

// The savings and the certificate that a text within the limit spells.
fn read_lines(alloc: Global, text: &[u8]) -> Result<(Vec<Saving>, Certificate), CertFault>
    requires { length text.now ≤ CERTIFICATE_LIMIT }
    ensures ok { IfOk result (λ r. certificate_of (lines_of text.now) ≡ Ok (r.0.items, r.1)) }
    ensures err { IfErr result (λ fault. (fault ≡ CertFault.OutOfMemory)
        ⊎ (certificate_of (lines_of text.now) ≡ Err fault)) }
    ensures few { IfOk result (λ r. length r.0.items ≤ 1048576) }
{
    let Some(lines) = behind_line(text, b"zcld certificate 1") else {
        return Err(CertFault::BadLine { number: 1 });
    };
    let (savings, behind) = read_savings(alloc, lines)?;
    let (slots, rest) = read_slots(alloc, behind)?;
    let number = 2 + savings.len() as u32 + slots.len() as u32;
    let last = read_last(rest, number)?;
    let prices = last.0;
    let net = last.1;
    Ok((savings, Certificate { slots, prices, net }))
}

// The savings whose lines a text begins with, and what follows them.
fn read_savings(alloc: Global, lines: &[u8]) -> Result<(Vec<Saving>, &[u8]), AllocError>
    ensures savings { IfOk result (λ r. read_while saving_in_line (lines_of lines.now) ≡ r.0.items) }
    ensures rest { IfOk result (λ r. lines_of r.1.now ≡ drop (length r.0.items) (lines_of lines.now)) }
    ensures few { IfOk result (λ r. 8 * length r.0.items ≤ length lines.now) }
{
    let mut savings = Vec::new(alloc);
    let mut rest = lines;
    while let Some((saving, behind)) = first_saving(rest) {
        savings.push(saving)?;
        rest = behind;
    }
    Ok((savings, rest))
}

// The slots, at most 256, whose lines a text begins with, and what follows them.
fn read_slots(alloc: Global, lines: &[u8]) -> Result<(Vec<u32>, &[u8]), AllocError>
    ensures slots { IfOk result (λ r. read_while slot_in_line (lines_of lines.now)
        ≡ r.0.items ++ read_while slot_in_line (lines_of r.1.now)) }
    ensures rest { IfOk result (λ r. lines_of r.1.now ≡ drop (length r.0.items) (lines_of lines.now)) }
    ensures few { IfOk result (λ r. length r.0.items ≤ 256) }
    ensures last { IfOk result (λ r. (read_first slot_in_line (lines_of r.1.now) ≡ None) ⊎ (length r.0.items ≡ 256)) }
{
    let mut slots = Vec::new(alloc);
    let mut rest = lines;
    while slots.len() < 256 {
        let Some((slot, behind)) = first_slot(rest) else {
            break;
        };
        slots.push(slot)?;
        rest = behind;
    }
    Ok((slots, rest))
}

// The prices and the net, from the last lines; `number` is the number of the first of these lines.
fn read_last(text: &[u8], number: u32) -> Result<([u32; 3], u64), CertFault>
    requires { number ≤ 2097152 }
    ensures { result ≡ last_in number (lines_of text.now) }
{
    let Some(priced) = first_prices(text) else {
        return Err(CertFault::BadLine { number });
    };
    let Some((net, end)) = first_net(priced.1) else {
        return Err(CertFault::BadLine { number: number + 1 });
    };
    let Some(rest) = behind_line(end, b"end") else {
        return Err(CertFault::BadLine { number: number + 2 });
    };
    if rest.len() > 0 {
        return Err(CertFault::BadLine { number: number + 3 });
    }
    let prices = priced.0;
    Ok((prices, net))
}
