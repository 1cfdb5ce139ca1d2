// Texts of certificates, and what is read from them.
//
// In a row `|` means a line feed, `^` a carriage return, `%` a byte of zero, `_` a line `slot 0`, and `~` eight of
// these lines.

use crate::rows::{expect, same};
use pick_check::accepts::accepts;
use pick_check::certificate::Certificate;
use pick_check::fault::CertFault;
use pick_check::read_certificate::read_certificate;
use pick_check::saving::Saving;
use pick_check::write_certificate::write_certificate;
use std::alloc::{AllocError, Global};
use std::process::Abort;
use std::test::Fail;

const HOLES: &str = "slot 0\nslot 0\nslot 0\nslot 0\nslot 0\nslot 0\nslot 0\nslot 0\n";

// The byte that a character of a row means: itself, or another one.
fn single(byte: u8) -> u8 {
    match byte {
        b'|' => b'\n',
        b'^' => b'\r',
        b'%' => 0,
        _ => byte,
    }
}

// Adds what a character of a row means.
fn add_byte(bytes: &mut Vec<u8>, byte: u8) -> Result<(), AllocError> {
    match byte {
        b'_' => bytes.extend_from_slice(b"slot 0\n"),
        b'~' => bytes.extend_from_slice(HOLES.as_bytes()),
        _ => Ok(bytes.push(single(byte))?),
    }
}

fn add_bytes(bytes: &mut Vec<u8>, row: &str) -> Result<(), AllocError> {
    for byte in row.bytes() {
        add_byte(bytes, byte)?;
    }
    Ok(())
}

// What a certificate that was read holds, as text. It is also written, which should give the text again.
fn said_of_read(
    alloc: Global,
    bytes: &[u8],
    savings: &[Saving],
    certificate: &Certificate,
) -> Result<String, AllocError> {
    if savings.len() > 160_000 || certificate.slots.len() > 256 {
        return String::from_str(alloc, "too many lines");
    }
    let written = write_certificate(alloc, savings, certificate)?;
    if written.as_slice() != bytes {
        return String::from_str(alloc, "written in another way");
    }
    if accepts(savings, certificate) {
        format!(in alloc; "{}", certificate.net)
    } else {
        String::from_str(alloc, "rejected")
    }
}

// The result for a text: which line is bad, or the net, if the checker accepts the certificate.
fn said_of(alloc: Global, bytes: &[u8]) -> Result<String, AllocError> {
    match read_certificate(alloc, bytes) {
        Ok((savings, certificate)) => {
            said_of_read(alloc, bytes, savings.as_slice(), &certificate)
        }
        Err(CertFault::BadLine { number }) => format!(in alloc; "line {number}"),
        Err(fault) => format!(in alloc; "{fault}"),
    }
}

// What comes before and after a row.
fn around(call: &str) -> (&'static str, &'static str) {
    match call {
        "lines" => ("zcld certificate 1|", "|end|"),
        "line 2" => ("zcld certificate 1|", "|price 0 0 0|net 0|end|"),
        _ => ("", ""),
    }
}

/// The result for a text, or for the lines between the first and the last of a certificate, or for line 2 of one.
pub fn answer(alloc: Global, call: &str, row: &str) -> Result<String, AllocError> {
    let (before, after) = around(call);
    let mut bytes = Vec::new(alloc);
    add_bytes(&mut bytes, before)?;
    add_bytes(&mut bytes, row)?;
    add_bytes(&mut bytes, after)?;
    said_of(alloc, bytes.as_slice())
}

// Slots, prices and a net, for savings worked out by hand: the net of the certificate, or that it isn't accepted.
const CHECKED: &str = "price 0 0 0|net 0 = 0
price 0 0 0|net 1 = rejected
saving 0 1 0 0 50|price 0 0 0|net 0 = 0
saving 0 1 0 0 30|saving 0 1 4 0 50|saving 0 1 8 0 4|~~~~slot 2|slot 1|slot 3|price 0 0 0|net 16 = 16
saving 0 1 0 0 30|saving 0 1 4 0 50|saving 0 1 8 0 4|~~~~slot 3|slot 2|slot 1|price 0 0 0|net 16 = 16
saving 0 1 0 0 30|saving 0 1 4 0 50|saving 0 1 8 0 4|~~~~slot 2|slot 1|slot 3|price 0 0 1|net 16 = rejected
saving 0 1 0 0 30|saving 0 1 4 0 50|saving 0 1 8 0 4|~~~~slot 2|slot 1|slot 3|price 0 0 1|net 237 = rejected
saving 0 1 0 0 30|saving 0 1 4 0 50|saving 0 1 8 0 4|~~~_______slot 2|slot 1|slot 3|_price 0 0 0|net 16 = rejected
saving 0 1 0 0 30|saving 0 1 4 0 50|saving 0 1 8 0 4|~~~~slot 2|slot 1|price 0 0 0|net 12 = rejected
saving 0 1 0 10 0|saving 0 1 4 3 0|saving 0 1 8 2 0|slot 1|slot 2|price 0 0 0|net 6 = 6
saving 0 1 0 10 0|saving 0 1 4 3 0|saving 0 1 8 2 0|slot 2|slot 1|price 0 0 0|net 6 = 6
saving 0 1 0 10 0|saving 0 1 4 3 0|saving 0 1 8 2 0|slot 1|slot 2|slot 3|price 0 0 0|net 6 = 6
saving 0 1 0 10 0|saving 0 1 4 3 0|saving 0 1 8 2 0|slot 1|price 0 0 0|net 4 = rejected
saving 0 1 0 10 0|saving 0 1 4 3 0|saving 0 1 8 2 0|slot 1|slot 2|slot 4|price 0 0 0|net 2 = rejected
saving 0 1 0 10 0|slot 1|slot 1|price 0 0 0|net 0 = rejected
saving 0 1 0 10 0|slot 1|slot 1|price 0 0 0|net 20 = rejected
saving 0 1 0 10 0|slot 1|slot 2|price 0 0 0|net 0 = rejected
saving 0 1 0 10 0|slot 1|slot 4294967295|price 0 0 0|net 0 = rejected
saving 0 1 0 10 0|saving 0 1 0 10 0|slot 1|slot 2|price 0 0 0|net 20 = 20
saving 0 0 0 90 90|slot 1|~~~_______slot 1|price 0 0 0|net 216 = 216
saving 65535 65535 4294967295 4294967295 4294967295|~~~_______slot 1|slot 1|price 0 0 0|net 17179869036 = 17179869036
~~~~~~~~~~~~~~~~~~~~~~~~~~~~~~~~price 0 0 0|net 0 = rejected
price 4294967295 4294967295 4294967295|net 0 = rejected
price 4294967295 4294967295 4294967295|net 1099511627380 = rejected
price 0 0 0|net 18446744073709551615 = rejected";

#[test]
fn a_certificate_is_checked(rt: HostRuntime) -> Result<(), Fail> {
    expect(&rt, "lines", CHECKED)
}

const FAULTS: &str = " = line 1
zcld certificate 1 = line 1
zcld certificate 1| = line 2
zcld certificate 2|price 0 0 0|net 0|end| = line 1
|zcld certificate 1|price 0 0 0|net 0|end| = line 1
zcld certificate 1 |price 0 0 0|net 0|end| = line 1
zcld certificate 1^|price 0 0 0|net 0|end| = line 1
zcld certificate 1%|price 0 0 0|net 0|end| = line 1
zcld certificate 01|price 0 0 0|net 0|end| = line 1
zcld plan 1| = line 1
þzcld certificate 1|price 0 0 0|net 0|end| = line 1
zcld certificate 1|zcld certificate 1|price 0 0 0|net 0|end| = line 2
zcld certificate 1|price 0 0 0| = line 3
zcld certificate 1|price 0 0 0|net 0 = line 3
zcld certificate 1|price 0 0 0|net 0| = line 4
zcld certificate 1|price 0 0 0|net 0|end = line 4
zcld certificate 1|price 0 0 0|net 0|end | = line 4
zcld certificate 1|price 0 0 0|net 0|end|| = line 5
zcld certificate 1|price 0 0 0|net 0|end| . = line 5
zcld certificate 1|price 0 0 0|net 0|end|% = line 5
zcld certificate 1|price 0 0 0|net 18446744073709551616|end| = line 3
zcld certificate 1|price 0 0 0|net -1|end| = line 3
zcld certificate 1|price 0 0 0|net 0|end|end| = line 5
zcld certificate 1|net 0|price 0 0 0|end| = line 2
zcld certificate 1|price 0 0 0|price 0 0 0|net 0|end| = line 3
zcld certificate 1||price 0 0 0|net 0|end| = line 2
zcld certificate 1|slot 1|saving 0 1 0 10 0|price 0 0 0|net 0|end| = line 3
zcld certificate 1|saving 0 1 0 10 0|slot 1|saving 0 1 0 10 0|price 0 0 0|net 0|end| = line 4
zcld certificate 1|saving 0 1 0 10 0|price 0 0 0|slot 1|net 0|end| = line 4
zcld certificate 1|~~~~~~~~~~~~~~~~~~~~~~~~~~~~~~~~slot 0|price 0 0 0|net 0|end| = line 258
zcld certificate 1|~~~~slot 00|price 0 0 0|net 0|end| = line 34
zcld certificate 1|saving 0 1 0 0 50 |price 0 0 0|net 0|end| = line 2
zcld certificate 1|slot |price 0 0 0|net 0|end| = line 2";

#[test]
fn the_first_line_that_may_not_stand_is_named(rt: HostRuntime) -> Result<(), Fail> {
    expect(&rt, "text", FAULTS)
}

const LINES: &str = "saving 0 1 0 0 050 = line 2
saving 00 1 0 0 50 = line 2
saving 65536 1 0 0 50 = line 2
saving 0 65536 0 0 50 = line 2
saving 0 1 4294967296 0 50 = line 2
saving 0 1 0 4294967296 50 = line 2
saving 0 1 0 0 4294967296 = line 2
saving 0 1 0 0 = line 2
saving 0 1 0 0 50 0 = line 2
saving  0 1 0 0 50 = line 2
saving 0 1 0 0 +50 = line 2
saving 0 1 0 0 -1 = line 2
saving 0 1 0 0 0x5 = line 2
saving 0 1 0 0 50^ = line 2
saving 0 1 0 0 50% = line 2
saving 0 1 0 0 99999999999999999999 = line 2
% = line 2
 = line 2
þ = line 2
Saving 0 1 0 0 50 = line 2
 saving 0 1 0 0 50 = line 2
saving0 1 0 0 50 = line 2
saving = line 2
slot 4294967296 = line 2
slot 01 = line 2
slot 1 1 = line 2
slot = line 2
slots 1 = line 2
price 4294967296 0 0 = line 2
price 0 4294967296 0 = line 2
price 0 0 4294967296 = line 2
price 0 0 = line 2
price 0 0 0 0 = line 2
price 0 0 00 = line 2
prices 0 0 0 = line 2
net 0 = line 2
end = line 2";

#[test]
fn a_line_is_refused(rt: HostRuntime) -> Result<(), Fail> {
    expect(&rt, "line 2", LINES)
}

// The result for a text of `length` line feeds.
fn told_of(alloc: Global, length: usize) -> Result<String, Fail> {
    let mut text = Vec::new(alloc);
    text.resize(length, b'\n')?;
    match read_certificate(alloc, text.as_slice()) {
        Ok(_read) => Err("it is read".into()),
        Err(fault) => Ok(format!(in alloc; "{fault}")?),
    }
}

// Checks the result for a text of `length` line feeds.
fn expect_feeds<R: Abort + AllocGlobal>(rt: &R, length: usize, want: &str) -> Result<(), Fail> {
    let found = told_of(rt.alloc(), length)?;
    same(rt, found.as_str(), want, "text", "of line feeds");
    Ok(())
}

#[test]
fn a_text_above_the_limit_is_too_large(rt: HostRuntime) -> Result<(), Fail> {
    expect_feeds(&rt, 8_388_608, "line 1 isn't one of a certificate")?;
    expect_feeds(&rt, 8_388_609, "the certificate is too large")
}
