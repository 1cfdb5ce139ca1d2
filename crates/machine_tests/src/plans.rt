// Texts of plans, and what is read from them: `|` means a line feed, `^` a carriage return, `~` a tab, and `%` a byte
// of zero.

use interrupt_plan::plan::Plan;
use interrupt_plan::read_plan::read_plan;
use std::alloc::{AllocError, Global};
use std::test::Fail;

const FIRST_LINES: &str = " = line 1 isn't one of a plan
zcld plan 1 = line 1 isn't one of a plan
zcld plan 1| =
zcld plan 2| = line 1 isn't one of a plan
zcld plan 1 | = line 1 isn't one of a plan
zcld plan 1^| = line 1 isn't one of a plan
zcld plan 1%| = line 1 isn't one of a plan
zcld plan 01| = line 1 isn't one of a plan
zcld  plan 1| = line 1 isn't one of a plan
zcld certificate 1| = line 1 isn't one of a plan
zcld shared 1| = line 1 isn't one of a plan
þzcld plan 1| = line 1 isn't one of a plan
|zcld plan 1| = line 1 isn't one of a plan
cut 3| = line 1 isn't one of a plan
zcld plan 1|cut 3 = line 2 isn't one of a plan
zcld plan 1||cut 3| = line 2 isn't one of a plan
zcld plan 1|cut 3|| = line 3 isn't one of a plan
zcld plan 1|cut 3|end| = line 3 isn't one of a plan
zcld plan 1|cut 3|cut 2| = line 3 comes before the line above it
zcld plan 1|cut 3|cut 2|cut| = line 3 comes before the line above it
zcld plan 1|cut 3|cut 2 = line 3 isn't one of a plan
zcld plan 1|cut 3|cut 02| = line 3 isn't one of a plan
zcld plan 1|cut 3|cut 3 a1| = 3 [] []; 3 [1] [];";

const LINES: &str = "cut = bad
cut  = bad
cut  3 = bad
 cut 3 = bad
cut 3  = bad
cut 3^ = bad
cut~3 = bad
cut 3% = bad
% = bad
cut 3 þ = bad
cut -1 = bad
cut 0x3 = bad
cut 03 = bad
cut +3 = bad
cut 0 = 0 [] [];
cut 18446744073709551615 = 18446744073709551615 [] [];
cut 18446744073709551616 = bad
cut 3 a0 a255 = 3 [0, 255] [];
cut 3 a256 = bad
cut 3 a01 = bad
cut 3 a-1 = bad
cut 3 a4294967297 = bad
cut 3 a = bad
cut 3 A1 = bad
cut 3 a1 d00000fff:0a = 3 [1] [(4095, 10)];
cut 3 dffffffff:ff d00000000:00 = 3 [] [(4294967295, 255), (0, 0)];
cut 3 d00000fff:0a a1 = bad
cut 3 d00000FFF:0a = bad
cut 3 d00000fff:0A = bad
cut 3 d00000ffg:0a = bad
cut 3 d0000fff:0a = bad
cut 3 d000000fff:0a = bad
cut 3 d00000fff0a = bad
cut 3 d00000fff:a = bad
cut 3 d00000fff:00a = bad
cut 3 s00100000:07 = bad
cut 3 d00000fff:0a s00100000:07 = bad";

// The interrupts of a plan, each with its commit, its accesses and its bytes.
fn told(alloc: Global, plan: &Plan) -> Result<String, AllocError> {
    let mut text = String::new(alloc);
    for i in 0..plan.cut_count() {
        let cut = plan.cut(i);
        let at = cut.at;
        let done = cut.done.as_slice();
        let dirt = cut.dirt.as_slice();
        text.push_str(format!(in alloc; " {at} {done:?} {dirt:?};")?.as_str())?;
    }
    Ok(text)
}

// The bytes that a text stands for.
pub fn bytes_of(alloc: Global, text: &str) -> Result<Vec<u8>, AllocError> {
    let mut bytes = Vec::new(alloc);
    for byte in text.bytes() {
        bytes.push(match byte {
            b'|' => b'\n',
            b'^' => b'\r',
            b'~' => b'\t',
            b'%' => 0,
            _ => byte,
        })?;
    }
    Ok(bytes)
}

fn answer(alloc: Global, text: &str) -> Result<String, AllocError> {
    let bytes = bytes_of(alloc, text)?;
    read(alloc, bytes.as_slice())
}

// What is read from a text.
fn read(alloc: Global, text: &[u8]) -> Result<String, AllocError> {
    match read_plan(alloc, text) {
        Ok(plan) => told(alloc, &plan),
        Err(fault) => format!(in alloc; " {fault}"),
    }
}

#[test]
fn the_first_line_that_may_not_stand_is_named(rt: HostRuntime) -> Result<(), Fail> {
    for row in FIRST_LINES.split('\n') {
        let (text, wanted) = row.split_once(" =").ok_or("no answer")?;
        assert_eq!(rt; answer(rt.alloc(), text)?.as_str(), wanted, "{text}");
    }
    Ok(())
}

#[test]
fn a_line_is_read_or_bad(rt: HostRuntime) -> Result<(), Fail> {
    for row in LINES.split('\n') {
        let (line, given) = row.split_once(" =").ok_or("no answer")?;
        let wanted = if given == " bad" {
            " line 2 isn't one of a plan"
        } else {
            given
        };
        let text = format!(in rt.alloc(); "zcld plan 1|{line}|")?;
        assert_eq!(rt;
            answer(rt.alloc(), text.as_str())?.as_str(),
            wanted,
            "{line}"
        );
    }
    Ok(())
}

#[test]
fn a_text_above_the_limit_is_too_large(rt: HostRuntime) -> Result<(), Fail> {
    let feeds = vec![in rt.alloc(); b'\n'; 8_388_609]?;
    let within = read(rt.alloc(), &feeds[1..])?;
    let above = read(rt.alloc(), feeds.as_slice())?;
    assert_eq!(rt; within.as_str(), " line 1 isn't one of a plan");
    assert_eq!(rt; above.as_str(), " the plan is too large");
    Ok(())
}

#[test]
fn a_line_may_have_all_accesses(rt: HostRuntime) -> Result<(), Fail> {
    let mut text = String::from_str(rt.alloc(), "zcld plan 1|cut 0")?;
    let mut all = Vec::new(rt.alloc());
    for number in 0..=255_u8 {
        text.push_str(format!(in rt.alloc(); " a{number}")?.as_str())?;
        all.push(number)?;
    }
    text.push_str("|")?;
    let wanted = format!(in rt.alloc(); " 0 {:?} [];", all.as_slice())?;
    assert_eq!(rt;
        answer(rt.alloc(), text.as_str())?.as_str(),
        wanted.as_str()
    );
    Ok(())
}
