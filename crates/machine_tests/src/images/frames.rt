// Every push and pop, interrupted after each of its accesses and then committed, and at the ends of the stack. What it
// leaves is hashed to one number, which `fuzz/frames.py` computes by an independent model.

use super::load;
use std::alloc::Global;
use std::test::Fail;
use zc_base::reg::Reg;
use zc_machine::answer::Step;
use zc_machine::machine::Machine;

// Pushes and pops by their bits, with list 0 and no stack adjustment beyond the list's base.
const PUSH: u32 = 0xB802;

const POP: u32 = 0xBA02;

const POPRETZ: u32 = 0xBC02;

const POPRET: u32 = 0xBE02;

// A push and pops of one register, of six and of all: cm.push {ra, s0-s4}, -48; cm.pop {ra, s0-s11}, 96; cm.popretz {ra},
// 16; cm.popret {ra, s0-s4}, 48. Numbers in texts are hexadecimal.
const SOME: &str = "B896 BAFA BC42 BE96";

// a0, and the registers that lists have.
const REGISTERS: &str = "A 1 8 9 12 13 14 15 16 17 18 19 1A 1B";

// The instructions before the push or pop: two for each of these registers and for sp.
const COMMITS: u32 = 30;

// The stack's first address, an address in it, and the address after its last.
const LOW: u32 = 0x0FF0_0000;

const MIDDLE: u32 = 0x0FFF_FE80;

const HIGH: u32 = 0x1000_0000;

// Values of sp at which some accesses lie outside the stack, or at no multiple of 4: near its first address, near the one
// after its last, in the middle, and far from it.
const ENDS: &str =
    "0FEFFFC0 0FEFFFF0 0FEFFFFC 0FF00000 0FF00004 0FF00008 0FF00010 0FF00020 0FF00030 0FF00034 0FF00040
0FFFFF90 0FFFFFB0 0FFFFFC0 0FFFFFE0 0FFFFFF0 0FFFFFFC 10000000 10000004
0FFFFE81 0FFFFE82 0FFFFE83
00000000 00010000";

fn numbers(alloc: Global, text: &str) -> Result<Vec<u32>, Fail> {
    let mut numbers = Vec::new(alloc);
    for digits in text.split_whitespace() {
        numbers.push(u32::from_str_radix(digits, 16)?)?;
    }
    Ok(numbers)
}

// `lui` and `addi` that give a register a number.
fn constant(alloc: Global, register: u32, value: u32) -> Result<String, Fail> {
    let upper = value.wrapping_add(0x800) & 0xFFFF_F000 | register << 7 | 0x37;
    let lower = value << 20 | register << 15 | register << 7 | 0x13;
    Ok(format!(in alloc; "{upper:08x} {lower:08x} ")?)
}

// Code that sets the registers before each of these halfwords.
fn text_of(alloc: Global, halves: &[u32], pointer: u32) -> Result<String, Fail> {
    let mut text = String::new(alloc);
    let registers = numbers(alloc, REGISTERS)?;
    for half in halves {
        for register in &registers {
            let value = register.wrapping_mul(0x0765_4321) ^ *half;
            text.push_str(constant(alloc, *register, value)?.as_str())?;
        }
        text.push_str(constant(alloc, 2, pointer)?.as_str())?;
        text.push_str(format!(in alloc; "{half:04x} ")?.as_str())?;
    }
    Ok(text)
}

// Bytes for `count` addresses from one on.
fn pattern(alloc: Global, at: u32, count: u32) -> Result<Vec<(u32, u8)>, Fail> {
    let mut dirt = Vec::new(alloc);
    for k in 0..count {
        let address = at.wrapping_add(k);
        dirt.push((address, (address.wrapping_mul(0x9E37_79B1) >> 24) as u8))?;
    }
    Ok(dirt)
}

// Writes bytes as `pattern` gives them, by an interrupt.
fn fill(alloc: Global, machine: &mut Machine, at: u32, count: u32) -> Result<(), Fail> {
    machine.cut(&[0], pattern(alloc, at, count)?.as_slice());
    Ok(())
}

fn added(sum: u32, value: u32) -> u32 {
    sum.wrapping_mul(0x0100_0193) ^ value
}

fn with_bytes(machine: &Machine, sum: u32, at: u32, count: u32) -> Result<u32, Fail> {
    let mut sum = sum;
    if count > 0 {
        for byte in machine.piece(at, count).ok_or("no memory")? {
            sum = added(sum, u32::from(*byte));
        }
    }
    Ok(sum)
}

// pc, the registers, and the stack's ends and middle.
fn with_state(machine: &Machine, sum: u32) -> Result<u32, Fail> {
    let mut sum = added(sum, machine.pc());
    for number in 0..32_u8 {
        sum = added(
            sum,
            machine.register(Reg::new(number).ok_or("no register")?),
        );
    }
    sum = with_bytes(machine, sum, LOW, 128)?;
    sum = with_bytes(machine, sum, MIDDLE - 128, 256)?;
    with_bytes(machine, sum, HIGH - 128, 128)
}

// A step's result: 0 for a commit, otherwise the number of the reason why the machine stops.
fn stepped(machine: &mut Machine) -> u32 {
    if machine.commits() > 9999 {
        return 99;
    }
    match machine.step() {
        Step::Committed => 0,
        Step::Stopped(reason) => reason.number(),
        Step::Wants(_) | Step::Ended(_) | Step::Asks(_) => 98,
    }
}

// What pushes or pops leave that begin at this sp, one after another: after each access, after several in another order with
// bytes, and after the commit.
fn frames(alloc: Global, halves: &[u32], pointer: u32, sum: u32) -> Result<u32, Fail> {
    let mut sum = sum;
    let mut machine = load(alloc, text_of(alloc, halves, pointer)?.as_str())?;
    fill(alloc, &mut machine, LOW, 128)?;
    fill(alloc, &mut machine, MIDDLE - 128, 256)?;
    fill(alloc, &mut machine, HIGH - 128, 128)?;
    let dirt = pattern(alloc, pointer.wrapping_sub(6), 12)?;
    for _half in halves {
        sum = frame(&mut machine, dirt.as_slice(), sum)?;
    }
    Ok(sum)
}

fn frame(machine: &mut Machine, dirt: &[(u32, u8)], sum: u32) -> Result<u32, Fail> {
    let mut sum = sum;
    for _k in 0..COMMITS {
        sum = added(sum, stepped(machine));
    }
    for access in 0..14_u8 {
        machine.cut(&[access], &[]);
        sum = with_state(machine, sum)?;
    }
    machine.cut(&[12, 3, 200, 0], dirt);
    sum = with_state(machine, sum)?;
    sum = added(sum, stepped(machine));
    with_state(machine, sum)
}

// A sum over each list at each adjustment, of a form that doesn't return.
fn lists(alloc: Global, form: u32, sum: u32) -> Result<u32, Fail> {
    let mut halves = Vec::new(alloc);
    for number in 16..64_u32 {
        halves.push(form | number << 2)?;
    }
    frames(alloc, halves.as_slice(), MIDDLE, sum)
}

// A sum over each list of a form that returns. It leaves the code, so each has a machine of its own, and each list one
// adjustment.
fn returns(alloc: Global, form: u32, sum: u32) -> Result<u32, Fail> {
    let mut sum = sum;
    for list in 4..16_u32 {
        sum = frames(alloc, &[form | list << 4 | list % 4 << 2], MIDDLE, sum)?;
    }
    Ok(sum)
}

/// The sum over all lists of all forms.
pub fn all_lists(alloc: Global) -> Result<u32, Fail> {
    let pushed = lists(alloc, PUSH, 0)?;
    let popped = lists(alloc, POP, pushed)?;
    let returned = returns(alloc, POPRETZ, popped)?;
    returns(alloc, POPRET, returned)
}

/// The sum over lists of one register, of six and of all at the ends of the stack and elsewhere.
pub fn all_ends(alloc: Global) -> Result<u32, Fail> {
    let pointers = numbers(alloc, ENDS)?;
    let mut sum = 0;
    for half in numbers(alloc, SOME)? {
        for pointer in &pointers {
            sum = frames(alloc, &[half], *pointer, sum)?;
        }
    }
    Ok(sum)
}
