// What comes before the first section: the table of jumps and calls, and the stub that sets jvt to it.

ghost use Rattle.std.specs.Prelude.{◌≡◌, ◌++◌, [], OnOk};
ghost use Rattle.psabi_sym.specs.Inputs.{parsed};
ghost use Rattle.shrink_layout.specs.Settled.{settled_address};
ghost use Rattle.shrink_layout.specs.Units.{IsTargetSlot};
ghost use Rattle.zc_base.specs.Fields.{word_bytes};
ghost use Rattle.zc_link.specs.Front.{IsFront, slot_bytes, start_address, stub_address, table_bytes};
ghost use Rattle.zc_link.specs.LaidOut.{IsLaidOut};
ghost use Rattle.zc_link.specs.Standing.{IsReady};
ghost use Rattle.zc_link.specs.TextLayout.{zc_layout};

use crate::code::Code;
use entry_stub::stub::stub;
use shrink_layout::settled::Settled;
use std::alloc::AllocError;
use zc_base::place::Place;

/// The address of the program's start.
pub fn program_start(settled: &Settled) -> u32
    requires laid { IsLaidOut (zc_layout settled.now.inputs settled.now.slots) }
    ensures { result ≡ start_address (zc_layout settled.now.inputs settled.now.slots) }
{
    let start = settled.planned().cut().entry();
    settled.address(start).unwrap()
}

/// The address of the stub, which comes after the table.
pub fn stub_address(settled: &Settled) -> u32
    requires ready { IsReady settled.now.inputs }
    requires laid { IsLaidOut (zc_layout settled.now.inputs settled.now.slots) }
    ensures { result ≡ stub_address (zc_layout settled.now.inputs settled.now.slots) }
{
    settled.planned().cut().objects().map().text + 4 * settled.slots().len() as u32
}

/// Begins a text with the table and the stub, if there are slots.
pub fn add_front(settled: &Settled, text: &mut Vec<u8>) -> Result<(), AllocError>
    requires ready { IsReady settled.now.inputs }
    requires laid { IsLaidOut (zc_layout settled.now.inputs settled.now.slots) }
    requires empty { text.old.items ≡ [] }
    ensures { OnOk result (IsFront (zc_layout settled.now.inputs settled.now.slots) text.new.items) }
{
    if settled.slots().is_empty() {
        return Ok(());
    }
    add_table(settled, text)?;
    let start = settled.planned().cut().objects().map().text;
    let jump = stub_address(settled) + 8;
    let distance = program_start(settled).wrapping_sub(jump).cast_signed();
    text.extend_from_slice(&stub(start, distance))
}

// Adds the table.
fn add_table(settled: &Settled, text: &mut Vec<u8>) -> Result<(), AllocError>
    ensures { OnOk result (text.new.items ≡ text.old.items
        ++ table_bytes (settled_address (parsed settled.now.inputs) settled.now.slots) settled.now.slots) }
{
    for slot in settled.slots() {
        Code::Word(slot_value(settled, *slot)).add_to(text)?;
    }
    Ok(())
}

// What a slot holds: the address of its place, or 0 if it is a hole.
fn slot_value(settled: &Settled, slot: Option<Place>) -> u32
    requires { IsTargetSlot (parsed settled.now.inputs) slot }
    ensures { word_bytes result
        ≡ slot_bytes (settled_address (parsed settled.now.inputs) settled.now.slots) slot }
{
    match slot {
        Some(p) => settled.address(p).unwrap(),
        None => 0,
    }
}
