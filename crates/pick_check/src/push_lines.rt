// Appends lines of a name and numbers to a text. A certificate's lines are used in other texts as well.

ghost use Rattle.std.specs.Prelude.{◌≡◌, ◌++◌, ◌∷◌, [], All, OnOk, map};
ghost use Rattle.std.specs.String.{string_bytes};
ghost use Rattle.pick_check.specs.Text.{FitsSaving, FitsSlot, line_with, saving_line, slot_line, text_of};

use crate::saving::Saving;
use std::alloc::AllocError;

/// Adds the lines of savings.
pub fn push_savings(text: &mut String, savings: &[Saving]) -> Result<(), AllocError>
    ensures lines { OnOk result (string_bytes text.new
        ≡ string_bytes text.old ++ text_of (map saving_line savings.now)) }
    ensures fits { OnOk result (All FitsSaving savings.now) }
{
    for saving in savings {
        push_saving(text, *saving)?;
    }
    Ok(())
}

// Adds the line of a saving.
fn push_saving(text: &mut String, saving: Saving) -> Result<(), AllocError>
    ensures line { OnOk result (string_bytes text.new ≡ string_bytes text.old ++ (saving_line saving ++ 10 ∷ [])) }
    ensures fits { FitsSaving saving }
{
    let numbers = [
        u64::from(saving.target.object),
        u64::from(saving.target.section),
        u64::from(saving.target.offset),
        u64::from(saving.jump_sites),
        u64::from(saving.call_sites),
    ];
    push_line(text, "saving", &numbers)
}

/// Adds the lines of slots.
pub fn push_slots(text: &mut String, slots: &[u32]) -> Result<(), AllocError>
    ensures lines { OnOk result (string_bytes text.new ≡ string_bytes text.old ++ text_of (map slot_line slots.now)) }
    ensures fits { OnOk result (All FitsSlot slots.now) }
{
    for slot in slots {
        push_slot(text, *slot)?;
    }
    Ok(())
}

// Adds the line of a slot.
fn push_slot(text: &mut String, slot: u32) -> Result<(), AllocError>
    ensures line { OnOk result (string_bytes text.new ≡ string_bytes text.old ++ (slot_line slot ++ 10 ∷ [])) }
    ensures fits { FitsSlot slot }
{
    push_line(text, "slot", &[u64::from(slot)])
}

/// Adds a line: a name, and numbers, each preceded by a space.
pub fn push_line(text: &mut String, name: &str, numbers: &[u64]) -> Result<(), AllocError>
    ensures { OnOk result (string_bytes text.new
        ≡ string_bytes text.old ++ (line_with name.now numbers.now ++ 10 ∷ [])) }
{
    text.push_str(name)?;
    for number in numbers {
        write!(text, " {number}")?;
    }
    text.push_str("\n")?;
    Ok(())
}
