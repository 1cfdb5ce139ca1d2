// What an assignment saves.

ghost use Rattle.std.specs.Prelude.{◌≡◌, ◌*◌, ◌<◌, ◌≤◌, ◌^◌, All, length};
ghost use Rattle.pick_check.specs.Best.{IsAssignment};
ghost use Rattle.pick_check.specs.Saved.{cost_of, saved_in, saved_of};

use crate::part::Part;
use crate::saving::Saving;

// What the slots of one part save: a target counts once, at the first slot that names it.
fn saved_in(part: Part, savings: &[Saving], slots: &[u32]) -> u64
    requires few { length slots.now ≤ 256 }
    requires in_range { All (λ slot. slot ≤ length savings.now) slots.now }
    ensures value { result ≡ saved_in part savings.now slots.now }
    ensures below { result ≤ 2 ^ 33 * length slots.now }
{
    let mut saved = 0;
    for (k, slot) in slots.iter().enumerate() {
        if *slot != 0 && !slots[..k].contains(slot) {
            saved += part.saved_by(&savings[(*slot - 1) as usize]);
        }
    }
    saved
}

/// What the slots save before the bytes of the table itself.
pub fn saved_of(savings: &[Saving], slots: &[u32]) -> u64
    requires { IsAssignment savings.now slots.now }
    ensures { result ≡ saved_of savings.now slots.now }
{
    let (low, high) = slots.split_at(slots.len().min(32));
    saved_in(Part::Jumps, savings, low) + saved_in(Part::Calls, savings, high)
}

/// The bytes of the table and of the stub that sets it up, if there is a table.
pub fn cost_of(slots: &[u32]) -> u64
    requires { length slots.now ≤ 256 }
    ensures { result ≡ cost_of slots.now }
{
    match slots {
        [] => 0,
        [_, ..] => 4 * slots.len() as u64 + 12,
    }
}
