// The targets of a table's slots.

ghost use Rattle.std.specs.Prelude.{◌≡◌, ◌≤◌, IfOk, length};
ghost use Rattle.jumptable_pick.specs.Slots.{AreTargets, slot_place, slot_places};
ghost use Rattle.pick_check.specs.Certified.{IsAccepted};

use pick_check::certificate::Certificate;
use pick_check::saving::Saving;
use std::alloc::{AllocError, Global};
use zc_base::place::Place;

/// The targets of a certificate's slots, in order; `None` for a hole.
pub fn slot_places(
    alloc: Global,
    savings: &[Saving],
    c: &Certificate,
) -> Result<Vec<Option<Place>>, AllocError>
    requires { IsAccepted savings.now c.now }
    ensures value { IfOk result (λ places. places.items ≡ slot_places savings.now c.now.slots) }
    ensures targets { IfOk result (λ places. AreTargets savings.now places.items) }
{
    let mut places = Vec::with_capacity(alloc, c.slots.len())?;
    for slot in &c.slots {
        places.push(slot_place(savings, *slot))?;
    }
    Ok(places)
}

// The target of a slot.
fn slot_place(savings: &[Saving], slot: u32) -> Option<Place>
    requires { slot ≤ length savings.now }
    ensures { result ≡ slot_place savings.now slot }
{
    match slot {
        0 => None,
        _ => Some(savings[slot as usize - 1].target),
    }
}
