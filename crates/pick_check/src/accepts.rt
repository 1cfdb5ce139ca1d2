// The checker of certificates.

ghost use Rattle.std.specs.Prelude.{◌≡◌, ◌≤◌, ◌↔◌, length, IsTrue};
ghost use Rattle.pick_check.specs.Best.{IsAssignment, NoneSavesMore};
ghost use Rattle.pick_check.specs.Certified.{IsAccepted, is_accepted};

use crate::assignment::{cost_of, saved_of};
use crate::bound::bound_of;
use crate::certificate::Certificate;
use crate::saving::Saving;

/// Whether the net of a certificate is both what its slots save and the bound by its prices.
pub fn accepts(savings: &[Saving], c: &Certificate) -> bool
    requires { length savings.now ≤ 1048576 }
    ensures value { result ≡ is_accepted savings.now c.now }
    ensures exactly { IsTrue result ↔ IsAccepted savings.now c.now }
    // if a certificate is accepted, no assignment saves more than its net
    ensures best { IsTrue result → NoneSavesMore savings.now c.now.net }
{
    saves_most(savings, c)
}

// The test of `accepts`, with what its result means; `accepts` shows that this is `is_accepted`.
fn saves_most(savings: &[Saving], c: &Certificate) -> bool
    requires { length savings.now ≤ 1048576 }
    ensures exactly { IsTrue result ↔ IsAccepted savings.now c.now }
    ensures best { IsTrue result → NoneSavesMore savings.now c.now.net }
{
    if !is_assignment(savings, &c.slots) {
        return false;
    }
    let saved = saved_of(savings, &c.slots);
    let cost = cost_of(&c.slots);
    saved >= cost && saved - cost == c.net && c.net == bound_of(savings, c.prices)
}

// Whether there are at most 256 slots, each a hole or the number of a saving.
fn is_assignment(savings: &[Saving], slots: &[u32]) -> bool
    ensures { IsTrue result ↔ IsAssignment savings.now slots.now }
{
    slots.len() <= 256 && slots.iter().all(|slot| *slot as usize <= savings.len())
}
