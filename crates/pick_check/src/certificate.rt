// Certificates.

use std::marker::Model;

/// A choice of slots, three prices that show that no other choice saves more, and the bytes that it saves.
///
/// A slot is 0 if it is a hole, and otherwise one more than the index of a saving.
#[derive(Drop)]
pub struct Certificate {
    pub slots: Vec<u32>,
    pub prices: [u32; 3],
    pub net: u64,
}

impl Model for Certificate {
    ghost use Rattle.pick_check.specs.Certified.{Certified};

    ghost Value = { Certified };

    ghost view = { λ c. record { slots = c.slots.items; prices = c.prices; net = c.net } };
}
