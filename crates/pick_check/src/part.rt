// The two parts of the jump table.

ghost use Rattle.std.specs.Prelude.{◌≡◌, ◌<◌, ◌^◌};
ghost use Rattle.pick_check.specs.Saved.{saved_by};

use crate::saving::Saving;

/// A part of the jump table: the entries below 32 serve jumps, and those from 32 up serve calls (RISC-V Zc
/// specification 1.0, "Zcmt").
#[derive(Clone, Copy, PartialEq, Eq, Debug)]
pub enum Part {
    Jumps,
    Calls,
}

impl Part {
    /// The bytes that a slot in this part saves at the sites of one target.
    pub fn saved_by(self, saving: &Saving) -> u64
        ensures value { result ≡ saved_by self saving.now }
        ensures below { result < 2 ^ 33 }
    {
        let sites = match self {
            Part::Jumps => saving.jump_sites,
            Part::Calls => saving.call_sites,
        };
        2 * u64::from(sites)
    }
}
