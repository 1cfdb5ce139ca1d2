// What a slot for one target would save.

use zc_base::place::Place;

/// A target of jumps and calls, with the number of jumps and the number of calls to it. A site that goes through the
/// table takes two bytes instead of four.
#[derive(Clone, Copy, PartialEq, Eq, Debug)]
pub struct Saving {
    pub target: Place,
    pub jump_sites: u32,
    pub call_sites: u32,
}
