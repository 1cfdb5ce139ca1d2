// How a command ends.

ghost use Rattle.std.specs.Prelude.{◌≡◌, []};

use crate::outcome::Outcome;
use std::alloc::Global;

/// How a command ends, with the files that the line of its outcome may name something in.
#[derive(Drop)]
pub struct Ending {
    pub outcome: Outcome,
    pub files: Vec<Vec<u8>>,
}

impl Ending {
    /// An outcome whose line needs no file.
    pub fn alone(alloc: Global, outcome: Outcome) -> Ending
        ensures outcome { result.outcome ≡ outcome }
        ensures files { result.files.items ≡ [] }
    {
        Ending {
            outcome,
            files: Vec::new(alloc),
        }
    }
}
