// The longest group that instructions begin with.

ghost use Rattle.std.specs.Prelude.{◌≡◌};
ghost use Rattle.frame_match.specs.Matches.{longest_of};
ghost use Rattle.frame_match.specs.Invariants.Kinds.{longer_or};

use crate::found::Found;
use crate::moves::moves;
use crate::pops::pop;
use crate::pushes::push;
use crate::run::Run;

// The longer of two groups; the first if they are equally long.
fn longer(first: Option<Found>, second: Option<Found>) -> Option<Found>
    ensures { result ≡ longer_or first second }
{
    match (first, second) {
        (Some(f), Some(s)) => Some(if f.items < s.items { s } else { f }),
        (Some(f), None) => Some(f),
        (None, second) => second,
    }
}

/// The longest of all groups that the instructions begin with.
pub fn longest(run: &Run) -> Option<Found>
    ensures { result ≡ longest_of run.now }
{
    longer(longer(push(run), pop(run)), moves(run))
}
