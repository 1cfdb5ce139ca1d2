// Pushes.

ghost use Rattle.std.specs.Prelude.{◌≡◌, ◌↔◌, ◌<◌, ◌≤◌, ℕ, IfSome, IsTrue, Some};
ghost use Rattle.frame_match.specs.declared.found.Found.{Found};
ghost use Rattle.frame_match.specs.declared.slot.Access.TheVariants.{Saves};
ghost use Rattle.frame_match.specs.Matches.{push_of};
ghost use Rattle.frame_match.specs.Invariants.Frames.{list_leaving_out, IsKnown};
ghost use Rattle.frame_match.specs.Invariants.Kinds.{IsFramed, IsPush};

use crate::found::Found;
use crate::frame::Frame;
use crate::read::lowered;
use crate::run::Run;
use crate::slot::Access;
use crate::slots::{fills, left_out_by};
use zc_decode::short::Short;

/// Whether a list may have this frame, and the instructions from an index on use its slots.
pub fn is_framed(which: Access, run: &Run, from: usize, frame: Frame) -> bool
    requires known { IsKnown frame.left_out }
    requires from { from < 2 }
    ensures { IsTrue result ↔ IsFramed which frame.bytes frame.left_out run.now from }
{
    frame.is_fit() && fills(which, run, from, frame)
}

// The group of a push with this frame.
fn pushed(frame: Frame) -> Found
    requires known { IsKnown frame.left_out }
    requires bytes { frame.bytes ≤ 2032 }
    ensures { result ≡ push_of (list_leaving_out frame.left_out) frame.bytes }
{
    Found {
        items: 1 + frame.count(),
        kind: Short::Push {
            list: frame.list(),
            adjust: frame.adjust(),
        },
        rest: frame.rest(),
    }
}

/// The push that instructions begin with. Its first store decides its register list.
pub fn push(run: &Run) -> Option<Found>
    ensures known { IfSome result (λ g. IsPush run.now g) }
    ensures each { (g : Found) → IsPush run.now g → result ≡ Some g }
{
    let bytes = lowered(run.get(0))?;
    let left_out = left_out_by(Access::Saves, run.get(1), bytes)?;
    let frame = Frame { left_out, bytes };
    if is_framed(Access::Saves, run, 1, frame) {
        Some(pushed(frame))
    } else {
        None
    }
}
