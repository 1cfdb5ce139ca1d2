// The number of groups of each kind.

ghost use Rattle.std.specs.Prelude.{◌≡◌, ◌≤◌, if◌then◌else◌};
ghost use Rattle.psabi_sym.specs.Inputs.{parsed};
ghost use Rattle.shrink_layout.specs.Settled.{groups_with, is_move, is_pop};
ghost use Rattle.shrink_layout.specs.Units.{is_push};

use frame_match::planned::Planned;
use zc_decode::short::Short;

/// The number of pushes, pops and moves.
#[derive(Clone, Copy)]
pub struct GroupCounts {
    pub pushes: u32,
    pub pops: u32,
    pub moves: u32,
}

// The counts of one group.
fn counts_of(kind: Short) -> GroupCounts
    ensures pushes { result.pushes ≡ (if is_push kind then 1 else 0) }
    ensures pops { result.pops ≡ (if is_pop kind then 1 else 0) }
    ensures moves { result.moves ≡ (if is_move kind then 1 else 0) }
    ensures most { result.pushes ≤ 1 }
    ensures most_pops { result.pops ≤ 1 }
    ensures most_moves { result.moves ≤ 1 }
{
    let none = GroupCounts {
        pushes: 0,
        pops: 0,
        moves: 0,
    };
    match kind {
        Short::Push { .. } => GroupCounts { pushes: 1, ..none },
        Short::Pop { .. } | Short::PopRet { .. } | Short::PopRetz { .. } => {
            GroupCounts { pops: 1, ..none }
        }
        Short::MoveSa { .. } | Short::MoveAs { .. } => GroupCounts { moves: 1, ..none },
        Short::Base(_) | Short::TableJump { .. } => none,
    }
}

/// The number of groups of each kind that were found.
pub fn count_groups(planned: &Planned) -> GroupCounts
    ensures pushes { result.pushes ≡ groups_with (parsed planned.now) is_push }
    ensures pops { result.pops ≡ groups_with (parsed planned.now) is_pop }
    ensures moves { result.moves ≡ groups_with (parsed planned.now) is_move }
{
    let mut pushes = 0;
    let mut pops = 0;
    let mut moves = 0;
    for i in 0..planned.group_count() {
        let one = counts_of(planned.group(i).kind);
        pushes += one.pushes;
        pops += one.pops;
        moves += one.moves;
    }
    GroupCounts {
        pushes,
        pops,
        moves,
    }
}
