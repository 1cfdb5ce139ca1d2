// Pairs of moves.

ghost use Rattle.std.specs.Prelude.{◌≡◌};
ghost use Rattle.frame_match.specs.Matches.{either_pair, is_from_saved, is_saved as is_saved_register, is_to_saved, moves_in, pair_of};

use crate::found::{Found, Move};
use crate::read::moved;
use crate::run::Run;
use zc_base::reg::Reg;
use zc_decode::short::Short;

// Whether a register is one of s0 to s7.
fn is_saved(register: Reg) -> bool
    ensures { result ≡ is_saved_register register }
{
    let number = register.number();
    8 <= number && number <= 9 || 18 <= number && number <= 23
}

// Whether two moves are from a0 and a1 to two different registers of s0 to s7.
fn to_saved(a: &Move, b: &Move) -> bool
    ensures { result ≡ is_to_saved a.now b.now }
{
    a.source.number() == 10
        && b.source.number() == 11
        && is_saved(a.rd)
        && is_saved(b.rd)
        && a.rd.number() != b.rd.number()
}

// Whether two moves are from registers of s0 to s7 to a0 and a1.
fn from_saved(a: &Move, b: &Move) -> bool
    ensures { result ≡ is_from_saved a.now b.now }
{
    a.rd.number() == 10 && b.rd.number() == 11 && is_saved(a.source) && is_saved(b.source)
}

// The halfword for two moves: `a` is the move from or to a0, and `b` the move from or to a1.
fn pair(a: &Move, b: &Move) -> Option<Short>
    ensures { result ≡ pair_of a.now b.now }
{
    if to_saved(a, b) {
        Some(Short::MoveSa {
            first: a.rd,
            second: b.rd,
        })
    } else if from_saved(a, b) {
        Some(Short::MoveAs {
            first: a.source,
            second: b.source,
        })
    } else {
        None
    }
}

// The halfword for two moves in either order.
fn either(a: Option<Move>, b: Option<Move>) -> Option<Short>
    ensures { result ≡ either_pair a b }
{
    let a = a?;
    let b = b?;
    match pair(&a, &b) {
        Some(kind) => Some(kind),
        None => pair(&b, &a),
    }
}

/// The pair of moves that instructions begin with.
pub fn moves(run: &Run) -> Option<Found>
    ensures { result ≡ moves_in run.now }
{
    let kind = either(moved(run.get(0)), moved(run.get(1)))?;
    Some(Found {
        items: 2,
        kind,
        rest: 0,
    })
}
