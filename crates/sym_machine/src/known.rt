// Whether a branch is taken, if that is known.

ghost use Rattle.std.specs.Prelude.{◌≡◌, ◌==◌, false, if◌then◌else◌};
ghost use Rattle.psabi_sym.specs.Inputs.{parsed};
ghost use Rattle.sym_machine.specs.Conditions as conditions;
ghost use Rattle.sym_machine.specs.Conditions.{equal_words, is_solid, known_of, numeric_condition};
ghost use Rattle.sym_machine.specs.declared.known.Known.TheVariants.{Code};
ghost use Rattle.sym_machine.specs.Kept.{word_of};
ghost use Rattle.sym_machine.specs.Objects.{program_of};

use crate::held::Held;
use crate::word::same_place;
use block_cut::cut::Cut;
use block_cut::item::Item;
use rv_decode::instr::BranchOp;
use rv_decode::results::is_taken;
use zc_base::place::Place;

/// What a word is known to be: a number, the address of a place in code, or neither.
#[derive(Clone, Copy)]
pub enum Known {
    Number(u32),
    Code(Place),
    Unknown,
}

/// What a word is known to be.
pub fn known_of(word: &Held) -> Known
    ensures { result ≡ known_of (word_of word.now) }
{
    match (word.number(), word.code()) {
        (Some(n), _) => Known::Number(n),
        (None, Some(q)) => Known::Code(q),
        (None, None) => Known::Unknown,
    }
}

// Whether what stands at a place takes up room in every image.
#[tactic(auto, unfolding(crate::specs::Objects::program_of))]
fn is_solid(cut: &Cut, q: Place) -> bool
    ensures { result ≡ is_solid ((program_of (parsed cut.now)).item q) }
{
    match cut.item(q) {
        None | Some(Item::Align(_)) => false,
        Some(
            Item::Op(_)
            | Item::Hi(_, _)
            | Item::Lo(_, _)
            | Item::PcHi(_, _)
            | Item::PcLo(_, _)
            | Item::Branch { .. }
            | Item::Jump { .. }
            | Item::Call { .. }
            | Item::Word(_)
            | Item::Raw(_)
            | Item::RawShort(_)
            | Item::RawPair(_, _),
        ) => true,
    }
}

// Whether the addresses of two places are equal.
fn equal_places(cut: &Cut, q: Place, r: Place) -> Option<bool>
    ensures { result ≡ equal_words (program_of (parsed cut.now)) (Code q) (Code r) }
{
    if same_place(q, r) {
        return Some(true);
    }
    if is_solid(cut, q) && is_solid(cut, r) {
        return Some(false);
    }
    None
}

// Whether a number is a code address: 0 isn't.
fn is_code_address(n: u32) -> Option<bool>
    ensures { result ≡ (if n == 0 then Some false else None) }
{
    if n == 0 { Some(false) } else { None }
}

// Whether two words are equal.
fn equal(cut: &Cut, a: &Held, b: &Held) -> Option<bool>
    ensures { result ≡ equal_words (program_of (parsed cut.now)) (known_of (word_of a.now)) (known_of (word_of b.now)) }
{
    match (known_of(a), known_of(b)) {
        (Known::Number(m), Known::Number(n)) => Some(m == n),
        (Known::Number(n), Known::Code(_)) | (Known::Code(_), Known::Number(n)) => is_code_address(
            n,
        ),
        (Known::Code(q), Known::Code(r)) => equal_places(cut, q, r),
        (Known::Unknown, _) | (_, Known::Unknown) => None,
    }
}

// A condition on two words, if both are numbers.
fn numeric(op: BranchOp, a: Option<u32>, b: Option<u32>) -> Option<bool>
    ensures { result ≡ numeric_condition op a b }
{
    match (a, b) {
        (Some(m), Some(n)) => Some(is_taken(op, m, n)),
        _ => None,
    }
}

/// Whether a branch is taken, by the words of its two registers.
pub fn condition(cut: &Cut, op: BranchOp, a: &Held, b: &Held) -> Option<bool>
    ensures { result ≡ conditions.condition (program_of (parsed cut.now)) op (word_of a.now) (word_of b.now) }
{
    match op {
        BranchOp::Beq => equal(cut, a, b),
        BranchOp::Bne => match equal(cut, a, b) {
            Some(same) => Some(!same),
            None => None,
        },
        BranchOp::Blt | BranchOp::Bge | BranchOp::Bltu | BranchOp::Bgeu => {
            numeric(op, a.number(), b.number())
        }
    }
}
