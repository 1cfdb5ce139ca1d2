// Words that relocations give.

ghost use Rattle.std.specs.Prelude.{◌≡◌, ◌*◌, ◌^◌};
ghost use Rattle.psabi_reloc.specs.Parts.{hi20_of};
ghost use Rattle.psabi_sym.specs.Inputs.{parsed};
ghost use Rattle.sym_machine.specs.AddressParts as parts;
ghost use Rattle.sym_machine.specs.Kept.{word_of};
ghost use Rattle.sym_machine.specs.Objects.{program_of};

use crate::held::Held;
use crate::results::sum;
use crate::word::Value;
use block_cut::cut::Cut;
use block_cut::item::Item;
use psabi_reloc::parts::{hi20, lo12};
use psabi_sym::target::Target;
use zc_base::place::Place;

/// The word of what a symbol resolves to.
pub fn target_word(target: Target) -> Held
    ensures { word_of result ≡ parts.target_word target }
{
    match target {
        Target::Code(q) => Held::Code(q),
        Target::Number(n) | Target::Absent(n) => Held::Number(n),
        Target::Nowhere => Held::UNDEFINED,
    }
}

// A number's upper part, in its place.
fn upper(n: u32) -> u32
    ensures { result ≡ hi20_of n * 2 ^ 12 }
{
    hi20(n) << 12
}

/// The upper part of an address.
pub fn high_word(target: Target) -> Held
    ensures { word_of result ≡ parts.high_word target }
{
    match target {
        Target::Code(q) => Held::of_value(Value::AbsHi(q)),
        Target::Number(n) | Target::Absent(n) => Held::Number(upper(n)),
        Target::Nowhere => Held::UNDEFINED,
    }
}

/// The sum of a base and the lower part of an address.
pub fn low_sum(target: Target, base: &Held) -> Held
    ensures { word_of result ≡ parts.low_sum target (word_of base.now) }
{
    match target {
        Target::Code(q) if base.is_value(Value::AbsHi(q)) => Held::Code(q),
        Target::Code(_) | Target::Nowhere => Held::UNDEFINED,
        Target::Number(n) | Target::Absent(n) => sum(base, lo12(n)),
    }
}

// What the relocation of the `auipc` at a place resolves to.
#[tactic(auto, unfolding(crate::specs::Objects::program_of))]
fn pc_target(cut: &Cut, q: Place) -> Option<Target>
    ensures { result ≡ parts.pc_target ((program_of (parsed cut.now)).item q) }
{
    match cut.item(q) {
        Some(Item::PcHi(_, target)) => Some(target),
        None
        | Some(
            Item::Op(_)
            | Item::Hi(_, _)
            | Item::Lo(_, _)
            | Item::PcLo(_, _)
            | Item::Branch { .. }
            | Item::Jump { .. }
            | Item::Call { .. }
            | Item::Align(_)
            | Item::Word(_)
            | Item::Raw(_)
            | Item::RawShort(_)
            | Item::RawPair(_, _),
        ) => None,
    }
}

/// The sum of a base and the lower part that goes with the `auipc` at a place.
pub fn pc_low_sum(cut: &Cut, q: Place, base: &Held) -> Held
    ensures { word_of result ≡ parts.pc_low_sum q
        (parts.pc_target ((program_of (parsed cut.now)).item q)) (word_of base.now) }
{
    if !base.is_value(Value::PcHi(q)) {
        return Held::UNDEFINED;
    }
    match pc_target(cut, q) {
        Some(target) => target_word(target),
        None => Held::UNDEFINED,
    }
}
