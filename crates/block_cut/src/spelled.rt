// The items of bytes without a relocation.

ghost use Rattle.std.specs.Prelude.{◌≡◌, ◌<◌, ◌^◌, ◌+ℤ◌, ◌-◌, pos, IfSome, List, None, Some};
ghost use Rattle.elf32_read.specs.Parts.{ObjectParts, SectionParts};
ghost use Rattle.psabi_sym.specs.Resolve.{offset_within};
ghost use Rattle.rv_decode.specs.Immediates.{InRange};
ghost use Rattle.zc_base.specs.declared.place.Place.{Place};
ghost use Rattle.block_cut.specs.Invariants.HalfwordTables.{by_halfword, number_on};
ghost use Rattle.block_cut.specs.Items.{code_at, instr_item, spelled_item, target_away};
ghost use Rattle.block_cut.specs.Whole.{IsWhole};

use crate::halfword_tables::number_at;
use crate::item::Item;
use rv_decode::instr::Instr;
use zc_base::place::Place;

// The offset at a distance from another, if that is one.
fn offset_away(offset: u32, distance: i32) -> Option<u32>
    ensures { result ≡ offset_within (2 ^ 32 - 1) (pos offset +ℤ distance) }
{
    let to = i64::from(offset) + i64::from(distance);
    if to < 0 || i64::from(u32::MAX) < to {
        return None;
    }
    Some(to as u32)
}

// Where a branch or jump at a place leads, if an item starts there or its section ends there.
fn target_away(numbers: &[u32], q: Place, distance: i32) -> Option<Place>
    ensures { (objects : List ObjectParts) (s : SectionParts) → code_at objects q ≡ Some s → IsWhole s
        → numbers.now ≡ by_halfword (number_on s) s → result ≡ target_away objects q distance }
{
    let to = Place {
        object: q.object,
        section: q.section,
        offset: offset_away(q.offset, distance)?,
    };
    if number_at(numbers, to.offset) == 0 {
        return None;
    }
    Some(to)
}

// The item of an instruction at a place, or else its bytes, copied unread.
fn instr_item(numbers: &[u32], q: Place, instr: Instr, raw: Item) -> Item
    requires { InRange instr }
    ensures { (objects : List ObjectParts) (s : SectionParts) → code_at objects q ≡ Some s → IsWhole s
        → numbers.now ≡ by_halfword (number_on s) s → result ≡ instr_item objects q instr raw }
{
    match instr {
        Instr::Jal { rd, distance } => match target_away(numbers, q, distance) {
            Some(to) => Item::Jump { rd, to },
            None => raw,
        },
        Instr::Branch {
            op,
            first,
            second,
            distance,
        } => match target_away(numbers, q, distance) {
            Some(to) => Item::Branch {
                op,
                first,
                second,
                to,
            },
            None => raw,
        },
        Instr::Csrrw { .. } => raw,
        Instr::Upper { .. }
        | Instr::Jalr { .. }
        | Instr::Load { .. }
        | Instr::Store { .. }
        | Instr::WithImm { .. }
        | Instr::WithReg { .. }
        | Instr::Fence { .. }
        | Instr::Ecall
        | Instr::Ebreak => Item::Op(instr),
    }
}

/// The item of bytes without a relocation at a place, by the numbers of its section's places, the instruction that the
/// bytes are, if they are one, and the item that copies them unread.
pub fn item_of(numbers: &[u32], q: Place, instr: Option<Instr>, raw: Item) -> Item
    requires { IfSome instr InRange }
    ensures { (objects : List ObjectParts) (s : SectionParts) → code_at objects q ≡ Some s → IsWhole s
        → numbers.now ≡ by_halfword (number_on s) s → result ≡ spelled_item objects q instr raw }
{
    match instr {
        None => raw,
        Some(instr) => instr_item(numbers, q, instr, raw),
    }
}
