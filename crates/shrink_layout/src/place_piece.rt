// The piece of a place.

ghost use Rattle.std.specs.Prelude.{◌≡◌, Some, false, true};
ghost use Rattle.frame_match.specs.Groups.{role_at};
ghost use Rattle.frame_match.specs.declared.role.Role.TheVariants.{Alone};
ghost use Rattle.psabi_sym.specs.Fixed.{is_fixed_at};
ghost use Rattle.psabi_sym.specs.Inputs.{parsed};
ghost use Rattle.block_cut.specs.Items.{is_start_at, item_at, size_at};
ghost use Rattle.shrink_layout.specs.Invariants.Made.{IsItemPlace};
ghost use Rattle.shrink_layout.specs.Invariants.Numbers.{IsHalfAt, is_table_half};
ghost use Rattle.shrink_layout.specs.Invariants.Slots.{AreNumbered, first_piece, first_unit};
ghost use Rattle.shrink_layout.specs.Pieces.{item_piece_at};
ghost use Rattle.shrink_layout.specs.Units.{OneItem};
ghost use Rattle.shrink_layout.specs.declared.piece.Piece.TheVariants.{WithOthers};

use crate::group_size::group_size;
use crate::instr_piece::{ItemPiece, without_half};
use crate::item_piece::{item_piece, kept_piece};
use crate::piece::Piece;
use crate::slots::Numbered;
use block_cut::cut::Cut;
use block_cut::item::Item;
use block_cut::place_number::PlaceNumber;
use frame_match::planned::Planned;
use frame_match::role::Role;
use zc_base::place::Place;

// The piece of items that are written together.
fn joined(size: u16) -> ItemPiece
    ensures piece { result ≡ record { piece = WithOthers size; half = 0 } }
    ensures half { is_table_half result.half ≡ false }
{
    without_half(Piece::WithOthers { size })
}

/// A place where an item starts, where that stands among all, and the item.
#[derive(Drop)]
pub struct ItemPlace<'a> {
    pub at: Place,
    pub number: PlaceNumber,
    pub item: &'a Option<Item>,
}

// The item's role in groups.
fn role_of(planned: &Planned, place: &ItemPlace) -> Role
    requires { IsItemPlace (parsed planned.now) place.now.at place.now.number place.now.item.now }
    ensures { role_at (parsed planned.now) place.now.at ≡ Some result }
{
    planned.role_at(place.number)
}

// The number of bytes that the item at a place has in its object.
fn own_size(cut: &Cut, p: Place) -> u8
    requires { is_start_at (parsed cut.now).objects p ≡ true }
    ensures { result ≡ size_at (parsed cut.now).objects p }
{
    match cut.at(p) {
        Some(place) => place.size,
        None => 0,
    }
}

// The piece of an item by itself in a fixed section: it has the bytes that it has in its object. Few sections are
// fixed, so it isn't inlined for all items.
#[inline(never)]
fn fixed_piece(of: &Numbered, at: Place, item: &Item) -> ItemPiece
    requires numbered { AreNumbered of.now }
    requires start { is_start_at (parsed of.now.planned.now).objects at ≡ true }
    requires fixed { is_fixed_at (parsed of.now.planned.now) at.object at.section ≡ true }
    ensures piece { result.piece ≡ item_piece_at (parsed of.now.planned.now) at item.now }
    ensures half { IsHalfAt (Some (OneItem item.now)) result.half }
{
    let cut = of.planned.cut();
    let lone = item_piece(cut, of.starts, item);
    ItemPiece {
        piece: kept_piece(cut, of.starts, own_size(cut, at), item),
        half: lone.half,
    }
}

// The piece of an item by itself.
fn lone_piece(of: &Numbered, at: Place, is_fixed: bool, item: &Item) -> ItemPiece
    requires numbered { AreNumbered of.now }
    requires start { is_start_at (parsed of.now.planned.now).objects at ≡ true }
    requires fixed { is_fixed ≡ is_fixed_at (parsed of.now.planned.now) at.object at.section }
    ensures piece { result.piece ≡ item_piece_at (parsed of.now.planned.now) at item.now }
    ensures half { IsHalfAt (Some (OneItem item.now)) result.half }
{
    if is_fixed {
        return fixed_piece(of, at, item);
    }
    item_piece(of.planned.cut(), of.starts, item)
}

// The piece of an item that isn't in a group.
#[tactic(auto, unfolding(crate::specs::Pieces::slot_at))]
fn alone(of: &Numbered, place: &ItemPlace, is_fixed: bool) -> ItemPiece
    requires numbered { AreNumbered of.now }
    requires start { is_start_at (parsed of.now.planned.now).objects place.now.at ≡ true }
    requires fixed { is_fixed ≡ is_fixed_at (parsed of.now.planned.now) place.now.at.object place.now.at.section }
    requires item { place.now.item.now ≡ item_at (parsed of.now.planned.now) place.now.at }
    requires alone { role_at (parsed of.now.planned.now) place.now.at ≡ Some Alone }
    ensures piece { result.piece ≡ first_piece (parsed of.now.planned.now) place.now.at }
    ensures half { IsHalfAt (first_unit (parsed of.now.planned.now) place.now.at) result.half }
{
    match place.item {
        None => joined(0),
        Some(item) => lone_piece(of, place.at, is_fixed, item),
    }
}

/// The piece of what is written, without a table, at a place where an item starts, with its short form if that is known
/// before the layout, by whether its section is fixed.
pub fn place_piece(of: &Numbered, place: &ItemPlace, is_fixed: bool) -> ItemPiece
    requires numbered { AreNumbered of.now }
    requires fixed { is_fixed ≡ is_fixed_at (parsed of.now.planned.now) place.now.at.object place.now.at.section }
    requires place { IsItemPlace (parsed of.now.planned.now) place.now.at place.now.number place.now.item.now }
    ensures piece { result.piece ≡ first_piece (parsed of.now.planned.now) place.now.at }
    ensures half { IsHalfAt (first_unit (parsed of.now.planned.now) place.now.at) result.half }
{
    match role_of(of.planned, place) {
        Role::Inside => joined(0),
        Role::First(group) => joined(group_size(group)),
        Role::Alone => alone(of, place, is_fixed),
    }
}
