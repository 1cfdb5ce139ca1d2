// The jumps and calls through a table, put in the place of those that it serves.

ghost use Rattle.std.specs.Prelude.{◌≡◌, ◌<◌, ◌≤◌, ◌+◌, ◌^◌, ℕ, [], List, Option, Some, false, length, slice_get, slice_set};
ghost use Rattle.psabi_sym.specs.Fixed.{is_fixed_at};
ghost use Rattle.psabi_sym.specs.Inputs.{parsed};
ghost use Rattle.psabi_sym.specs.Indexed.{all_sections};
ghost use Rattle.shrink_layout.specs.Invariants.Made.{AreHalvesOf, AreItemPlaces, ArePiecesOf, ArePut, ArePutIn, IsItemPlace, places_held};
ghost use Rattle.shrink_layout.specs.Invariants.Slots.{AreNumbered, AreSlotsOf, IsSource, first_piece, first_unit, source_inputs, source_piece, source_slots, source_unit};
ghost use Rattle.shrink_layout.specs.Pieces.{piece_number_at, pieces_of, slot_at};
ghost use Rattle.shrink_layout.specs.Units as units;
ghost use Rattle.shrink_layout.specs.Units.{CodeUnit, slot_for};
ghost use Rattle.shrink_layout.specs.declared.piece.Piece.TheVariants.{WithOthers};
ghost use Rattle.zc_decode.specs.declared.short.Short.TheVariants.{TableJump};
ghost use Rattle.zc_encode.specs.Halves.{encoded16};

use crate::numbers::piece_number;
use crate::piece::Piece;
use crate::pieces::{Pieces, SectionPlaces};
use crate::place_piece::ItemPlace;
use crate::slots::{Numbered, PieceSource, Slots};
use crate::table_halves::table_half;
use block_cut::item::Item;
use zc_base::place::Place;
use zc_base::reg::Reg;

// The number of bytes of the table of some slots and of the stub after it.
fn front_size(slots: &[Option<Place>]) -> u16
    requires { length slots.now ≤ 256 }
    ensures { result ≡ units.front_size slots.now }
{
    match slots {
        [] => 0,
        [_, ..] => 4 * slots.len() as u16 + 12,
    }
}

// The slot of a jump or call that leads to the piece with this number, by the register that it links.
fn slot_to(of: &PieceSource, rd: Reg, to: usize) -> Option<u8>
    requires source { IsSource of.now }
    requires target { to ≤ length (pieces_of (source_inputs of.now) []) }
    ensures { (q : Place) → to ≡ piece_number_at (source_inputs of.now).objects q
        → result ≡ slot_for (source_slots of.now) (rd, q) }
{
    if rd.number() == 0 {
        of.slots.jumps[to]
    } else {
        of.slots.calls[to]
    }
}

// The slot of the jump or call at a place outside fixed sections, if it goes through the table, by its piece without the
// table: it has a form of two bytes, but takes four.
fn slot_of(of: &PieceSource, place: &ItemPlace, k: usize, piece: Piece) -> Option<u8>
    requires source { IsSource of.now }
    requires free { is_fixed_at (source_inputs of.now) place.now.at.object place.now.at.section ≡ false }
    requires place { IsItemPlace (source_inputs of.now) place.now.at place.now.number place.now.item.now }
    requires number { k ≡ piece_number_at (source_inputs of.now).objects place.now.at }
    requires piece { piece ≡ first_piece (source_inputs of.now) place.now.at }
    ensures { result ≡ slot_at (source_inputs of.now) (source_slots of.now) place.now.at }
{
    let Piece::Jump { to } = piece else {
        return None;
    };
    let Some(item) = place.item else {
        return None;
    };
    if of.slots.first.size(k) != 4 {
        return None;
    }
    match item {
        Item::Jump { rd, .. } | Item::Call { rd, .. } => slot_to(of, *rd, to as usize),
        _ => None,
    }
}

// Replaces a piece by that of a jump or call through a slot.
fn put_site(made: &mut Pieces, k: usize, slot: u8)
    requires pieces { k < length made.old.pieces.items }
    requires halves { k < length made.old.halves.items }
    ensures pieces { made.new.pieces.items ≡ slice_set made.old.pieces.items k (WithOthers 2) }
    ensures halves { (half : ℕ) × (encoded16 (TableJump slot) ≡ Some half)
        × (made.new.halves.items ≡ slice_set made.old.halves.items k half) }
{
    made.pieces[k] = Piece::WithOthers { size: 2 };
    made.halves[k] = table_half(slot);
}

// Replaces the piece at a place of the layout without a table, outside fixed sections, by the piece there with the table.
fn put_place(of: &PieceSource, place: &ItemPlace, made: &mut Pieces)
    requires source { IsSource of.now }
    requires free { is_fixed_at (source_inputs of.now) place.now.at.object place.now.at.section ≡ false }
    requires place { IsItemPlace (source_inputs of.now) place.now.at place.now.number place.now.item.now }
    requires piece { slice_get made.old.pieces.items (piece_number_at (source_inputs of.now).objects place.now.at)
        ≡ Some (first_piece (source_inputs of.now) place.now.at) }
    requires long { length made.old.halves.items ≡ length made.old.pieces.items }
    ensures pieces { made.new.pieces.items ≡ slice_set made.old.pieces.items
        (piece_number_at (source_inputs of.now).objects place.now.at) (source_piece of.now place.now.at) }
    ensures halves { (owners : List (Option CodeUnit)) → AreHalvesOf owners made.old.halves.items
        → slice_get owners (piece_number_at (source_inputs of.now).objects place.now.at)
        ≡ Some (first_unit (source_inputs of.now) place.now.at)
        → AreHalvesOf (slice_set owners (piece_number_at (source_inputs of.now).objects place.now.at)
        (source_unit of.now place.now.at)) made.new.halves.items }
{
    let k = piece_number(of.starts, place.number) as usize;
    if let Some(slot) = slot_of(of, place, k, made.pieces[k]) {
        put_site(made, k, slot);
    }
}

// Replaces the pieces at places of a section of code, which isn't fixed, by those with the table.
fn put_places(of: &PieceSource, section: &SectionPlaces, made: &mut Pieces)
    requires source { IsSource of.now }
    requires free { is_fixed_at (source_inputs of.now) section.now.section.object section.now.section.index ≡ false }
    requires held { AreItemPlaces (source_inputs of.now) section.now.number section.now.section section.now.places.now }
    requires few { length section.now.places.now < 2 ^ 32 }
    requires first { ArePutIn (source_inputs of.now) (source_slots of.now) section.now.number section.now.section
        [] (places_held section.now.section section.now.places.now) made.old }
    ensures { ArePutIn (source_inputs of.now) (source_slots of.now) section.now.number section.now.section
        (places_held section.now.section section.now.places.now) [] made.new }
{
    for i in 0..section.places.len() {
        put_place(of, &section.item_place(i), made);
    }
}

// Replaces the pieces of the section with this number among all by those with the table.
fn put_section(of: &PieceSource, section: u32, made: &mut Pieces)
    requires source { IsSource of.now }
    requires section { section < length (all_sections (source_inputs of.now).objects) }
    requires so_far { ArePut (source_inputs of.now) (source_slots of.now) section made.old }
    ensures { ArePut (source_inputs of.now) (source_slots of.now) (section + 1) made.new }
{
    let Some(starts) = SectionPlaces::of(of.planned.cut(), section) else {
        return;
    };
    // A fixed section has no jumps or calls through the table.
    if starts.is_fixed {
        return;
    }
    put_places(of, &starts, made);
}

/// Replaces the pieces of the layout without a table by those with the table: first the table and its stub, and then
/// the jumps and calls through it.
pub fn put_sites(of: &Numbered, slots: Slots, made: &mut Pieces)
    requires numbered { AreNumbered of.now }
    requires slots { AreSlotsOf (parsed of.now.planned.now) slots }
    requires first { ArePiecesOf (parsed of.now.planned.now) [] made.old }
    ensures { ArePiecesOf (parsed of.now.planned.now) slots.entry.slots.now made.new }
{
    let source = PieceSource {
        planned: of.planned,
        starts: of.starts,
        slots: &slots,
    };
    made.pieces[0] = Piece::Fixed {
        size: front_size(slots.slots),
    };
    for section in 0..of.planned.cut().objects().section_count() {
        put_section(&source, section, made);
    }
}
