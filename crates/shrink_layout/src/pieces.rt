// The pieces of all code.

ghost use Rattle.std.specs.Prelude.{◌≡◌, ◌<◌, ◌≤◌, ◌+◌, ◌-◌, ◌^◌, ◌++◌, ◌∷◌, [], List, None, Option, Some, IfOk, IfSome, length, map, slice_get, take};
ghost use Rattle.psabi_sym.specs.Faults.{gather_fault};
ghost use Rattle.psabi_sym.specs.Fixed.{is_fixed_at};
ghost use Rattle.psabi_sym.specs.Inputs.{ParsedInputs, parsed};
ghost use Rattle.psabi_sym.specs.Indexed.{all_sections};
ghost use Rattle.block_cut.specs.Items.{place_of};
ghost use Rattle.block_cut.specs.declared.code_place.CodePlace.{CodePlace};
ghost use Rattle.shrink_layout.specs.Invariants.Made.{AreHalvesOf, AreItemPlaces, AreMade, ArePiecesOf, AreStartsOf, IsItemPlace, IsNoCode, places_held};
ghost use Rattle.shrink_layout.specs.Invariants.Slots.{AreNumbered, first_piece, first_unit};
ghost use Rattle.shrink_layout.specs.Pieces.{alignment_of};
ghost use Rattle.shrink_layout.specs.Units.{CodeUnit};

use crate::instr_piece::{ItemPiece, without_half};
use crate::piece::Piece;
use crate::place_piece::{ItemPlace, place_piece};
use crate::slots::Numbered;
use block_cut::code_place::{CodePlace, item_places};
use block_cut::cut::Cut;
use block_cut::place_number::PlaceNumber;
use psabi_sym::section_ref::SectionRef;
use std::alloc::{AllocError, Global};
use zc_base::place::Place;

/// The pieces of all code, each with the short form of its item's instruction if that is known before the layout, or
/// else 0.
#[derive(Drop)]
pub struct Pieces {
    pub pieces: Vec<Piece>,
    pub halves: Vec<u16>,
}

impl Pieces {
    // Adds a piece. Each item has one, so this is inlined.
    #[inline(always)]
    fn push(&mut self, item: ItemPiece) -> Result<(), AllocError>
        ensures pieces { IfOk result (λ _. self.new.pieces.items ≡ self.old.pieces.items ++ item.piece ∷ []) }
        ensures halves { IfOk result (λ _. self.new.halves.items ≡ self.old.halves.items ++ item.half ∷ []) }
    {
        self.pieces.push(item.piece)?;
        self.halves.push(item.half)?;
        Ok(())
    }
}

/// Places of a section, with its number among all, and whether it is fixed.
#[derive(Drop)]
pub struct SectionPlaces<'a> {
    pub number: u32,
    pub is_fixed: bool,
    pub section: SectionRef<'a>,
    pub places: &'a [CodePlace],
}

impl<'a> SectionPlaces<'a> {
    /// The places where the items of the section with a number among all start, or none if it isn't code.
    pub fn of(cut: &'a Cut, number: u32) -> Option<SectionPlaces<'a>>
        requires faultless { gather_fault cut.now ≡ None }
        requires section { number < length (all_sections (parsed cut.now).objects) }
        ensures none { result ≡ None → IsNoCode (parsed cut.now) number }
        ensures some { IfSome result (AreStartsOf (parsed cut.now)) }
        ensures number { IfSome result (λ s. s.number ≡ number) }
    {
        let places = cut.places(number);
        if places.is_empty() {
            return None;
        }
        let section = cut.objects().section(number);
        Some(SectionPlaces {
            number,
            is_fixed: cut.objects().is_fixed(section.object(), section.index()),
            section,
            places: item_places(places),
        })
    }

    /// The place with an index in this list.
    pub fn item_place(&self, i: usize) -> ItemPlace<'a>
        requires within { i < length self.now.places.now }
        requires few { length self.now.places.now < 2 ^ 32 }
        ensures at { (p : CodePlace) → slice_get self.now.places.now i ≡ Some p
            → result.at ≡ place_of self.now.section p.offset }
        ensures number { result.number ≡ record { section = self.now.number; index = i } }
        ensures held { (inputs : ParsedInputs)
            → AreItemPlaces inputs self.now.number self.now.section self.now.places.now
            → IsItemPlace inputs result.at result.number result.item.now }
    {
        let place = &self.places[i];
        ItemPlace {
            at: Place {
                object: self.section.object(),
                section: self.section.index(),
                offset: place.offset,
            },
            number: PlaceNumber {
                section: self.number,
                index: i as u32,
            },
            item: &place.item,
        }
    }
}

// The alignment of the padding before a section: up to 4 it is that of instructions, which may take two bytes. A fixed
// section is aligned as in its object, and to 4 at least.
fn padding(is_fixed: bool, align: u32) -> u32
    ensures { result ≡ alignment_of is_fixed align }
{
    if is_fixed {
        align.max(4)
    } else if align <= 4 {
        2
    } else {
        align
    }
}

// Adds the pieces of these places of a section.
fn add_places(of: &Numbered, section: &SectionPlaces, made: &mut Pieces) -> Result<(), AllocError>
    requires numbered { AreNumbered of.now }
    requires held { AreItemPlaces (parsed of.now.planned.now) section.now.number section.now.section
        section.now.places.now }
    requires few { length section.now.places.now < 2 ^ 32 }
    requires fixed { section.now.is_fixed
        ≡ is_fixed_at (parsed of.now.planned.now) section.now.section.object section.now.section.index }
    ensures pieces { IfOk result (λ _. made.new.pieces.items ≡ made.old.pieces.items
        ++ map (first_piece (parsed of.now.planned.now)) (places_held section.now.section section.now.places.now)) }
    ensures halves { IfOk result (λ _. (owners : List (Option CodeUnit)) → AreHalvesOf owners made.old.halves.items
        → AreHalvesOf (owners ++ map (first_unit (parsed of.now.planned.now))
        (places_held section.now.section section.now.places.now)) made.new.halves.items) }
{
    for i in 0..section.places.len() {
        made.push(place_piece(of, &section.item_place(i), section.is_fixed))?;
    }
    Ok(())
}

// Adds the pieces of the section with this number among all: its padding, and those of the places where items start.
fn add_section(of: &Numbered, section: u32, made: &mut Pieces) -> Result<(), AllocError>
    requires numbered { AreNumbered of.now }
    requires section { section < length (all_sections (parsed of.now.planned.now).objects) }
    requires so_far { AreMade (parsed of.now.planned.now) section made.old }
    ensures { IfOk result (λ _. AreMade (parsed of.now.planned.now) (section + 1) made.new) }
{
    let Some(starts) = SectionPlaces::of(of.planned.cut(), section) else {
        return Ok(());
    };
    made.push(without_half(Piece::Align {
        alignment: padding(starts.is_fixed, starts.section.align()),
    }))?;
    add_places(of, &starts, made)
}

// The most pieces that objects can have: the table with its stub, the padding before each section, and the items.
fn most_pieces(cut: &Cut) -> usize
    ensures { result < 2 ^ 34 }
{
    1 + cut.objects().section_count() as usize + cut.counts().items as usize
}

/// The pieces of objects that are cut, without a table. A jump may lead to a place that comes later, so the numbers of
/// all places are known before the first piece is made.
pub fn make_pieces(alloc: Global, of: &Numbered) -> Result<Pieces, AllocError>
    requires numbered { AreNumbered of.now }
    ensures { IfOk result (ArePiecesOf (parsed of.now.planned.now) []) }
{
    let cut = of.planned.cut();
    let sections = cut.objects().section_count();
    let most = most_pieces(cut);
    let halves = Vec::with_capacity(alloc, most)?;
    let mut made = Pieces {
        pieces: Vec::with_capacity(alloc, most)?,
        halves,
    };
    made.push(without_half(Piece::Fixed { size: 0 }))?;
    for section in 0..sections {
        add_section(of, section, &mut made)?;
    }
    Ok(made)
}
