// The objects with the layout of their code.

ghost use Rattle.std.specs.Prelude.{◌≡◌, ◌≤◌, ℕ, ◌^◌, ◌<◌, if◌then◌else◌, IfOk, IsTrue, Some, None, [], length, slice_index, true};
ghost use Rattle.psabi_sym.specs.Faults.{gather_fault};
ghost use Rattle.psabi_sym.specs.Inputs.{ParsedInputs, parsed};
ghost use Rattle.block_cut.specs.Items.{is_start_at, is_target_at};
ghost use Rattle.block_cut.specs.Places.{IsPlaceNumber};
ghost use Rattle.block_cut.specs.declared.item.Item.{Item};
ghost use Rattle.frame_match.specs.Invariants.Marks.{HasItem};
ghost use Rattle.shrink_layout.specs.Counted.{is_long_piece, is_short_piece, pieces_with};
ghost use Rattle.shrink_layout.specs.Halves.{IsHalfOf, IsSiteHalf};
ghost use Rattle.shrink_layout.specs.Layout.{IsLayout};
ghost use Rattle.shrink_layout.specs.Least.{IsLeast};
ghost use Rattle.shrink_layout.specs.Invariants.Kept.{IsSettled};
ghost use Rattle.shrink_layout.specs.Invariants.Made.{AreHalvesOf, ArePiecesOf, all_owners};
ghost use Rattle.shrink_layout.specs.Invariants.Numbers.{AreFirstNumbers, HasPlace};
ghost use Rattle.shrink_layout.specs.Invariants.Slots.{AreNumbered};
ghost use Rattle.shrink_layout.specs.Pieces.{is_unaligned, piece_number_at, pieces_of, unit_at};
ghost use Rattle.shrink_layout.specs.Settled.{is_site, settled_address, settled_addresses, settled_counts, settled_end, settled_size, settled_sizes, settled_widths, units_with};
ghost use Rattle.shrink_layout.specs.Table.{IsLaidBehind};
ghost use Rattle.shrink_layout.specs.Units.{AreTargetSlots, OneItem, is_inside};
ghost use Rattle.zc_base.specs.declared.place.Place.{Place};

use crate::blocks::BLOCK;
use crate::group_counts::count_groups;
use crate::numbers::{first_numbers, piece_number, piece_number_at};
use crate::piece::Piece;
use crate::pieces::{Pieces, make_pieces};
use crate::rounds::settle_pieces;
use crate::sites::put_sites;
use crate::slots::{Numbered, PieceSource, Slots};
use crate::sums::Sums;
use crate::table_halves::{count_table_halves, is_table_jump};
use block_cut::place_number::PlaceNumber;
use frame_match::planned::Planned;
use frame_match::role::Role;
use std::alloc::{AllocError, Global};
use std::marker::Model;
use zc_base::counts::Counts;
use zc_base::place::Place;

/// The layout of objects' code that is made smaller: the slots of its table, the number of each section's first place,
/// the pieces, each with its short form if that is known before the layout, the bytes of each, whose sums give
/// addresses, and the address of each block of pieces.
#[derive(Drop)]
pub struct Settled {
    planned: Planned,
    slots: Vec<Option<Place>>,
    starts: Vec<u32>,
    made: Pieces,
    sums: Sums,
    block_starts: Vec<u32>,
    counts: Counts,
}

// The layout's own tables.
#[derive(Drop)]
struct KeptLayout {
    made: Pieces,
    sums: Sums,
    block_starts: Vec<u32>,
    counts: Counts,
}

// The layout without a table, from which one with a table is made.
#[derive(Drop)]
struct FirstLayout {
    planned: Planned,
    starts: Vec<u32>,
    made: Pieces,
    sums: Sums,
}

impl Model for Settled {
    ghost use Rattle.shrink_layout.specs.Invariants.Kept.{IsSettled};
    ghost use Rattle.shrink_layout.specs.Settled.{SettledLayout};

    ghost Value = { SettledLayout };

    ghost view = { λ settled. record { inputs = settled.planned; slots = settled.slots.items } };

    ghost invariant = { λ settled. IsSettled settled.planned settled.slots.items
        settled.starts.items settled.made settled.sums settled.block_starts.items settled.counts };
}

// 1 if a piece is one item that isn't padding and takes two bytes, otherwise 0.
fn count_if_short(piece: Piece, size: u16) -> u32
    ensures value { result ≡ (if is_short_piece piece size then 1 else 0) }
    ensures most { result ≤ 1 }
{
    match piece {
        Piece::Align { .. } | Piece::WithOthers { .. } => 0,
        Piece::Fixed { .. } | Piece::Branch { .. } | Piece::Jump { .. } => {
            if size == 2 { 1 } else { 0 }
        }
    }
}

// 1 if a piece is a branch that takes eight bytes, otherwise 0.
fn count_if_long(piece: Piece, size: u16) -> u32
    ensures value { result ≡ (if is_long_piece piece size then 1 else 0) }
    ensures most { result ≤ 1 }
{
    match piece {
        Piece::Branch { .. } if size == 8 => 1,
        Piece::Branch { .. }
        | Piece::Fixed { .. }
        | Piece::WithOthers { .. }
        | Piece::Align { .. }
        | Piece::Jump { .. } => 0,
    }
}

// The number of pieces that take two bytes, and of branches that take eight.
#[derive(Clone, Copy)]
struct SizeCounts {
    short: u32,
    long: u32,
}

// The counts of pieces at their sizes. The first piece, the table with its stub, isn't counted.
fn count_sizes(pieces: &[Piece], sizes: &[u16]) -> SizeCounts
    requires same { length sizes.now ≡ length pieces.now }
    requires few { length pieces.now < 2 ^ 32 }
    ensures short { result.short ≡ pieces_with is_short_piece pieces.now sizes.now }
    ensures long { result.long ≡ pieces_with is_long_piece pieces.now sizes.now }
{
    let mut short = 0;
    let mut long = 0;
    for k in 1..pieces.len() {
        short += count_if_short(pieces[k], sizes[k]);
        long += count_if_long(pieces[k], sizes[k]);
    }
    SizeCounts { short, long }
}

// The number of jumps and calls through the table of some slots, by the halfwords of all pieces.
fn count_sites(slots: &[Option<Place>], halves: &[u16]) -> u32
    requires { length halves.now < 2 ^ 32 }
    ensures { (inputs : ParsedInputs) → AreHalvesOf (all_owners inputs slots.now) halves.now
        → result ≡ units_with inputs slots.now is_site }
{
    if slots.is_empty() {
        0
    } else {
        count_table_halves(halves)
    }
}

// The layout of pieces with a table of slots.
fn lay_out(
    alloc: Global,
    of: &Numbered,
    made: Pieces,
    slots: &[Option<Place>],
) -> Result<KeptLayout, AllocError>
    requires numbered { AreNumbered of.now }
    requires targets { AreTargetSlots (parsed of.now.planned.now) slots.now }
    requires made { ArePiecesOf (parsed of.now.planned.now) slots.now made }
    ensures settled { IfOk result (λ kept. IsSettled of.now.planned.now slots.now
        of.now.starts.now kept.made kept.sums kept.block_starts.items kept.counts) }
    ensures laid { IfOk result (λ _. IsLaidBehind (parsed of.now.planned.now) slots.now) }
{
    let cut = of.planned.cut();
    let text = cut.objects().map().text;
    let layout = settle_pieces(alloc, text, &made.pieces)?;
    let sizes = count_sizes(&made.pieces, &layout.sizes);
    let groups = count_groups(of.planned);
    let counts = Counts {
        text: layout.sums.before(layout.sums.count()),
        items: cut.counts().items,
        short: sizes.short,
        long: sizes.long,
        pushes: groups.pushes,
        pops: groups.pops,
        moves: groups.moves,
        table: count_sites(slots, &made.halves),
    };
    Ok(KeptLayout {
        made,
        sums: layout.sums,
        block_starts: layout.block_starts,
        counts,
    })
}

/// Settles the layout of objects whose code is made smaller, without a table: the first round of sizes that fits.
pub fn settle(alloc: Global, planned: Planned) -> Result<Settled, AllocError>
    ensures same { IfOk result (λ settled. settled.inputs ≡ planned) }
    ensures slots { IfOk result (λ settled. settled.slots ≡ []) }
    ensures layout { IfOk result
        (λ _. IsLayout planned.map.text (pieces_of (parsed planned) []) (settled_sizes (parsed planned) [])) }
    ensures least { IsTrue (is_unaligned (parsed planned)) → IfOk result
        (λ _. IsLeast planned.map.text (pieces_of (parsed planned) []) (settled_sizes (parsed planned) [])) }
{
    let cut = planned.cut();
    let slots = Vec::new(alloc);
    let starts = first_numbers(alloc, cut)?;
    let of = Numbered {
        planned: &planned,
        starts: &starts,
    };
    let made = make_pieces(alloc, &of)?;
    let kept = lay_out(alloc, &of, made, &slots)?;
    Ok(Settled {
        planned,
        slots,
        starts,
        made: kept.made,
        sums: kept.sums,
        block_starts: kept.block_starts,
        counts: kept.counts,
    })
}

// The parts of a layout that the next one is made from.
fn first_layout(settled: Settled) -> FirstLayout
    requires without { settled.slots ≡ [] }
    ensures same { result.planned ≡ settled.inputs }
    ensures faultless { gather_fault settled.inputs ≡ None }
    ensures starts { AreFirstNumbers (parsed settled.inputs).objects result.starts.items }
    ensures made { ArePiecesOf (parsed settled.inputs) [] result.made }
    ensures sums { result.sums ≡ settled_widths (parsed settled.inputs) [] }
{
    FirstLayout {
        planned: settled.planned,
        starts: settled.starts,
        made: settled.made,
        sums: settled.sums,
    }
}

/// Settles the layout anew with a table before the sections, whose slots lead to these places, or are holes. Without
/// slots there is no table.
pub fn settle_with(
    alloc: Global,
    settled: Settled,
    slots: &[Option<Place>],
) -> Result<Settled, AllocError>
    requires without { settled.slots ≡ [] }
    requires targets { AreTargetSlots (parsed settled.inputs) slots.now }
    ensures same { IfOk result (λ r. r.inputs ≡ settled.inputs) }
    ensures slots { IfOk result (λ r. r.slots ≡ slots.now) }
    ensures laid { IfOk result (λ _. IsLaidBehind (parsed settled.inputs) slots.now) }
{
    let FirstLayout {
        planned,
        starts,
        mut made,
        sums,
    } = first_layout(settled);
    let kept_slots = Vec::from_slice(alloc, slots)?;
    let of = Numbered {
        planned: &planned,
        starts: &starts,
    };
    put_sites(&of, Slots::new(alloc, &of, sums, slots)?, &mut made);
    let kept = lay_out(alloc, &of, made, slots)?;
    Ok(Settled {
        planned,
        slots: kept_slots,
        starts,
        made: kept.made,
        sums: kept.sums,
        block_starts: kept.block_starts,
        counts: kept.counts,
    })
}

impl Settled {
    // Whether an item starts inside a group at a place.
    fn is_inside(&self, p: Place) -> bool
        ensures { result ≡ is_inside (parsed self.now.inputs) p }
    {
        matches!(self.planned.role(p), Some(Role::Inside))
    }

    // Whether an item starts inside a group at a place, by where the place stands among all.
    fn is_inside_by(&self, number: PlaceNumber) -> bool
        requires { HasPlace (parsed self.now.inputs).objects number }
        ensures { (q : Place) → is_target_at (parsed self.now.inputs).objects q ≡ true
            → IsPlaceNumber (parsed self.now.inputs).objects q number → result ≡ is_inside (parsed self.now.inputs) q }
    {
        matches!(self.planned.role_by(number), Some(Role::Inside))
    }

    // The address of the piece with a number, or of the text's end.
    fn piece_address(&self, k: usize) -> u32
        requires { k ≤ length (pieces_of (parsed self.now.inputs) self.now.slots) }
        ensures { result ≡ slice_index (settled_addresses (parsed self.now.inputs) self.now.slots) k }
    {
        // The map has room for the text.
        self.planned.cut().recall_invariant();
        self.block_starts[k / BLOCK] + self.sums.in_block(k)
    }

    /// The address of a place that images list; a place inside a group has none. It takes at most seven sums, as do
    /// `address_at` and `text_end`; what else follows takes constant time.
    pub fn address(&self, p: Place) -> Option<u32>
        ensures { result ≡ settled_address (parsed self.now.inputs) self.now.slots p }
    {
        let cut = self.planned.cut();
        match cut.number(p) {
            None => None,
            Some(number) => {
                if self.is_inside_by(number) {
                    None
                } else {
                    Some(self.address_at(number))
                }
            }
        }
    }

    /// The address of a place that images list, by where it stands among all.
    pub fn address_at(&self, number: PlaceNumber) -> u32
        requires { HasPlace (parsed self.now.inputs).objects number }
        ensures { (q : Place) (address : ℕ) → settled_address (parsed self.now.inputs) self.now.slots q ≡ Some address
            → IsPlaceNumber (parsed self.now.inputs).objects q number → result ≡ address }
    {
        self.piece_address(self.piece_at(number))
    }

    // The number of the piece at a place where an item starts or a section of code ends; 0 for any other place.
    pub(crate) fn piece_number_at(&self, p: Place) -> u32
        ensures { result ≡ piece_number_at (parsed self.now.inputs).objects p }
    {
        piece_number_at(self.planned.cut(), &self.starts, p)
    }

    // The number of the piece at a place, by where the place stands among all.
    fn piece_at(&self, number: PlaceNumber) -> usize
        requires { HasPlace (parsed self.now.inputs).objects number }
        ensures most { result ≤ length (pieces_of (parsed self.now.inputs) self.now.slots) }
        ensures item { HasItem (parsed self.now.inputs).objects number
            → result < length (pieces_of (parsed self.now.inputs) self.now.slots) }
        ensures known { (q : Place) → is_target_at (parsed self.now.inputs).objects q ≡ true
            → IsPlaceNumber (parsed self.now.inputs).objects q number
            → result ≡ piece_number_at (parsed self.now.inputs).objects q }
    {
        piece_number(&self.starts, number) as usize
    }

    /// The halfword of the item that is written by itself at a place, by where the place stands among all, if that is
    /// known before the layout: a halfword has the effect of its instruction, which doesn't depend on addresses.
    pub fn half_at(&self, number: PlaceNumber) -> u16
        requires { HasPlace (parsed self.now.inputs).objects number }
        ensures { (q : Place) (item : Item) → unit_at (parsed self.now.inputs) self.now.slots q ≡ Some (OneItem item)
            → IsPlaceNumber (parsed self.now.inputs).objects q number → IsHalfOf item result }
    {
        let k = self.piece_at(number);
        // The end of all code has no piece.
        if k < self.made.halves.len() {
            self.made.halves[k]
        } else {
            0
        }
    }

    /// The halfword of the jump or call through the table that is written at a place where an item starts, if one is,
    /// by where the place stands among all.
    pub fn site_half(&self, number: PlaceNumber) -> Option<u16>
        requires { HasItem (parsed self.now.inputs).objects number }
        ensures { (q : Place) → is_start_at (parsed self.now.inputs).objects q ≡ true
            → IsPlaceNumber (parsed self.now.inputs).objects q number
            → IsSiteHalf (unit_at (parsed self.now.inputs) self.now.slots q) result }
    {
        let half = self.made.halves[self.piece_at(number)];
        if is_table_jump(half) {
            Some(half)
        } else {
            None
        }
    }

    /// The number of bytes that are written at a place: for an item by itself, for a group, or for a jump or call
    /// through the table.
    pub fn size(&self, p: Place) -> Option<u32>
        ensures { result ≡ settled_size (parsed self.now.inputs) self.now.slots p }
    {
        if self.planned.cut().item(p).is_none() || self.is_inside(p) {
            return None;
        }
        let k = self.piece_number_at(p) as usize;
        Some(self.sums.size(k))
    }

    /// The number of bytes that are written at a place where an item starts, by where the place stands among all.
    pub fn size_at(&self, number: PlaceNumber) -> u32
        requires { HasItem (parsed self.now.inputs).objects number }
        ensures { (q : Place) (size : ℕ) → settled_size (parsed self.now.inputs) self.now.slots q ≡ Some size
            → IsPlaceNumber (parsed self.now.inputs).objects q number → result ≡ size }
    {
        self.sums.size(self.piece_at(number))
    }

    /// The tree of the bytes that pieces take: first the table with its stub, then for each section of code its padding
    /// and what is written for its items.
    pub fn sums(&self) -> &Sums
        ensures { result.now ≡ settled_widths (parsed self.now.inputs) self.now.slots }
    {
        &self.sums
    }

    /// Where the text ends.
    pub fn text_end(&self) -> u32
        ensures { result ≡ settled_end (parsed self.now.inputs) self.now.slots }
    {
        self.piece_address(self.sums.count())
    }

    /// The layout's counts.
    pub fn counts(&self) -> Counts
        ensures { result ≡ settled_counts (parsed self.now.inputs) self.now.slots }
    {
        self.counts
    }

    /// The objects with their items and groups.
    pub fn planned(&self) -> &Planned
        ensures same { result.now ≡ self.now.inputs }
    {
        &self.planned
    }

    /// Says what holds of the slots of every layout, for the proof of a caller that needs no value of them. Nothing
    /// runs.
    #[inline]
    pub fn recall_invariant(&self)
        ensures targets { AreTargetSlots (parsed self.now.inputs) self.now.slots }
    {
        let _slots = &self.slots;
    }

    /// The slots of the table: the place that each leads to, or a hole. Without a table there are none.
    pub fn slots(&self) -> &[Option<Place>]
        ensures same { result.now ≡ self.now.slots }
        ensures targets { AreTargetSlots (parsed self.now.inputs) self.now.slots }
    {
        &self.slots
    }
}
