// Layouts of code, as links see them.

ghost use Rattle.std.specs.Prelude.{◌≡◌, [], ℕ, OnOk, Some, false, true};
ghost use Rattle.block_cut.specs.Items.{is_start_at, is_target_at, item_at};
ghost use Rattle.block_cut.specs.Places.{IsPlaceNumber};
ghost use Rattle.block_cut.specs.declared.item.Item.{Item};
ghost use Rattle.frame_match.specs.Invariants.Marks.{HasItem};
ghost use Rattle.psabi_sym.specs.Inputs.{parsed};
ghost use Rattle.shrink_layout.specs.Halves.{IsSiteHalf};
ghost use Rattle.shrink_layout.specs.Invariants.Numbers.{HasPlace};
ghost use Rattle.shrink_layout.specs.Units.{CodeUnit, OneItem};
ghost use Rattle.zc_base.specs.declared.place.Place.{Place};
ghost use Rattle.zc_link.specs.Front.{IsFront, image_entry};
ghost use Rattle.zc_link.specs.LaidOut.{IsLaidOut};
ghost use Rattle.zc_link.specs.Standing.{IsHalfHere, IsReady, IsRoleUnit};
ghost use Rattle.zc_link.specs.TextLayout.{TextLayout, plain_layout, size_in, zc_layout};

use crate::front::{add_front, program_start, stub_address};
use block_cut::cut::Cut;
use block_cut::place_number::PlaceNumber;
use frame_match::role::Role;
use shrink_layout::settled::Settled;
use std::alloc::AllocError;
use zc_base::place::Place;

/// A layout of code: what is written where.
///
/// | Layout | Of |
/// |---|---|
/// | `Cut` | code that is written as it is |
/// | `Settled` | code that is made smaller |
pub trait Layout {
    ghost layout: { Self → TextLayout };

    /// The items.
    fn cut(&self) -> &Cut
        ensures same { result.now ≡ (layout self.now).inputs }
        ensures ready { IsReady (layout self.now).inputs }
        ensures laid { IsLaidOut (layout self.now) };

    /// Says what holds of every layout, for the proof of a caller that needs no value of it. Nothing runs.
    fn recall_laid_out(&self)
        ensures ready { IsReady (layout self.now).inputs }
        ensures laid { IsLaidOut (layout self.now) };

    /// The address of a place, if it has one.
    fn address(&self, p: Place) -> Option<u32>
        ensures { result ≡ (layout self.now).address p };

    /// The address of a place that has one, by where it stands among all.
    fn address_at(&self, number: PlaceNumber) -> u32
        requires { HasPlace (parsed (layout self.now).inputs).objects number }
        ensures { (q : Place) (address : ℕ) → (layout self.now).address q ≡ Some address
            → IsPlaceNumber (parsed (layout self.now).inputs).objects q number → result ≡ address };

    /// The number of bytes that are written at a place where an item starts, by where the place stands among all. It
    /// takes constant time.
    fn written_size(&self, number: PlaceNumber) -> u32
        requires { HasItem (parsed (layout self.now).inputs).objects number }
        ensures { (q : Place) (unit : CodeUnit) → (layout self.now).unit q ≡ Some unit
            → IsPlaceNumber (parsed (layout self.now).inputs).objects q number → result ≡ size_in (layout self.now) q };

    /// The role of an item in the layout's groups, by where its place stands among all.
    fn role_at(&self, number: PlaceNumber) -> Role
        requires { HasItem (parsed (layout self.now).inputs).objects number }
        ensures { (q : Place) → is_start_at (parsed (layout self.now).inputs).objects q ≡ true
            → IsPlaceNumber (parsed (layout self.now).inputs).objects q number
            → IsRoleUnit ((layout self.now).unit q) (item_at (parsed (layout self.now).inputs) q) result };

    /// The halfword of a jump or call through the table, by where its place stands among all; none of other items.
    fn site_half(&self, number: PlaceNumber) -> Option<u16>
        requires { HasItem (parsed (layout self.now).inputs).objects number }
        ensures { (q : Place) → is_start_at (parsed (layout self.now).inputs).objects q ≡ true
            → IsPlaceNumber (parsed (layout self.now).inputs).objects q number
            → IsSiteHalf ((layout self.now).unit q) result };

    /// Whether instructions without relocation keep the halfwords that the object has for them, in this section of this
    /// object. It takes constant time.
    fn keeps_halfwords(&self, object: u16, section: u16) -> bool
        ensures { (offset : ℕ) → (layout self.now).keeps_halfwords
            (record { object = object; section = section; offset = offset }) ≡ result };

    /// The halfword of an item that is written by itself in two bytes and whose instruction doesn't depend on addresses, by
    /// where its place stands among all, if it isn't kept.
    fn half_at(&self, number: PlaceNumber) -> u16
        requires { HasPlace (parsed (layout self.now).inputs).objects number }
        ensures { (q : Place) (item : Item) → (layout self.now).unit q ≡ Some (OneItem item)
            → IsPlaceNumber (parsed (layout self.now).inputs).objects q number → size_in (layout self.now) q ≡ 2
            → (layout self.now).keeps_halfwords q ≡ false → IsHalfHere item result };

    /// Begins a text with what comes before the first section. It takes time linear in the slots of the table.
    fn add_front(&self, text: &mut Vec<u8>) -> Result<(), AllocError>
        requires { text.old.items ≡ [] }
        ensures { OnOk result (IsFront (layout self.now) text.new.items) };

    /// Where the image starts.
    fn entry(&self) -> u32
        ensures { result ≡ image_entry (layout self.now) };
}

impl Layout for Cut {
    ghost layout = { λ cut. plain_layout cut };

    fn cut(&self) -> &Cut {
        self.recall_invariant();
        self
    }

    #[inline]
    fn recall_laid_out(&self) {
        let _cut = Layout::cut(self);
    }

    fn address(&self, p: Place) -> Option<u32> {
        self.plain_address(p)
    }

    fn address_at(&self, number: PlaceNumber) -> u32 {
        self.recall_laid_out();
        self.places(number.section)[number.index as usize].address
    }

    fn written_size(&self, number: PlaceNumber) -> u32 {
        self.recall_laid_out();
        let next = PlaceNumber {
            section: number.section,
            index: number.index + 1,
        };
        Layout::address_at(self, next) - Layout::address_at(self, number)
    }

    fn role_at(&self, _number: PlaceNumber) -> Role {
        Role::Alone
    }

    fn site_half(&self, _number: PlaceNumber) -> Option<u16> {
        None
    }

    fn keeps_halfwords(&self, _object: u16, _section: u16) -> bool {
        true
    }

    fn half_at(&self, _number: PlaceNumber) -> u16 {
        // Each halfword is kept.
        0
    }

    fn add_front(&self, _text: &mut Vec<u8>) -> Result<(), AllocError> {
        Ok(())
    }

    fn entry(&self) -> u32 {
        self.recall_laid_out();
        self.plain_address(Cut::entry(self)).unwrap()
    }
}

impl Layout for Settled {
    ghost layout = { λ settled. zc_layout settled.inputs settled.slots };

    fn cut(&self) -> &Cut {
        // The table has few slots.
        self.recall_invariant();
        Layout::cut(self.planned().cut())
    }

    #[inline]
    fn recall_laid_out(&self) {
        let _cut = Layout::cut(self);
    }

    fn address(&self, p: Place) -> Option<u32> {
        Settled::address(self, p)
    }

    fn address_at(&self, number: PlaceNumber) -> u32 {
        Settled::address_at(self, number)
    }

    fn written_size(&self, number: PlaceNumber) -> u32 {
        self.recall_laid_out();
        Settled::size_at(self, number)
    }

    fn role_at(&self, number: PlaceNumber) -> Role {
        self.planned().role_at(number)
    }

    fn site_half(&self, number: PlaceNumber) -> Option<u16> {
        Settled::site_half(self, number)
    }

    fn keeps_halfwords(&self, object: u16, section: u16) -> bool {
        self.planned().cut().objects().is_fixed(object, section)
    }

    fn half_at(&self, number: PlaceNumber) -> u16 {
        // What takes two bytes has a halfword.
        self.recall_laid_out();
        Settled::half_at(self, number)
    }

    fn add_front(&self, text: &mut Vec<u8>) -> Result<(), AllocError> {
        // The stub reaches the program's start.
        self.recall_laid_out();
        add_front(self, text)
    }

    fn entry(&self) -> u32 {
        self.recall_laid_out();
        if self.slots().is_empty() {
            program_start(self)
        } else {
            stub_address(self)
        }
    }
}
