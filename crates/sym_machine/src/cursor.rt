// Where a run stands in the code.

ghost use Rattle.std.specs.Prelude.{◌≡◌, IfSome, Some, true};
ghost use Rattle.psabi_sym.specs.Inputs.{parsed, ParsedInputs};
ghost use Rattle.block_cut.specs.Places.{place_there};
ghost use Rattle.sym_machine.specs.Cursor.{IsCursor};
ghost use Rattle.sym_machine.specs.Objects.{program_of};

use block_cut::code_place::CodePlace;
use block_cut::cut::Cut;
use block_cut::item::Item;
use zc_base::place::Place;

/// The places of a section, by its object's index and its own, with their numbers by halfwords; and the index of the
/// place that is looked at first. From a place to the next one in its section nothing is looked up.
#[derive(Clone, Copy)]
pub struct Cursor<'a> {
    object: u16,
    section: u16,
    places: &'a [CodePlace],
    numbers: &'a [u32],
    index: usize,
}

impl<'a> Cursor<'a> {
    /// A cursor at a place, if its section is there.
    #[inline(always)]
    pub fn new(cut: &'a Cut, p: Place) -> Option<Cursor<'a>>
        ensures { IfSome result (IsCursor (parsed cut.now)) }
    {
        let section = cut.objects().section_number(p.object, p.section)?;
        let cursor = Cursor {
            object: p.object,
            section: p.section,
            places: cut.places(section),
            numbers: cut.numbers(section),
            index: 0,
        };
        Some(cursor.turned(p.offset))
    }

    // The cursor at another offset of the section.
    #[inline(always)]
    fn turned(self, offset: u32) -> Cursor<'a>
        ensures { (inputs : ParsedInputs) → IsCursor inputs self.entry → IsCursor inputs result }
    {
        let number = match self.numbers.get(offset as usize / 2) {
            None => 0,
            Some(number) => *number,
        };
        Cursor {
            index: (number as usize).wrapping_sub(1),
            ..self
        }
    }

    // Whether a place lies in the section.
    #[inline(always)]
    fn is_in(&self, p: Place) -> bool
        ensures { result ≡ true → (self.now.object ≡ p.object) × (self.now.section ≡ p.section) }
    {
        p.object == self.object && p.section == self.section
    }

    // The cursor at a place that isn't the one that is looked at, if its section is there.
    #[inline(always)]
    fn moved(self, cut: &'a Cut, p: Place) -> Option<Cursor<'a>>
        requires { IsCursor (parsed cut.now) self }
        ensures { IfSome result (IsCursor (parsed cut.now)) }
    {
        if self.is_in(p) {
            return Some(self.turned(p.offset));
        }
        Cursor::new(cut, p)
    }

    /// The cursor at the next place.
    #[inline(always)]
    pub fn next(self) -> Cursor<'a>
        ensures { (inputs : ParsedInputs) → IsCursor inputs self.entry → IsCursor inputs result }
    {
        Cursor {
            index: self.index.wrapping_add(1),
            ..self
        }
    }

    // What stands at a place, if it is the one that is looked at.
    #[inline(always)]
    fn here(&self, p: Place) -> Option<&'a CodePlace>
        ensures { (inputs : ParsedInputs) → IsCursor inputs self.now
            → IfSome result (λ here. here.now ≡ place_there inputs p) }
    {
        if !self.is_in(p) {
            return None;
        }
        let here = self.places.get(self.index)?;
        if here.offset == p.offset {
            Some(here)
        } else {
            None
        }
    }

    /// What stands at a place, with the cursor there, if code may lead to it.
    #[inline(always)]
    pub fn find(self, cut: &'a Cut, p: Place) -> Option<(Cursor<'a>, &'a CodePlace)>
        requires { IsCursor (parsed cut.now) self }
        ensures cursor { IfSome result (λ found. IsCursor (parsed cut.now) found.0) }
        ensures place { IfSome result (λ found. found.1.now ≡ place_there (parsed cut.now) p) }
    {
        if let Some(here) = self.here(p) {
            return Some((self, here));
        }
        let cursor = self.moved(cut, p)?;
        let here = cursor.here(p)?;
        Some((cursor, here))
    }
}

/// The item that stands at a place, and the place after it.
#[inline(always)]
pub fn item_here<'a>(cut: &Cut, here: &'a CodePlace, p: Place) -> Option<(&'a Item, Place)>
    requires { here.now ≡ place_there (parsed cut.now) p }
    ensures item { IfSome result (λ found. (program_of (parsed cut.now)).item p ≡ Some found.0.now) }
    ensures next { IfSome result (λ found. (program_of (parsed cut.now)).next p ≡ found.1) }
{
    let Some(item) = &here.item else {
        return None;
    };
    // Objects without a fault have no item near the end of the numbers.
    cut.recall_invariant();
    let next = Place {
        object: p.object,
        section: p.section,
        offset: p.offset + u32::from(here.size),
    };
    Some((item, next))
}
