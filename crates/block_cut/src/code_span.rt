// How far code has come, section after section.

ghost use Rattle.std.specs.Prelude.{◌≡◌, ◌<◌, ◌+◌, ◌++◌, ◌∷◌, ◌^◌, [], List, Some, None, length};
ghost use Rattle.psabi_sym.specs.Faults.{gather_fault};
ghost use Rattle.psabi_sym.specs.Inputs.{parsed, Inputs};
ghost use Rattle.psabi_sym.specs.Indexed.{all_sections, IndexedSection};
ghost use Rattle.std.specs.Prelude.{slice_get, take, ℕ};
ghost use Rattle.block_cut.specs.Invariants.CodeTables.{IsCodeSpan};
ghost use Rattle.block_cut.specs.Places.{code_places};

use crate::code_place::CodePlace;

/// Where code ends in the plain layout, and its number of items.
#[derive(Clone, Copy)]
pub struct CodeSpan {
    pub end: u32,
    pub count: u32,
}

impl CodeSpan {
    /// The span with one section more, by that section's places.
    pub fn with(self, places: &[CodePlace]) -> CodeSpan
        requires { self.count + length places.now < 2 ^ 32 }
        ensures { (inputs : Inputs) (k : ℕ) (l : IndexedSection) → gather_fault inputs ≡ None
            → slice_get (all_sections (parsed inputs).objects) k ≡ Some l → places.now ≡ code_places (parsed inputs) l
            → IsCodeSpan (parsed inputs) (take k (all_sections (parsed inputs).objects)) self
            → IsCodeSpan (parsed inputs) (take (k + 1) (all_sections (parsed inputs).objects)) result }
    {
        match places.last() {
            None => self,
            Some(end) => CodeSpan {
                end: end.address,
                count: self.count + (places.len() - 1) as u32,
            },
        }
    }
}
