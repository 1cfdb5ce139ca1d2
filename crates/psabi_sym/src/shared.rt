// Sections of data that are shared.

ghost use Rattle.std.specs.Prelude.{◌≡◌, ◌<◌, ◌≤◌, ◌+◌, All, IfOk, Some, length, slice_get};
ghost use Rattle.psabi_sym.specs.Data.{data_end};
ghost use Rattle.psabi_sym.specs.Inputs.{parsed};
ghost use Rattle.psabi_sym.specs.Indexed.{IndexedSection, all_sections};
ghost use Rattle.psabi_sym.specs.Shared.{shared_range, shared_ranges};

use crate::objects::Objects;
use crate::section_row::SectionRole;
use std::alloc::{AllocError, Global};

impl Objects {
    /// Address and size of each section of data named `.shared`, by object and section.
    pub fn shared(&self, alloc: Global) -> Result<Vec<(u32, u32)>, AllocError>
        ensures ranges { IfOk result (λ ranges. ranges.items ≡ shared_ranges (parsed self.now)) }
        ensures within { IfOk result (λ ranges.
            All (λ r. (self.now.map.data_low ≤ r.0) × (r.0 + r.1 ≤ data_end (parsed self.now))) ranges.items) }
    {
        let mut ranges = Vec::new(alloc);
        for k in 0..self.section_count() {
            if let Some(range) = self.shared_range(k) {
                ranges.push(range)?;
            }
        }
        Ok(ranges)
    }

    // The address and size of a section, by its number among all; none if it isn't shared.
    fn shared_range(&self, k: u32) -> Option<(u32, u32)>
        requires { k < length (all_sections (parsed self.now).objects) }
        ensures { (l : IndexedSection) × (slice_get (all_sections (parsed self.now).objects) k ≡ Some l)
            × (result ≡ shared_range (parsed self.now) l) }
    {
        let section = self.section(k);
        if !section.is_named(b".shared\0") {
            return None;
        }
        match section.role() {
            SectionRole::InClass(_) => {
                let at = self.data_address(section.object(), section.index());
                Some((at, section.size()))
            }
            SectionRole::Code | SectionRole::Dropped => None,
        }
    }
}
