// The bytes of data that files hold.

ghost use Rattle.std.specs.Prelude.{◌≡◌, IfOk, Some};
ghost use Rattle.psabi_sym.specs.Contents.{data_contents, overlaid, with_content};
ghost use Rattle.psabi_sym.specs.Inputs.{parsed};
ghost use Rattle.psabi_sym.specs.Indexed.{section_at};

use crate::objects::Objects;
use crate::section_ref::SectionRef;
use crate::section_row::SectionRole;
use elf32_read::header::NOBITS;
use std::alloc::{AllocError, Global};

impl Objects {
    /// The bytes of data that files hold, from the map's start of data to the end of small data. From
    /// there to the end of all data, memory begins with zeros.
    #[tactic(auto, unfolding(crate::specs::Contents::data_contents))]
    pub fn data_contents(&self, alloc: Global) -> Result<Vec<u8>, AllocError>
        ensures { IfOk result (λ bytes. bytes.items ≡ data_contents (parsed self.now)) }
    {
        let size = self.data_file_end() - self.map().data_low;
        let mut bytes = vec![in alloc; 0u8; size as usize]?;
        for k in 0..self.section_count() {
            self.put_section(&self.section(k), bytes.as_mut_slice());
        }
        Ok(bytes)
    }

    // Puts the content of a section over bytes.
    fn put_section(&self, section: &SectionRef, bytes: &mut [u8])
        requires { section_at (parsed self.now).objects section.now.object section.now.index
            ≡ Some section.now.section }
        ensures { bytes.new ≡ with_content (parsed self.now) bytes.old section.now }
    {
        if section.kind() == NOBITS {
            return;
        }
        match section.role() {
            SectionRole::InClass(_) => {
                let at = self.data_address(section.object(), section.index()) - self.map().data_low;
                overlay(section.bytes(), at as usize, bytes);
            }
            SectionRole::Code | SectionRole::Dropped => {}
        }
    }
}

// Puts bytes over others from an index on, as far as these go.
fn overlay(new: &[u8], at: usize, old: &mut [u8])
    ensures { old.new ≡ overlaid at new.now old.old }
{
    if at < old.len() {
        let count = new.len().min(old.len() - at);
        old[at..at + count].copy_from_slice(&new[..count]);
    }
}
