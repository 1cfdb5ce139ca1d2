// For all sections at once, which section holds their relocations.

ghost use Rattle.std.specs.Prelude.{◌≡◌, ◌<◌, ℕ, None, false, replicate, slice_index_or};
ghost use Rattle.elf32_read.specs.Header.{section_count};
ghost use Rattle.elf32_read.specs.Object.{has_two_relas};
ghost use Rattle.elf32_read.specs.Relas.{IsRelaOf};

use crate::relas::is_kept_rela;
use crate::sections::Sections;

/// Fills a table: for each section the section that holds its relocations. It looks at each header
/// twice.
pub fn fill_relas(sections: &Sections, table: &mut [Option<u32>])
    requires empty { table.old ≡ replicate (section_count sections.now) None }
    requires once { has_two_relas sections.now ≡ false }
    ensures { (s : ℕ) → s < section_count sections.now → IsRelaOf sections.now s (slice_index_or table.new s None) }
{
    for i in 0..sections.count() {
        let header = sections.header(i);
        if is_kept_rela(sections, &header) {
            table[header.info as usize] = Some(i);
        }
    }
}
