// The places that an image lists.

ghost use Rattle.std.specs.Prelude.{◌≡◌, ◌≤◌, ◌<◌, ◌+◌, ◌*◌, ◌%◌, ◌||◌, ◌==◌, codes, not, true, false, length, MatchResult};
ghost use Rattle.std.specs.List.{list_any};
ghost use Rattle.std.specs.Option.{option_to_list};
ghost use Rattle.elf32_read.specs.Header.{content_of, headers_of, is_empty_kind, name_section};
ghost use Rattle.elf32_read.specs.Image.{bad_places, is_bad_section};
ghost use Rattle.elf32_read.specs.Names.{is_name_at, is_unnamed_section, lacks_strings, section_names};
ghost use Rattle.elf32_read.specs.Object.{passes_end};
ghost use Rattle.elf32_read.specs.Places.{entries_of, place_entry_at, is_ascending, is_outside, place_list, places_sections};
ghost use Rattle.elf32_read.specs.declared.image_fault.ImageFault.TheVariants.{BadPlaces};
ghost use Rattle.zc_base.specs.Places.{is_before};

use crate::header::{SectionHeader, is_without_content, name_section};
use crate::image_fault::ImageFault;
use crate::names::is_name_at;
use crate::sections::Sections;
use crate::unnamed::has_unnamed_section;
use zc_base::fields::{u16_at, u32_at};
use zc_base::mem_map::MemMap;
use zc_base::place::Place;

const NAME: &[u8; 13] = b".zcld.places\0";

/// The size in bytes of an entry: a place and its address.
pub const ENTRY_SIZE: usize = 12;

/// An entry of a list of places.
#[tactic(auto, unfolding(crate::specs::Places::place_entry_at))]
pub fn entry(entries: &[u8], i: usize) -> (Place, u32)
    requires { 12 * i + 12 ≤ length entries.now }
    ensures { result ≡ place_entry_at entries.now i }
{
    let at = ENTRY_SIZE * i;
    let place = Place {
        object: u16_at(entries, at),
        section: u16_at(entries, at + 2),
        offset: u32_at(entries, at + 4),
    };
    (place, u32_at(entries, at + 8))
}

fn is_before(first: &Place, second: &Place) -> bool
    ensures { result ≡ is_before first.now second.now }
{
    first < second
}

fn are_ascending(entries: &[u8]) -> bool
    ensures { result ≡ is_ascending (entries_of entries.now) }
{
    let count = entries.len() / ENTRY_SIZE;
    for i in 0..count.saturating_sub(1) {
        if !is_before(&entry(entries, i).0, &entry(entries, i + 1).0) {
            return false;
        }
    }
    true
}

fn is_outside(map: &MemMap, listed: (Place, u32)) -> bool
    ensures { result ≡ is_outside map.now listed }
{
    let (_, address) = listed;
    address < map.text || map.data_low < address
}

#[tactic(auto, using(crate::proofs::Listed::none_listed_more))]
fn has_outside(map: &MemMap, entries: &[u8]) -> bool
    ensures { result ≡ list_any (is_outside map.now) (entries_of entries.now) }
{
    for i in 0..entries.len() / ENTRY_SIZE {
        if is_outside(map, entry(entries, i)) {
            return true;
        }
    }
    false
}

// Whether there is no table of the sections' names, or a name in it has no end.
fn has_bad_names(sections: &Sections) -> bool
    ensures { result ≡ (lacks_strings sections.now (name_section sections.now)
        || list_any (is_unnamed_section sections.now) (headers_of sections.now)) }
{
    sections.lacks_strings(u32::from(name_section(sections.bytes())))
        || has_unnamed_section(sections)
}

fn holds_places(sections: &Sections, header: &SectionHeader) -> bool
    ensures { result
        ≡ is_name_at (codes ".zcld.places") (section_names sections.now) header.now.name }
{
    is_name_at(NAME, sections.names(), header.name)
}

fn is_bad_list(header: &SectionHeader) -> bool
    ensures { result ≡ (is_empty_kind header.now.kind || not (header.now.size % 12 == 0)) }
{
    is_without_content(header.kind) || header.size as usize % ENTRY_SIZE != 0
}

// The section that lists places, if there is one; a fault if there are two.
#[tactic(auto, unfolding(crate::specs::Places::places_sections))]
fn places_section(sections: &Sections) -> Result<Option<SectionHeader>, ImageFault>
    ensures { MatchResult result
        (λ found. (places_sections sections.now ≡ option_to_list found)
        × (list_any (passes_end sections.now) (option_to_list found) ≡ false))
        (λ fault. (fault ≡ BadPlaces) × (1 < length (places_sections sections.now))) }
{
    let mut found = None;
    for i in 0..sections.count() {
        let header = sections.header(i);
        if holds_places(sections, &header) {
            if found.is_some() {
                return Err(ImageFault::BadPlaces);
            }
            found = Some(header);
        }
    }
    Ok(found)
}

// The entries of a section that lists places, unless the list is bad.
fn list_in<'a>(
    sections: &Sections<'a>,
    map: &MemMap,
    header: &SectionHeader,
) -> Result<&'a [u8], ImageFault>
    requires { passes_end sections.now header.now ≡ false }
    ensures { MatchResult result
        (λ list. (list.now ≡ content_of sections.now header.now)
        × (length list.now ≤ length sections.now)
        × (is_bad_section sections.now map.now header.now ≡ false))
        (λ fault. (fault ≡ BadPlaces) × (is_bad_section sections.now map.now header.now ≡ true)) }
{
    if is_bad_list(header) {
        return Err(ImageFault::BadPlaces);
    }
    let list = sections.content(header);
    if !are_ascending(list) || has_outside(map, list) {
        return Err(ImageFault::BadPlaces);
    }
    Ok(list)
}

/// The entries of the places that an image lists, unless the list is bad. They are empty if the
/// image has no list.
pub fn places_in<'a>(sections: &Sections<'a>, map: &MemMap) -> Result<&'a [u8], ImageFault>
    ensures { MatchResult result
        (λ list. (bad_places sections.now map.now ≡ false)
        × (length list.now ≤ length sections.now)
        × (entries_of list.now ≡ place_list sections.now))
        (λ fault. (fault ≡ BadPlaces) × (bad_places sections.now map.now ≡ true)) }
{
    if sections.count() == 0 {
        return Ok(&[]);
    }
    if has_bad_names(sections) {
        return Err(ImageFault::BadPlaces);
    }
    match places_section(sections)? {
        None => Ok(&[]),
        Some(header) => list_in(sections, map, &header),
    }
}
