// What a link writes, as a line of text.

use elf32_read::image::Image;
use std::alloc::Global;
use std::test::Fail;
use zc_base::fields::u16_at;
use zc_base::mem_map::MemMap;
use zc_link::linked::Linked;

// The halfwords of a text. A word is two halfwords, the lower one first.
fn halves_text(alloc: Global, bytes: &[u8]) -> Result<String, Fail> {
    let mut text = String::new(alloc);
    for k in 0..bytes.len() / 2 {
        let half = u16_at(bytes, 2 * k);
        text.push_str(format!(in alloc; " {half:04x}")?.as_str())?;
    }
    Ok(text)
}

// The places that an image lists: the object, section and offset of each, and how far it lies from the text's start.
fn places_text(alloc: Global, image: &Image) -> Result<String, Fail> {
    let mut text = String::new(alloc);
    for i in 0..image.place_count() {
        let (p, address) = image.place(i);
        let way = address.wrapping_sub(MemMap::standard().text);
        let place = format!(in alloc; " {}:{}:{}:{way}", p.object, p.section, p.offset)?;
        text.push_str(place.as_str())?;
    }
    Ok(text)
}

// The bytes of both texts, and how many items, short ones, long branches, pushes, pops and moves there are.
fn counts_text(alloc: Global, linked: &Linked) -> Result<String, Fail> {
    let (plain, zc) = (linked.plain, linked.zc);
    let texts = format!(in alloc; "{} {} {}", plain.text, zc.text, zc.items)?;
    let sizes = format!(in alloc; "{} {}", zc.short, zc.long)?;
    Ok(format!(in alloc; "{texts} {sizes} {} {} {}", zc.pushes, zc.pops, zc.moves)?)
}

// The e_flags of an image.
fn flags_text(alloc: Global, linked: &Linked) -> Result<String, Fail> {
    let flags = linked.elf.get(36..40).ok_or("no flags")?;
    Ok(format!(in alloc; "{flags:?}")?)
}

/// The answer to a question about a link: its `text`, the text's first eight bytes as its `start`, its `places`, its
/// `counts`, or its `flags`.
pub fn image_text(alloc: Global, linked: &Linked, asked: &str) -> Result<String, Fail> {
    let image = Image::read(linked.elf.as_slice(), MemMap::standard())?;
    if image.segment_count() == 0 {
        return Err("no text".into());
    }
    match asked {
        "text" => halves_text(alloc, image.segment(0).bytes),
        "start" => {
            let start = image.segment(0).bytes.get(..8).ok_or("no start")?;
            halves_text(alloc, start)
        }
        "places" => places_text(alloc, &image),
        "counts" => counts_text(alloc, linked),
        "flags" => flags_text(alloc, linked),
        _ => Err("no question".into()),
    }
}
