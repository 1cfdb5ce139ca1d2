// What objects are cut into and linked to, as lines of text.

ghost use Rattle.std.specs.Prelude.{IfOk};
ghost use Rattle.zc_base.specs.MemMap.{IsMap};

use crate::images::image_text;
use crate::objects::{files_of, numbers_of};
use block_cut::cut::Cut;
use block_cut::item::Item;
use elf32_read::fault::Fault;
use frame_match::planned::plan;
use psabi_sym::link_fault::LinkFault;
use psabi_sym::objects::Objects;
use psabi_sym::target::Target;
use rv_decode::instr::Instr;
use shrink_layout::settled::{Settled, settle};
use std::alloc::{AllocError, Global};
use std::process::Abort;
use std::test::Fail;
use zc_base::extensions::Extensions;
use zc_base::link_options::LinkOptions;
use zc_base::mem_map::MemMap;
use zc_base::place::Place;
use zc_link::plain::link_plain;
use zc_link::zc::link_zc;

// A place by its object, section and offset.
fn place_of(alloc: Global, text: &str) -> Result<Place, Fail> {
    let numbers = numbers_of(alloc, text)?;
    let [object, section, offset] = numbers.as_slice() else {
        return Err("no place".into());
    };
    Ok(Place {
        object: u16::try_from(*object)?,
        section: u16::try_from(*section)?,
        offset: u32::try_from(*offset)?,
    })
}

fn place_text(alloc: Global, p: Place) -> Result<String, AllocError> {
    format!(in alloc; "{}:{}:{}", p.object, p.section, p.offset)
}

fn target_text(alloc: Global, target: Target) -> Result<String, AllocError> {
    match target {
        Target::Code(p) => format!(in alloc; "code {}", place_text(alloc, p)?),
        Target::Number(number) => format!(in alloc; "number {number}"),
        Target::Absent(number) => format!(in alloc; "absent {number}"),
        Target::Nowhere => format!(in alloc; "nowhere"),
    }
}

// An item of one instruction, with its target.
fn instr_text(alloc: Global, name: &str, instr: Instr, to: String) -> Result<String, AllocError> {
    format!(in alloc; "{name} {instr:?} {to}")
}

fn item_text(alloc: Global, item: Item) -> Result<String, AllocError> {
    match item {
        Item::Op(instr) => format!(in alloc; "Op {instr:?}"),
        Item::Hi(instr, to) => instr_text(alloc, "Hi", instr, target_text(alloc, to)?),
        Item::Lo(instr, to) => instr_text(alloc, "Lo", instr, target_text(alloc, to)?),
        Item::PcHi(instr, to) => instr_text(alloc, "PcHi", instr, target_text(alloc, to)?),
        Item::PcLo(instr, to) => instr_text(alloc, "PcLo", instr, place_text(alloc, to)?),
        Item::Branch {
            op,
            first,
            second,
            to,
        } => {
            let branch = Instr::Branch {
                op,
                first,
                second,
                distance: 0,
            };
            instr_text(alloc, "Branch", branch, place_text(alloc, to)?)
        }
        Item::Jump { rd, to } => {
            let jump = Instr::Jal { rd, distance: 0 };
            instr_text(alloc, "Jump", jump, place_text(alloc, to)?)
        }
        Item::Call { rd, temp, to } => {
            let to = place_text(alloc, to)?;
            format!(in alloc; "Call x{} x{} {to}", rd.number(), temp.number())
        }
        Item::Align(bytes) => format!(in alloc; "Align {bytes}"),
        Item::Word(to) => format!(in alloc; "Word {}", target_text(alloc, to)?),
        Item::Raw(word) => format!(in alloc; "Raw {word}"),
        Item::RawShort(half) => format!(in alloc; "RawShort {half}"),
        Item::RawPair(first, second) => format!(in alloc; "RawPair {first} {second}"),
    }
}

// The offset after the item at a place, and the item, if one starts there.
fn next_text(alloc: Global, cut: &Cut, p: Place) -> Result<String, Fail> {
    let (Some(next), Some(item)) = (cut.next(p), cut.item(p)) else {
        return Ok(format!(in alloc; "none")?);
    };
    Ok(format!(in alloc; "{} {}", next.offset, item_text(alloc, item)?)?)
}

// What the plain layout counts, and how far places lie from the text's start.
fn layout_text(alloc: Global, cut: &Cut, places: &str) -> Result<String, Fail> {
    let counts = cut.counts();
    let mut text = format!(in alloc; "{} {}", counts.text, counts.items)?;
    for place in places.split_whitespace() {
        let distance = match cut.plain_address(place_of(alloc, place)?) {
            None => format!(in alloc; " none")?,
            Some(address) => {
                format!(in alloc; " {}", address.wrapping_sub(MemMap::standard().text))?
            }
        };
        text.push_str(distance.as_str())?;
    }
    Ok(text)
}

// The offsets of a section of the first object, up to 60, at which basic blocks begin.
fn blocks_text(alloc: Global, cut: &Cut, section: u16) -> Result<String, Fail> {
    let mut text = String::new(alloc);
    for offset in 0..60 {
        let p = Place {
            object: 0,
            section,
            offset,
        };
        if cut.leader(p) {
            text.push_str(format!(in alloc; " {offset}")?.as_str())?;
        }
    }
    Ok(text)
}

// The words of data that hold addresses.
fn data_text(alloc: Global, cut: &Cut) -> Result<String, Fail> {
    let mut text = String::new(alloc);
    for word in cut.data_words() {
        let target = target_text(alloc, word.target)?;
        text.push_str(format!(in alloc; "{:x} {target} ", word.at)?.as_str())?;
    }
    Ok(text)
}

fn place(offset: u32) -> Place {
    Place {
        object: 0,
        section: 1,
        offset,
    }
}

// How far an offset of section 1 lies from the text's start, or 99 if it has no address.
fn settled_way(settled: &Settled, to: u32) -> u32 {
    match settled.address(place(to)) {
        None => 99,
        Some(address) => address.wrapping_sub(MemMap::standard().text),
    }
}

// The bytes of what is written at an offset of section 1, how far another lies from the text's start, and the counts.
fn settled_numbers(settled: &Settled, at: u32, to: u32) -> [u32; 9] {
    let counts = settled.counts();
    [
        settled.size(place(at)).unwrap_or(99),
        settled_way(settled, to),
        settled.text_end().wrapping_sub(MemMap::standard().text),
        counts.items,
        counts.short,
        counts.long,
        counts.pushes,
        counts.pops,
        counts.moves,
    ]
}

// How many nodes the tree of a layout's sizes has, the first four, and the last.
fn nodes_text(alloc: Global, settled: &Settled) -> Result<String, Fail> {
    let nodes = settled.sums().nodes();
    let [first, second, third, fourth, .., last] = nodes else {
        return Err("few nodes".into());
    };
    let count = nodes.len();
    Ok(format!(in alloc; "{count} {first} {second} {third} {fourth} {last}")?)
}

fn settled_text(alloc: Global, settled: &Settled, offsets: &str) -> Result<String, Fail> {
    if offsets == "nodes" {
        return nodes_text(alloc, settled);
    }
    let (at, to) = offsets.split_once(':').ok_or("no offsets")?;
    let mut text = String::new(alloc);
    for number in settled_numbers(settled, at.parse::<u32>()?, to.parse::<u32>()?) {
        text.push_str(format!(in alloc; " {number}")?.as_str())?;
    }
    Ok(text)
}

fn settled_of(alloc: Global, cut: Cut) -> Result<Settled, AllocError> {
    settle(alloc, plan(alloc, cut)?)
}

fn fault_text(alloc: Global, fault: LinkFault) -> Result<String, Fail> {
    let LinkFault::Object { index, fault } = fault else {
        return Err("no memory".into());
    };
    let name = fault.name();
    match fault {
        Fault::RelocKind { section, at }
        | Fault::RelocPlace { section, at }
        | Fault::LoPair { section, at }
        | Fault::BadTarget { section, at }
        | Fault::Range { section, at } => Ok(format!(in alloc; "{index} {name} {section}:{at}")?),
        _ => Ok(format!(in alloc; "{index} {name}")?),
    }
}

// The answer to a question about objects that are cut.
fn told(alloc: Global, cut: &Cut, question: &str) -> Result<String, Fail> {
    let (word, rest) = question.split_once(' ').unwrap_or((question, ""));
    match word {
        "item" => next_text(alloc, cut, place_of(alloc, rest)?),
        "lies" => layout_text(alloc, cut, rest),
        "blocks" => blocks_text(alloc, cut, rest.parse::<u16>()?),
        "data" => data_text(alloc, cut),
        "" => Ok(format!(in alloc; "linked")?),
        _ => Err("no question".into()),
    }
}

// The extensions that a word names.
fn extensions_of(word: &str) -> Extensions {
    Extensions {
        zcb: word.contains("zcb"),
        zcmp: word.contains("zcmp"),
        zcmt: word.contains("zcmt"),
    }
}

// The standard map of a chip with these extensions.
fn map_of(extensions: Extensions) -> Result<MemMap, Fail>
    ensures { IfOk result IsMap }
{
    let map = MemMap {
        extensions,
        ..MemMap::standard()
    };
    Ok(MemMap::checked(map).ok_or("no map")?)
}

// Names with commas between; none in an empty text.
fn names_of(alloc: Global, text: &str) -> Result<Vec<Vec<u8>>, AllocError> {
    let mut names = Vec::new(alloc);
    if !text.is_empty() {
        for name in text.split(',') {
            names.push(Vec::from_slice(alloc, name.as_bytes())?)?;
        }
    }
    Ok(names)
}

// The fault of the objects with these changes, or the answer to a question about them. The names of sections that stay as
// they were compiled stand behind the changes and a `!`.
fn answer(
    alloc: Global,
    extensions: Extensions,
    changes: &str,
    question: &str,
) -> Result<String, Fail> {
    let (changes, names) = changes.split_once('!').unwrap_or((changes, ""));
    let files = files_of(alloc, changes)?;
    let options = LinkOptions::new(map_of(extensions)?, names_of(alloc, names.trim())?);
    let objects = Objects::gather(alloc, &files, &options)?;
    if let Some(asked) = question.strip_prefix("zc ") {
        return image_text(alloc, &link_zc(alloc, objects)?, asked);
    }
    if let Some(asked) = question.strip_prefix("plain ") {
        return image_text(alloc, &link_plain(alloc, objects)?, asked);
    }
    match (Cut::new(alloc, objects), question.strip_prefix("settled ")) {
        (Err(fault), _) => fault_text(alloc, fault),
        (Ok(cut), None) => told(alloc, &cut, question),
        (Ok(cut), Some(offsets)) => settled_text(alloc, &settled_of(alloc, cut)?, offsets),
    }
}

/// Checks the answer of each row. A row has the changes of the objects, a question after `@`, the answer after
/// `=`, and what it shows after `|`. Without a question, it asks whether the objects are linked.
pub fn expect<R: Abort + AllocGlobal>(rt: &R, rows: &str) -> Result<(), Fail> {
    for row in rows.trim().lines() {
        let (cells, _what) = row.split_once('|').unwrap_or((row, ""));
        let (given, want) = cells.split_once('=').ok_or("no answer")?;
        let (changes, question) = given.split_once('@').unwrap_or((given, ""));
        let found = answer(rt.alloc(), Extensions::all(), changes, question.trim())?;
        assert_eq!(rt; found.as_str().trim(), want.trim(), "{row}");
    }
    Ok(())
}

/// Checks the answer of each row about one list of objects, on each chip that the row names: a row has the extensions of
/// chips, such as `zca_zcb`, a question after `@`, the answer after `=`, and what it shows after `|`.
pub fn expect_on<R: Abort + AllocGlobal>(rt: &R, changes: &str, rows: &str) -> Result<(), Fail> {
    for row in rows.trim().lines() {
        let (cells, _what) = row.split_once('|').unwrap_or((row, ""));
        let (given, want) = cells.split_once('=').ok_or("no answer")?;
        let (chips, question) = given.split_once('@').ok_or("no question")?;
        for chip in chips.split_whitespace() {
            let found = answer(rt.alloc(), extensions_of(chip), changes, question.trim())?;
            assert_eq!(rt; found.as_str().trim(), want.trim(), "{chip} {row}");
        }
    }
    Ok(())
}
