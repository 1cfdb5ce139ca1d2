// The objects with their code cut into items.

ghost use Rattle.std.specs.Prelude.{◌≡◌, ◌<◌, ◌+◌, ◌^◌, None, Some, IfOk, IfErr, IfSome, MatchOption, false, true, length, slice_get};
ghost use Rattle.zc_base.specs.MemMap.{IsMap};
ghost use Rattle.psabi_sym.specs.Faults.{gather_fault};
ghost use Rattle.psabi_sym.specs.Inputs.{parsed};
ghost use Rattle.psabi_sym.specs.LinkFault.{IsRefusal};
ghost use Rattle.psabi_sym.specs.Indexed.{all_sections, IndexedSection};
ghost use Rattle.block_cut.specs.DataWords.{data_words};
ghost use Rattle.block_cut.specs.Faults.{first_fault, relocs_fault};
ghost use Rattle.block_cut.specs.Items.{all_items, entry_in, entry_of, is_target_at, item_at, place_after, start_only};
ghost use Rattle.block_cut.specs.Leaders.{is_leader_at};
ghost use Rattle.block_cut.specs.Invariants.CodeTables.{AreCodeTables};
ghost use Rattle.block_cut.specs.Invariants.HalfwordTables.{numbers_of_section};
ghost use Rattle.block_cut.specs.Places.{IsPlaceNumber, code_places, place_there};
ghost use Rattle.block_cut.specs.PlainLayout.{plain_address, plain_counts};

use crate::code_place::CodePlace;
use crate::code_tables::CodeTables;
use crate::data_word::DataWord;
use crate::item::Item;
use crate::leaders::Leaders;
use crate::leads::add_leads;
use crate::place_number::PlaceNumber;
use crate::reach::first_out_of_reach;
use crate::reloc_targets::RelocTargets;
use elf32_read::fault::Fault;
use psabi_sym::link_fault::LinkFault;
use psabi_sym::objects::Objects;
use psabi_sym::target::Target;
use std::alloc::Global;
use std::marker::Model;
use zc_base::counts::Counts;
use zc_base::place::Place;

/// The objects of a link without a fault, with their code cut into items. No look-up decodes a word.
#[derive(Drop)]
pub struct Cut {
    objects: Objects,
    tables: CodeTables,
    words: Vec<DataWord>,
    entry: Place,
    leaders: Leaders,
}

impl Model for Cut {
    ghost use Rattle.psabi_sym.specs.Inputs.{Inputs};
    ghost use Rattle.block_cut.specs.Invariants.Cut.{IsCut};

    ghost Value = { Inputs };

    ghost view = { λ cut. cut.objects };

    ghost invariant = { λ cut. IsCut cut.objects cut.tables cut.words.items cut.entry cut.leaders };
}

impl Cut {
    /// Cuts the code of the objects into items, or says why they aren't linked. It takes time near-linear
    /// in the objects' bytes, sections, relocations and symbols.
    pub fn new(alloc: Global, objects: Objects) -> Result<Cut, LinkFault>
        ensures same { IfOk result (λ cut. cut ≡ objects) }
        ensures faultless { IfOk result (λ _. first_fault objects ≡ None) }
        ensures err { IfErr result (λ fault. IsRefusal (first_fault objects) fault) }
    {
        let (tables, of_code) = CodeTables::new(alloc, &objects)?;
        let targets = match RelocTargets::find(alloc, &objects, &tables, of_code) {
            Err(fault) => return Err(fault),
            Ok(targets) => targets,
        };
        let entry = match entry_in_reach(&objects, &tables) {
            Err(fault) => return Err(fault),
            Ok(entry) => entry,
        };
        let mut leaders = targets.leaders;
        add_leads(&mut leaders, &objects, &tables)?;
        Ok(Cut {
            objects,
            tables,
            words: targets.words,
            entry,
            leaders,
        })
    }

    /// Says what holds of every cut, for the proof of a caller that needs no value of it. Nothing runs.
    #[inline]
    pub fn recall_invariant(&self)
        ensures gathered { gather_fault self.now ≡ None }
        ensures faultless { first_fault self.now ≡ None }
        ensures is_map { IsMap self.now.map }
        ensures few { length (all_items (parsed self.now)) < 2 ^ 32 }
    {
        let _count = self.tables.span.count;
    }

    /// The place with its item, if an item starts there or a section of code ends there. It takes constant time, as do
    /// all that follow unless they say otherwise.
    pub fn at(&self, p: Place) -> Option<&CodePlace>
        ensures { MatchOption result (is_target_at (parsed self.now).objects p ≡ false)
            (λ place. (is_target_at (parsed self.now).objects p ≡ true)
            × (place.now ≡ place_there (parsed self.now) p)) }
    {
        self.tables.place(&self.objects, p)
    }

    /// Where a place stands among all, if an item starts there or a section of code ends there.
    pub fn number(&self, p: Place) -> Option<PlaceNumber>
        ensures { MatchOption result (is_target_at (parsed self.now).objects p ≡ false)
            (λ number. (is_target_at (parsed self.now).objects p ≡ true)
            × IsPlaceNumber (parsed self.now).objects p number) }
    {
        self.tables.number(&self.objects, p)
    }

    /// The item at a place, if one starts there.
    pub fn item(&self, p: Place) -> Option<Item>
        ensures item { result ≡ item_at (parsed self.now) p }
        ensures room { IfSome result (λ _. p.offset + 256 < 2 ^ 32) }
    {
        self.tables.item(&self.objects, p)
    }

    /// The place after the item at a place, if one starts there.
    pub fn next(&self, p: Place) -> Option<Place>
        ensures { result ≡ place_after (parsed self.now).objects p }
    {
        let _item = self.item(p)?;
        let size = self.at(p)?.size;
        Some(moved(p, size))
    }

    /// The address in the plain layout of a place where an item starts or a section of code ends.
    pub fn plain_address(&self, p: Place) -> Option<u32>
        ensures { result ≡ plain_address (parsed self.now) p }
    {
        self.tables.address(&self.objects, p)
    }

    /// The places of a section, by its number among all: where an item starts, in order, and at last where the
    /// section ends; none if it isn't code.
    pub fn places(&self, section: u32) -> &[CodePlace]
        requires { section < length (all_sections (parsed self.now).objects) }
        ensures { (l : IndexedSection) → slice_get (all_sections (parsed self.now).objects) section ≡ Some l
            → result.now ≡ code_places (parsed self.now) l }
    {
        self.tables.places(section)
    }

    /// For each halfword of a section, the number of the place there, from 1 on; 0 where no item starts and the section
    /// doesn't end. The section is given by its number among all.
    pub fn numbers(&self, section: u32) -> &[u32]
        requires { section < length (all_sections (parsed self.now).objects) }
        ensures { (l : IndexedSection) → slice_get (all_sections (parsed self.now).objects) section ≡ Some l
            → result.now ≡ numbers_of_section l.section }
    {
        self.tables.numbers(section)
    }

    /// The place where the program starts.
    pub fn entry(&self) -> Place
        ensures { result ≡ entry_of (parsed self.now) }
    {
        self.entry
    }

    /// The words of data that hold addresses, by object, section and relocation.
    pub fn data_words(&self) -> &[DataWord]
        ensures { result.now ≡ data_words (parsed self.now) }
    {
        &self.words
    }

    /// The objects.
    pub fn objects(&self) -> &Objects
        ensures same { result.now ≡ self.now }
        ensures faultless { first_fault self.now ≡ None }
    {
        &self.objects
    }

    /// Whether a basic block begins at a place. It takes constant time if no function or global symbol
    /// stands within a word, and logarithmic time at most.
    pub fn leader(&self, p: Place) -> bool
        ensures { result ≡ is_leader_at (parsed self.now) p }
    {
        self.tables.has_start(&self.objects, p) || self.leaders.has(&self.objects, p)
    }

    /// What the plain layout counts.
    pub fn counts(&self) -> Counts
        ensures { result ≡ plain_counts (parsed self.now) }
    {
        let span = self.tables.span;
        Counts {
            text: span.end - self.objects.map().text,
            items: span.count,
            short: 0,
            long: 0,
            pushes: 0,
            pops: 0,
            moves: 0,
            table: 0,
        }
    }
}

// The place after an item of `size` bytes at a place.
fn moved(p: Place, size: u8) -> Place
    requires { p.offset + 256 < 2 ^ 32 }
    ensures { result ≡ record p { offset = p.offset + size } }
{
    Place {
        offset: p.offset + u32::from(size),
        ..p
    }
}

// The place where the program starts, unless there is none or a branch is out of range.
fn entry_in_reach(objects: &Objects, tables: &CodeTables) -> Result<Place, LinkFault>
    requires gathered { gather_fault objects.now ≡ None }
    requires relocs { relocs_fault (parsed objects.now) ≡ None }
    requires tables { AreCodeTables (parsed objects.now) tables.now }
    ensures entry { IfOk result (λ entry. entry_in (parsed objects.now) ≡ Some entry) }
    ensures faultless { IfOk result (λ _. first_fault objects.now ≡ None) }
    ensures err { IfErr result (λ fault. IsRefusal (first_fault objects.now) fault) }
{
    let Some(entry) = start_only(objects, tables, objects.start()) else {
        return Err(LinkFault::Object {
            index: 0,
            fault: Fault::NoEntry,
        });
    };
    if let Some(place) = first_out_of_reach(objects, tables) {
        return Err(LinkFault::Object {
            index: u32::from(place.object),
            fault: Fault::Range {
                section: place.section,
                at: place.offset,
            },
        });
    }
    Ok(entry)
}

// The place that a target is, if an item starts there.
fn start_only(objects: &Objects, tables: &CodeTables, target: Target) -> Option<Place>
    requires { AreCodeTables (parsed objects.now) tables.now }
    ensures { result ≡ start_only (parsed objects.now).objects target }
{
    let Target::Code(p) = target else {
        return None;
    };
    match tables.item(objects, p) {
        None => None,
        Some(_) => Some(p),
    }
}
