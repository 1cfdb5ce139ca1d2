// The text of a link: section after section, place after place.

ghost use Rattle.std.specs.Prelude.{◌≡◌, ◌+◌, ◌++◌, ◌<◌, ℕ, length, replicate, take, IfOk, OnOk};
ghost use Rattle.psabi_sym.specs.Inputs.{parsed};
ghost use Rattle.psabi_sym.specs.Indexed.{all_sections};
ghost use Rattle.zc_link.specs.Standing.{BeginsSection};
ghost use Rattle.zc_link.specs.Written.{IsTextOf};

use crate::item_start::ItemStart;
use crate::layout::Layout;
use crate::unit::unit_code;
use block_cut::place_number::PlaceNumber;
use std::alloc::{AllocError, Global};
use zc_base::place::Place;

/// A text, and the address of each place in it.
#[derive(Drop)]
pub struct Text {
    pub text: Vec<u8>,
    pub places: Vec<(Place, u32)>,
}

impl Text {
    /// The text of a layout's code, with all its places: first what comes before the sections, and then each section.
    /// It takes time linear in the code and the number of sections, beside that of an address for each section and for
    /// each place that an item leads to.
    pub fn lay<L: Layout>(alloc: Global, layout: &L) -> Result<Text, AllocError>
        ensures { IfOk result (λ laid. IsTextOf (L.layout layout.now)
            (all_sections (parsed (L.layout layout.now).inputs).objects) laid.text.items laid.places.items) }
    {
        let cut = layout.cut();
        let counts = cut.counts();
        let sections = cut.objects().section_count();
        let mut laid = Text {
            // The plain layout's size suffices for most layouts.
            text: Vec::with_capacity(alloc, counts.text as usize)?,
            places: Vec::with_capacity(alloc, counts.items as usize + sections as usize)?,
        };
        layout.add_front(&mut laid.text)?;
        for k in 0..sections {
            laid.add_section(layout, k)?;
        }
        Ok(laid)
    }

    // Adds a section, by its number among all, if it is code: zeros up to where it begins, and what is written there.
    fn add_section<L: Layout>(&mut self, layout: &L, k: u32) -> Result<(), AllocError>
        requires section { k < length (all_sections (parsed (L.layout layout.now).inputs).objects) }
        requires before { IsTextOf (L.layout layout.now)
            (take k (all_sections (parsed (L.layout layout.now).inputs).objects))
            self.old.text.items self.old.places.items }
        ensures { OnOk result (IsTextOf (L.layout layout.now)
            (take (k + 1) (all_sections (parsed (L.layout layout.now).inputs).objects))
            self.new.text.items self.new.places.items) }
    {
        let cut = layout.cut();
        if cut.places(k).is_empty() {
            return Ok(());
        }
        let begin = layout.address_at(PlaceNumber {
            section: k,
            index: 0,
        });
        let end = cut.objects().map().text + self.text.len() as u32;
        add_zeros(&mut self.text, begin - end)?;
        self.add_places(layout, k)
    }

    // Adds the places of a section of code, by its number among all, with what is written there.
    fn add_places<L: Layout>(&mut self, layout: &L, k: u32) -> Result<(), AllocError>
        requires { BeginsSection (L.layout layout.now) k self.old.text.items self.old.places.items }
        ensures { OnOk result (IsTextOf (L.layout layout.now)
            (take (k + 1) (all_sections (parsed (L.layout layout.now).inputs).objects))
            self.new.text.items self.new.places.items) }
    {
        let cut = layout.cut();
        let section = cut.objects().section(k);
        let places = cut.places(k);
        let start = cut.objects().map().text;
        let object = section.object();
        let index = section.index();
        let keeps = layout.keeps_halfwords(object, index);
        for i in 0..places.len() {
            let place = &places[i];
            let at = Place {
                object,
                section: index,
                offset: place.offset,
            };
            let address = start + self.text.len() as u32;
            match place.item {
                None => self.places.push((at, address))?,
                Some(item) => {
                    let number = PlaceNumber {
                        section: k,
                        index: i as u32,
                    };
                    let begins = ItemStart {
                        at,
                        number,
                        code: section.bytes(),
                        own: place.size,
                        keeps,
                        address,
                    };
                    if let Some(code) = unit_code(layout, begins, item) {
                        self.places.push((at, address))?;
                        code.add_to(&mut self.text)?;
                    }
                }
            }
        }
        Ok(())
    }
}

// Adds `count` zeros.
fn add_zeros(text: &mut Vec<u8>, count: u32) -> Result<(), AllocError>
    ensures { OnOk result (text.new.items ≡ text.old.items ++ replicate count 0) }
{
    for _i in 0..count {
        text.push(0)?;
    }
    Ok(())
}
