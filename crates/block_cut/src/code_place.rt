// Places in code.

ghost use Rattle.std.specs.Prelude.{◌≡◌, ◌+◌, ◌-◌, ◌^◌, ◌<◌, length, take};
ghost use Rattle.std.specs.Option.{option_map_or};
ghost use Rattle.block_cut.specs.PlainLayout.{after_item};

use crate::item::Item;
use crate::plain_layout::after_item;

/// A place where an item of code starts or a section of code ends: the item, if one starts there, the address in the
/// plain layout, the offset in its section, and the item's number of bytes there.
#[derive(Clone, Copy)]
pub struct CodePlace {
    pub item: Option<Item>,
    pub address: u32,
    pub offset: u32,
    pub size: u8,
}

/// The address after an item at an address, by its size in its section.
pub fn address_after(at: u32, size: u8, item: &Option<Item>) -> u32
    requires { at + 256 < 2 ^ 32 }
    ensures { result ≡ option_map_or (after_item at size) item.now at }
{
    match item {
        None => at,
        Some(item) => after_item(at, size, item),
    }
}

/// The places of a section where items start: all but the last, where the section ends.
pub fn item_places(places: &[CodePlace]) -> &[CodePlace]
    ensures { result.now ≡ take (length places.now - 1) places.now }
{
    &places[..places.len().saturating_sub(1)]
}
