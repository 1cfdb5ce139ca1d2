// Addresses in the plain layout, one after another.

ghost use Rattle.std.specs.Prelude.{◌≡◌, ◌+◌, ◌^◌, ◌<◌, max};
ghost use Rattle.psabi_sym.specs.Blocks.{aligned_up};
ghost use Rattle.block_cut.specs.PlainLayout.{after_item};

use crate::item::Item;
use psabi_sym::padding::power_above;

const LEAST_ALIGN: u32 = 4;

/// Where a section with an alignment begins, if the one before it ends at an address: at the next
/// multiple, of 4 at least.
#[tactic(auto, unfolding(psabi_sym::specs::Blocks::aligned_up))]
pub fn begin_after(end: u32, align: u32) -> u32
    requires { end + max 4 align < 2 ^ 32 }
    ensures { result ≡ aligned_up (max 4 align) end }
{
    end.next_multiple_of(align.max(LEAST_ALIGN))
}

/// The address after an item at an address, by its number of bytes in its section.
#[tactic(auto, unfolding(psabi_sym::specs::Blocks::aligned_up))]
pub fn after_item(at: u32, size: u8, item: &Item) -> u32
    requires { at + 256 < 2 ^ 32 }
    ensures { result ≡ after_item at size item.now }
{
    match item {
        Item::Align(bytes) => at.next_multiple_of(power_above(*bytes)),
        Item::Op(_)
        | Item::Hi(..)
        | Item::Lo(..)
        | Item::PcHi(..)
        | Item::PcLo(..)
        | Item::Branch { .. }
        | Item::Jump { .. }
        | Item::Call { .. }
        | Item::Word(_)
        | Item::Raw(_)
        | Item::RawShort(_)
        | Item::RawPair(..) => at + u32::from(size),
    }
}
