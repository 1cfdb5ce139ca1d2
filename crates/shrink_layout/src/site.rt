// Jumps and calls that a table could serve.

ghost use Rattle.std.specs.Prelude.{◌≡◌, [], IfSome, option_map, true};
ghost use Rattle.psabi_sym.specs.Inputs.{parsed};
ghost use Rattle.block_cut.specs.Items.{is_target_at, item_at};
ghost use Rattle.shrink_layout.specs.Invariants.Sites.{is_served, site_pair};
ghost use Rattle.shrink_layout.specs.Pieces.{site_at};
ghost use Rattle.shrink_layout.specs.Units.{jump_of};

use crate::settled::Settled;
use block_cut::item::Item;
use zc_base::place::Place;

/// A jump or a call: the register that it puts its return address in, and where it leads.
#[derive(Clone, Copy)]
pub struct Site {
    pub rd: u8,
    pub to: Place,
}

// The jump or call that an item is.
fn jump_of(item: &Item) -> Option<Site>
    ensures { option_map site_pair result ≡ jump_of item.now }
{
    match item {
        Item::Jump { rd, to } | Item::Call { rd, to, .. } => Some(Site {
            rd: rd.number(),
            to: *to,
        }),
        Item::Op(_)
        | Item::Hi(..)
        | Item::Lo(..)
        | Item::PcHi(..)
        | Item::PcLo(..)
        | Item::Branch { .. }
        | Item::Align(_)
        | Item::Word(_)
        | Item::Raw(_)
        | Item::RawShort(_)
        | Item::RawPair(..) => None,
    }
}

// Whether a jump or call takes four bytes and links no register or ra.
fn is_served(size: Option<u32>, site: Site) -> bool
    ensures { result ≡ is_served size site }
{
    matches!(size, Some(4)) && site.rd < 2
}

/// The jump or call at a place that a table could serve, by the item there: it takes four bytes without one, links no
/// register or ra, and isn't in a fixed section (RISC-V Zc specification 1.0, "cm.jt" and "cm.jalt"). It takes constant
/// time.
pub(crate) fn site_at(settled: &Settled, p: Place, item: &Option<Item>) -> Option<Site>
    requires unset { settled.now.slots ≡ [] }
    requires item { item.now ≡ item_at (parsed settled.now.inputs) p }
    ensures value { option_map site_pair result ≡ site_at (parsed settled.now.inputs) p }
    ensures target { IfSome result (λ site. is_target_at (parsed settled.now.inputs).objects site.to ≡ true) }
{
    let cut = settled.planned().cut();
    // No fault stands in the objects, so jumps and calls lead where code may lead.
    cut.recall_invariant();
    let Some(item) = item else {
        return None;
    };
    let Some(site) = jump_of(item) else {
        return None;
    };
    if !is_served(settled.size(p), site) {
        return None;
    }
    if cut.objects().is_fixed(p.object, p.section) {
        return None;
    }
    Some(site)
}
