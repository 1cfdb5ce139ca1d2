// What is written at a place: an item by itself, a group at its first, or a jump through the table.

ghost use Rattle.std.specs.Prelude.{◌≡◌, None, Some, IfNone, IfSome, ℕ};
ghost use Rattle.block_cut.specs.Items.{size_at as own_size_at};
ghost use Rattle.psabi_sym.specs.Inputs.{parsed};
ghost use Rattle.shrink_layout.specs.Units.{OneItem};
ghost use Rattle.zc_link.specs.Codes.{code_bytes};
ghost use Rattle.zc_link.specs.Standing.{IsRoleUnit, StartsHere, UnitHere};
ghost use Rattle.frame_match.specs.declared.role.Role.{Role};

use crate::code::Code;
use crate::group::group_code;
use crate::item::item_code;
use crate::item_start::ItemStart;
use crate::layout::Layout;
use block_cut::item::Item;
use frame_match::role::Role;

/// What is written at a place where an item starts, or none inside a group. It takes constant time beside that of the
/// addresses of places that an item leads to.
pub fn unit_code<'a, L: Layout>(layout: &L, start: ItemStart<'a>, item: Item) -> Option<Code<'a>>
    requires starts { StartsHere (L.layout layout.now) start.number start.code.now start.at item }
    requires own { own_size_at (parsed (L.layout layout.now).inputs).objects start.at ≡ start.own }
    requires keeps { (L.layout layout.now).keeps_halfwords start.at ≡ start.keeps }
    requires address { (b : ℕ) → (L.layout layout.now).address start.at ≡ Some b → start.address ≡ b }
    ensures inside { IfNone result ((L.layout layout.now).address start.entry.at ≡ None) }
    ensures written { IfSome result (λ code.
        UnitHere (L.layout layout.now) start.entry.code.now start.entry.at start.entry.address (code_bytes code)) }
{
    layout.recall_laid_out();
    match layout.role_at(start.number) {
        Role::Alone => Some(site_or_item_code(layout, start, item)),
        Role::First(group) => Some(group_code(&group)),
        Role::Inside => None,
    }
}

// What is written for an item outside groups: a jump or call through the table, or the item by itself.
fn site_or_item_code<'a, L: Layout>(layout: &L, start: ItemStart<'a>, item: Item) -> Code<'a>
    requires starts { StartsHere (L.layout layout.now) start.number start.code.now start.at item }
    requires own { own_size_at (parsed (L.layout layout.now).inputs).objects start.at ≡ start.own }
    requires keeps { (L.layout layout.now).keeps_halfwords start.at ≡ start.keeps }
    requires unit { IsRoleUnit ((L.layout layout.now).unit start.at) (Some item) Role.Alone }
    requires address { (L.layout layout.now).address start.at ≡ Some start.address }
    ensures { UnitHere (L.layout layout.now) start.entry.code.now start.entry.at start.entry.address
        (code_bytes result) }
{
    layout.recall_laid_out();
    match layout.site_half(start.number) {
        Some(half) => Code::Half(half),
        None => item_by_itself(layout, start, item),
    }
}

// What is written for an item by itself.
fn item_by_itself<'a, L: Layout>(layout: &L, start: ItemStart<'a>, item: Item) -> Code<'a>
    requires starts { StartsHere (L.layout layout.now) start.number start.code.now start.at item }
    requires own { own_size_at (parsed (L.layout layout.now).inputs).objects start.at ≡ start.own }
    requires keeps { (L.layout layout.now).keeps_halfwords start.at ≡ start.keeps }
    requires unit { (L.layout layout.now).unit start.at ≡ Some (OneItem item) }
    requires address { (L.layout layout.now).address start.at ≡ Some start.address }
    ensures { UnitHere (L.layout layout.now) start.entry.code.now start.entry.at start.entry.address
        (code_bytes result) }
{
    layout.recall_laid_out();
    item_code(layout, start, layout.written_size(start.number), item)
}
