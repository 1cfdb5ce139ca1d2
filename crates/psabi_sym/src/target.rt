// What symbols resolve to.

use zc_base::place::Place;

/// What a symbol and an addend resolve to.
///
/// `Code` is a place in code, which has no address before the layout, and `Number` an address of data
/// or a number. `Absent` is a weak symbol that no object defines, with the addend alone. `Nowhere`
/// means no address: the symbol's section isn't kept, the place lies outside its
/// section, or the symbol is global and nothing defines it.
#[derive(Clone, Copy)]
pub enum Target {
    Code(Place),
    Number(u32),
    Absent(u32),
    Nowhere,
}
