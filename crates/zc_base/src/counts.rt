// What a link counts.

/// What a link counts. `text` is in bytes; all others are numbers of items, groups or sites.
///
/// `items` counts all items, and `short` those written in two bytes outside a group, except padding
/// and jumps through the table. `long` counts the branches written in eight bytes, `pushes`, `pops`
/// and `moves` the fused groups of each kind, and `table` the sites that go through the jump table.
#[derive(Clone, Copy, Debug)]
pub struct Counts {
    pub text: u32,
    pub items: u32,
    pub short: u32,
    pub long: u32,
    pub pushes: u32,
    pub pops: u32,
    pub moves: u32,
    pub table: u32,
}
