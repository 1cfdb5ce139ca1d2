// Where the names of a table end, and the numbers of their tails.

ghost use Rattle.std.specs.Prelude.{◌≡◌, ◌+◌, ◌^◌, ◌<◌, ◌≤◌, List, ℕ, IfOk, OnOk, length};
ghost use Rattle.std.specs.Borrow.{Bor};
ghost use Rattle.elf32_read.specs.Names.{name_at};
ghost use Rattle.psabi_sym.specs.Invariants.Keys.{AreLongEnds, AreNameEnds, AreTextBlocks, HaveMoreTexts, IsEnd, IsKey, tails_of};

use crate::key::Key;
use crate::name_lengths::{BLOCK, short_length};
use crate::texts::Texts;
use std::alloc::{AllocError, Global};

/// The number of bytes of a name, and the number of its longest tail of whole blocks.
#[derive(Clone, Copy)]
pub struct NameEnd {
    pub length: u32,
    pub tail: u32,
}

// The end of the name that begins at a byte, by that of the name from the next byte on.
fn end_before<'a>(
    table: &'a [u8],
    at: usize,
    next: NameEnd,
    tails: &mut Texts<'a>,
) -> Result<NameEnd, AllocError>
    requires inside { (at < length table.now) × (length table.now ≤ 0x40_0000) }
    requires room { length tails.old.texts.items + 1 < 2 ^ 32 }
    requires tails { AreTextBlocks tails.old.numbers tails.old.texts.items }
    requires next { IsEnd (tails_of tails.old.texts.items) (name_at table.now (at + 1)) next }
    ensures grown { OnOk result (HaveMoreTexts tails.old tails.new 1) }
    ensures end { IfOk result (IsEnd (tails_of tails.new.texts.items) (name_at table.now at)) }
{
    if table[at] == 0 {
        return Ok(NameEnd { length: 0, tail: 0 });
    }
    let length = next.length + 1;
    if length as usize % BLOCK != 0 {
        return Ok(NameEnd {
            length,
            tail: next.tail,
        });
    }
    let name = &table[at..at + length as usize];
    let key = Key::new(&name[..BLOCK], next.tail);
    let number = tails.number(key, name)?;
    Ok(NameEnd {
        length,
        tail: number + 1,
    })
}

/// The ends of the names that begin at each byte of a table. It looks at each byte twice.
pub fn name_ends<'a>(
    alloc: Global,
    table: &'a [u8],
    tails: &mut Texts<'a>,
) -> Result<Vec<NameEnd>, AllocError>
    requires few { length table.now ≤ 0x40_0000 }
    requires room { length tails.old.texts.items ≤ 2 ^ 31 }
    requires tails { AreTextBlocks tails.old.numbers tails.old.texts.items }
    ensures grown { OnOk result (HaveMoreTexts tails.old tails.new (length table.now)) }
    ensures ends { IfOk result (λ ends. AreNameEnds tails.new.texts.items table.now ends.items) }
{
    let mut end = NameEnd { length: 0, tail: 0 };
    let mut ends = vec![in alloc; end; table.len()]?;
    for k in 0..table.len() {
        let at = table.len() - 1 - k;
        end = end_before(table, at, end, tails)?;
        ends[at] = end;
    }
    Ok(ends)
}

/// The name that begins at an offset of a table, and its key. It looks at no more than a block of
/// bytes.
pub fn name_with_key<'a>(table: &'a [u8], ends: &[NameEnd], at: u32) -> (&'a [u8], Key<'a>)
    requires { (texts : List (Bor (List ℕ))) × AreLongEnds texts table.now ends.now }
    ensures name { result.0.now ≡ name_at table.now at }
    ensures key { (texts : List (Bor (List ℕ))) → AreLongEnds texts table.now ends.now
        → IsKey 0 (tails_of texts) result.1 result.0.now }
{
    let rest = &table[table.len().min(at as usize)..];
    if let Some(length) = short_length(rest) {
        let name = &rest[..length];
        return (name, Key::new(name, 0));
    }
    let end = ends[at as usize];
    let name = &rest[..end.length as usize];
    let key = Key::new(&name[..end.length as usize % BLOCK], end.tail);
    (name, key)
}
