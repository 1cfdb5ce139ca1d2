// Names in tables of strings (System V gABI, "String Table").

ghost use Rattle.std.specs.Prelude.{◌≡◌, ℕ, ◌==◌, nat_eq, nat_lt, drop};
ghost use Rattle.std.specs.List.{starts_with};
ghost use Rattle.elf32_read.specs.Names.{has_end, name_at};

/// A string table from an offset on; empty if the offset is past its end.
pub fn names_from(table: &[u8], at: u32) -> &[u8]
    ensures { result.now ≡ drop at table.entry.now }
{
    &table[table.len().min(at as usize)..]
}

/// Whether a name, given with its terminating zero, is the one at an offset of a table. It looks at no
/// more bytes than the name has.
pub fn is_name_at(ended: &[u8], table: &[u8], at: u32) -> bool
    ensures { result ≡ starts_with nat_eq (drop at table.now) ended.now }
{
    names_from(table, at).starts_with(ended)
}

/// The offset just after the last zero, or 0 if there is none: the names that begin below it are
/// terminated, and no others. It looks at no byte before that zero.
pub fn names_end(names: &[u8]) -> usize
    ensures { (k : ℕ) → has_end names.now k ≡ nat_lt k result }
{
    for i in 0..names.len() {
        let end = names.len() - i;
        if names[end - 1] == 0 {
            return end;
        }
    }
    0
}

/// The name that begins at an offset of a table. It looks at each byte of the name.
pub fn name_at(table: &[u8], at: u32) -> &[u8]
    ensures { result.now ≡ name_at table.entry.now at }
{
    let rest = names_from(table, at);
    for (i, byte) in rest.iter().enumerate() {
        if *byte == 0 {
            return &rest[..i];
        }
    }
    rest
}
