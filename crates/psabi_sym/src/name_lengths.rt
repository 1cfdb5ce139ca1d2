// How long the names of a table are, by few of its bytes.

ghost use Rattle.std.specs.Prelude.{◌≡◌, ◌<◌, ◌≤◌, ◌==◌, ℕ, None, false, not, length, slice_index, IfSome};
ghost use Rattle.std.specs.List.{prefix_len};
ghost use Rattle.elf32_read.specs.Names.{name_at};

/// The number of bytes of a name that are numbered at once.
pub const BLOCK: usize = 64;

// Where the last zero stands.
fn last_zero(bytes: &[u8]) -> Option<usize>
    ensures { IfSome result (λ k. (k < length bytes.now) × (slice_index bytes.now k ≡ 0)) }
{
    for k in 0..bytes.len() {
        let at = bytes.len() - 1 - k;
        if bytes[at] == 0 {
            return Some(at);
        }
    }
    None
}

/// Whether a name of a table has a block of bytes or more. It looks at no bytes of a block but those
/// from its last zero on.
pub fn has_long_name(table: &[u8]) -> bool
    ensures { result ≡ false → (k : ℕ) → k < length table.now → length (name_at table.now k) < 64 }
{
    let mut at = 0;
    while BLOCK <= table.len() - at {
        match last_zero(&table[at..at + BLOCK]) {
            None => return true,
            Some(k) => at += k + 1,
        }
    }
    false
}

/// The number of bytes before the first zero, or of all if there is none, if it is less than a block. It looks at no
/// more than a block.
pub fn short_length(bytes: &[u8]) -> Option<usize>
    ensures some { IfSome result (λ n. (n < 64) × (n ≡ prefix_len (λ byte. not (byte == 0)) bytes.now)) }
    ensures none { result ≡ None → 64 ≤ prefix_len (λ byte. not (byte == 0)) bytes.now }
{
    let end = bytes.len().min(BLOCK);
    for k in 0..end {
        if bytes[k] == 0 {
            return Some(k);
        }
    }
    if end < BLOCK { Some(end) } else { None }
}
