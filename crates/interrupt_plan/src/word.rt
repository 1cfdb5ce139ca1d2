// The words of a plan's lines.

ghost use Rattle.std.specs.Prelude.{◌≡◌, ◌↔◌, ◌∷◌, [], IsTrue, length, slice_index};
ghost use Rattle.interrupt_plan.specs.Text.{access_of, written_of};

use text_lines::hex::{read_hex_byte, read_hex_word};
use text_lines::number::read_number;

/// The number of the access that a word spells.
pub fn read_access(word: &[u8]) -> Option<u8>
    ensures { result ≡ access_of word.now }
{
    let digits = word.strip_prefix(b"a".as_slice())?;
    let number = read_number(digits, 255)?;
    Some(number as u8)
}

/// The address and the byte that a word with this letter spells.
pub fn read_byte(letter: u8, word: &[u8]) -> Option<(u32, u8)>
    ensures { result ≡ written_of (letter ∷ []) word.now }
{
    if !is_marked(letter, word) {
        return None;
    }
    let address = read_hex_word(&word[1..9])?;
    let byte = read_hex_byte(&word[10..])?;
    Some((address, byte))
}

// Whether a word has the length of a byte and its address, and a letter and `:` in their places.
fn is_marked(letter: u8, word: &[u8]) -> bool
    ensures { IsTrue result ↔ ((length word.now ≡ 12) × (slice_index word.now 0 ≡ letter)
        × (slice_index word.now 9 ≡ 58)) }
{
    word.len() == 12 && word[0] == letter && word[9] == b':'
}
