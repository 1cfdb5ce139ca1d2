// Hexadecimal numbers of a fixed length, in lower case.

ghost use Rattle.std.specs.Prelude.{◌≡◌, ◌≢◌, ℕ, ◌<◌, IfSome, IfNone};
ghost use Rattle.text_lines.specs.Hex.{hex_byte, hex_digit, hex_word};
ghost use Rattle.text_lines.specs.Number.{hex_byte_of, hex_word_of};

/// The 32-bit number that a word of eight digits spells.
pub fn read_hex_word(word: &[u8]) -> Option<u32>
    ensures value { result ≡ hex_word_of word.now }
    ensures spells { IfSome result (λ n. word.now ≡ hex_word n) }
{
    if word.len() != 8 {
        return None;
    }
    let first = read_hex_byte(&word[..2])?;
    let second = read_hex_byte(&word[2..4])?;
    let third = read_hex_byte(&word[4..6])?;
    let fourth = read_hex_byte(&word[6..])?;
    Some(u32::from_be_bytes([first, second, third, fourth]))
}

/// The byte that a word of two digits spells.
pub fn read_hex_byte(word: &[u8]) -> Option<u8>
    ensures value { result ≡ hex_byte_of word.now }
    ensures spells { IfSome result (λ n. word.now ≡ hex_byte n) }
{
    let [high, low] = word else {
        return None;
    };
    Some(16 * digit_value(*high)? + digit_value(*low)?)
}

// The value of a digit.
fn digit_value(byte: u8) -> Option<u8>
    ensures spells { IfSome result (λ d. byte ≡ hex_digit d) }
    ensures below { IfSome result (λ d. d < 16) }
    ensures none { IfNone result ((d : ℕ) → d < 16 → byte ≢ hex_digit d) }
{
    match byte {
        b'0'..=b'9' => Some(byte - b'0'),
        b'a'..=b'f' => Some(byte - b'a' + 10),
        _ => None,
    }
}
