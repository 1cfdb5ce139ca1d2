// Hexadecimal digits.

ghost use Rattle.std.specs.Prelude.{◌≡◌, ◌++◌, ◌∷◌, [], ◌<◌};
ghost use Rattle.text_lines.specs.Hex.{hex_at, hex_word};

/// The hexadecimal digit of the four bits from bit `shift` up.
pub fn hex_digit(number: u64, shift: u32) -> u8
    requires { shift < 32 }
    ensures { result ≡ hex_at number shift }
{
    let digit = ((number >> shift) % 16) as u8;
    if digit < 10 {
        b'0' + digit
    } else {
        b'a' - 10 + digit
    }
}

/// What a line begins with: the low 32 bits of its address as eight hexadecimal digits, and a space.
pub fn address(at: u64) -> [u8; 9]
    ensures { result ≡ hex_word at ++ 32 ∷ [] }
{
    [
        hex_digit(at, 28),
        hex_digit(at, 24),
        hex_digit(at, 20),
        hex_digit(at, 16),
        hex_digit(at, 12),
        hex_digit(at, 8),
        hex_digit(at, 4),
        hex_digit(at, 0),
        b' ',
    ]
}
