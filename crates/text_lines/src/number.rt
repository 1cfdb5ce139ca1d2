// Decimal numbers.

ghost use Rattle.std.specs.Prelude.{◌≡◌, ◌^◌, ◌<◌, ◌≤◌, ◌↔◌, IfSome, IsTrue, SomeIff, decimal, length, slice_index};
ghost use Rattle.std.specs.Str.Parse.{AllDigits, digits_value};
ghost use Rattle.text_lines.specs.Number.{decimal_of};

/// The decimal number that a word without leading zeros spells, if it isn't above a limit.
pub fn read_number(word: &[u8], limit: u64) -> Option<u64>
    ensures value { result ≡ decimal_of limit word.now }
    ensures below { IfSome result (λ n. n ≤ limit) }
    ensures spells { IfSome result (λ n. word.now ≡ decimal n) }
{
    if has_leading_zero(word) {
        return None;
    }
    let value = digits_number(word)?;
    if value <= limit { Some(value) } else { None }
}

// Whether the first digit is a zero, and there are others.
fn has_leading_zero(word: &[u8]) -> bool
    ensures { IsTrue result ↔ ((slice_index word.now 0 ≡ 48) × (1 < length word.now)) }
{
    match word {
        [b'0', _, ..] => true,
        _ => false,
    }
}

// The value of decimal digits, if it fits 64 bits; leading zeros are allowed.
fn digits_number(digits: &[u8]) -> Option<u64>
    ensures { SomeIff result ((0 < length digits.now) × AllDigits 10 digits.now
        × (digits_value 10 digits.now < 2 ^ 64)) (digits_value 10 digits.now) }
{
    if digits.is_empty() {
        return None;
    }
    let mut value: u64 = 0;
    for byte in digits {
        let digit = char::from(*byte).to_digit(10)?;
        value = value.checked_mul(10)?.checked_add(u64::from(digit))?;
    }
    Some(value)
}
