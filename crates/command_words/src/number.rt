// Numbers among the words.

ghost use Rattle.std.specs.Prelude.{◌≡◌, ◌≤◌, IfSome};
ghost use Rattle.std.specs.Char.{is_ascii_digit};
ghost use Rattle.std.specs.List.{list_all};
ghost use Rattle.command_words.specs.Number.{is_number as spells_number, number_up_to};

/// The most digits of a number.
pub const MOST_DIGITS: usize = 20;

/// The number that a word is, if it is at most `most`. Leading zeros count as digits.
pub fn number_in(word: &str, most: u64) -> Option<u64>
    ensures value { result ≡ number_up_to most word.now }
    ensures below { IfSome result (λ number. number ≤ most) }
{
    if !is_number(word) {
        return None;
    }
    match word.parse::<u64>() {
        Ok(number) if number <= most => Some(number),
        _ => None,
    }
}

// Whether a word is a number: decimal digits, at least one and at most MOST_DIGITS.
fn is_number(word: &str) -> bool
    ensures { result ≡ spells_number word.now }
{
    1 <= word.len() && word.len() <= MOST_DIGITS && are_digits(word.as_bytes())
}

fn are_digits(bytes: &[u8]) -> bool
    ensures { result ≡ list_all is_ascii_digit bytes.now }
{
    bytes.iter().all(|c| c.is_ascii_digit())
}
