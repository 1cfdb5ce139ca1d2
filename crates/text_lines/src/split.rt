// The lines of a text, and the words of a line.

ghost use Rattle.std.specs.Prelude.{◌≡◌, ◌==◌, ◌<◌, ◌++◌, ◌∷◌, [], IfSome, IfNone, length};
ghost use Rattle.std.specs.List.{position, slice_split};
ghost use Rattle.std.specs.Option.{option_copied};
ghost use Rattle.text_lines.specs.Lines.{lines_of, words_in, words_of};

// The index of the first byte with this value.
fn place_of(text: &[u8], byte: u8) -> Option<usize>
    ensures { result ≡ position (λ b. b == byte) text.now }
{
    text.iter().position(|b| *b == byte)
}

// What comes before the first byte with this value, and what comes after it.
fn split_at_byte(text: &[u8], byte: u8) -> Option<(&[u8], &[u8])>
    ensures parts { IfSome result (λ r. slice_split (λ b. b == byte) text.now
        ≡ r.0.now ∷ slice_split (λ b. b == byte) r.1.now) }
    ensures whole { IfSome result (λ r. text.now ≡ r.0.now ++ byte ∷ r.1.now) }
    ensures none { IfNone result (slice_split (λ b. b == byte) text.now ≡ text.now ∷ []) }
{
    let place = place_of(text, byte)?;
    Some((&text[..place], &text[place + 1..]))
}

/// The first line of a text, and what follows its line feed.
pub fn split_line(text: &[u8]) -> Option<(&[u8], &[u8])>
    ensures lines { IfSome result (λ r. lines_of text.now ≡ r.0.now ∷ lines_of r.1.now) }
    ensures whole { IfSome result (λ r. text.now ≡ r.0.now ++ 10 ∷ r.1.now) }
    ensures none { IfNone result (lines_of text.now ≡ text.now ∷ []) }
{
    split_at_byte(text, b'\n')
}

/// The first word of a line, and what follows its space, if there is one.
pub fn split_word(line: &[u8]) -> (&[u8], Option<&[u8]>)
    ensures words { words_of line.now ≡ result.0.now ∷ words_in (option_copied result.1) }
    ensures shorter { IfSome result.1 (λ rest. length rest.now < length line.now) }
{
    match split_at_byte(line, b' ') {
        Some((word, rest)) => (word, Some(rest)),
        None => (line, None),
    }
}
