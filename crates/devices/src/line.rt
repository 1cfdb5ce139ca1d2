// The lines of a text of devices after the first.

ghost use Rattle.std.specs.Prelude.{◌≡◌, IfOk};
ghost use Rattle.std.specs.Option.{option_copied, option_map};
ghost use Rattle.text_lines.specs.Lines.{words_in, words_of};
ghost use Rattle.devices.specs.Lines.{Answer, Then};
ghost use Rattle.devices.specs.Text.{line_alone, line_bytes, line_of_words, line_output, line_range};
ghost use Rattle.devices.specs.Invariants.Kept.{shown};

use crate::kept_line::KeptLine;
use std::alloc::{AllocError, Global};
use text_lines::hex::{read_hex_byte, read_hex_word};
use text_lines::split::split_word;

/// The line of devices that a text's line spells.
pub fn read_line(alloc: Global, line: &[u8]) -> Result<Option<KeptLine>, AllocError>
    ensures { IfOk result (λ l. option_map shown l ≡ line_of_words (words_of line.now)) }
{
    let (first, words) = split_word(line);
    if first == b"device".as_slice() {
        return Ok(read_range(words));
    }
    if first == b"registers".as_slice() {
        return Ok(read_alone(KeptLine::Registers, words));
    }
    if first == b"reset".as_slice() {
        return Ok(read_alone(KeptLine::Reset, words));
    }
    if first == b"output".as_slice() {
        return Ok(read_output(words));
    }
    if first == b"answer".as_slice() {
        return read_answer(alloc, words);
    }
    if first == b"then".as_slice() {
        return read_then(alloc, words);
    }
    Ok(None)
}

// The range whose first address and size two words spell.
fn read_range(words: Option<&[u8]>) -> Option<KeptLine>
    ensures { option_map shown result ≡ line_range (words_in (option_copied words.entry)) }
{
    let Some(line) = words else {
        return None;
    };
    let (first, behind) = split_word(line);
    let Some(rest) = behind else {
        return None;
    };
    let (second, others) = split_word(rest);
    if others.is_some() {
        return None;
    }
    let at = read_hex_word(first)?;
    let size = read_hex_word(second)?;
    Some(KeptLine::Range { at, size })
}

// A line that is one word alone.
fn read_alone(line: KeptLine, words: Option<&[u8]>) -> Option<KeptLine>
    ensures { option_map shown result ≡ line_alone (shown line) (words_in (option_copied words.entry)) }
{
    if words.is_some() {
        return None;
    }
    Some(line)
}

// The address that a word spells.
fn read_output(words: Option<&[u8]>) -> Option<KeptLine>
    ensures { option_map shown result ≡ line_output (words_in (option_copied words.entry)) }
{
    let Some(line) = words else {
        return None;
    };
    let (word, others) = split_word(line);
    if others.is_some() {
        return None;
    }
    let at = read_hex_word(word)?;
    Some(KeptLine::Output(at))
}

// The answers that words spell.
fn read_answer(alloc: Global, words: Option<&[u8]>) -> Result<Option<KeptLine>, AllocError>
    ensures { IfOk result (λ l. option_map shown l
        ≡ option_map Answer (line_bytes (words_in (option_copied words.entry)))) }
{
    match read_bytes(alloc, words)? {
        Some(bytes) => Ok(Some(KeptLine::Answer(bytes))),
        None => Ok(None),
    }
}

// The last answers, which come again and again, that words spell.
fn read_then(alloc: Global, words: Option<&[u8]>) -> Result<Option<KeptLine>, AllocError>
    ensures { IfOk result (λ l. option_map shown l
        ≡ option_map Then (line_bytes (words_in (option_copied words.entry)))) }
{
    match read_bytes(alloc, words)? {
        Some(bytes) => Ok(Some(KeptLine::Then(bytes))),
        None => Ok(None),
    }
}

// The bytes that words spell, if each spells one.
fn read_bytes(alloc: Global, words: Option<&[u8]>) -> Result<Option<Vec<u8>>, AllocError>
    ensures { IfOk result (λ bytes. option_map (λ v. v.items) bytes
        ≡ line_bytes (words_in (option_copied words.entry))) }
{
    let mut bytes = Vec::new(alloc);
    let mut rest = words;
    while let Some(line) = rest {
        let (word, behind) = split_word(line);
        let Some(byte) = read_hex_byte(word) else {
            return Ok(None);
        };
        bytes.push(byte)?;
        rest = behind;
    }
    Ok(Some(bytes))
}
