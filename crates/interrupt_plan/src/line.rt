// The lines of a text after the first: one for each interrupt.

ghost use Rattle.std.specs.Prelude.{◌≡◌, ◌∷◌, [], IfOk};
ghost use Rattle.std.specs.Option.{option_copied};
ghost use Rattle.interrupt_plan.specs.Text.{access_of, entry_of_parts, entry_of_words, leading, written_of};
ghost use Rattle.text_lines.specs.Lines.{words_in, words_of};

use crate::shared_plan::SharedCut;
use crate::word::{read_access, read_byte};
use std::alloc::{AllocError, Global};
use text_lines::number::read_number;
use text_lines::split::split_word;

/// The interrupt that a line spells, with its cells.
pub fn read_cut(alloc: Global, line: &[u8]) -> Result<Option<SharedCut>, AllocError>
    ensures { IfOk result (λ cut. cut ≡ entry_of_words (words_of line.now)) }
{
    let (first, behind) = split_word(line);
    let Some(rest) = behind else {
        return Ok(None);
    };
    if first != b"cut".as_slice() {
        return Ok(None);
    }
    let (number, words) = split_word(rest);
    match read_number(number, u64::MAX) {
        Some(at) => read_parts(alloc, at, words),
        None => Ok(None),
    }
}

// The interrupt that the words after its number spell: its accesses, its bytes, and then its cells.
fn read_parts(alloc: Global, at: u64, words: Option<&[u8]>) -> Result<Option<SharedCut>, AllocError>
    ensures { IfOk result (λ cut. cut ≡ entry_of_parts at (words_in (option_copied words.entry))) }
{
    let (done, behind_done) = read_accesses(alloc, words)?;
    let (dirt, behind_dirt) = read_bytes(alloc, b'd', behind_done)?;
    let (cells, left) = read_bytes(alloc, b's', behind_dirt)?;
    if left.is_some() {
        return Ok(None);
    }
    Ok(Some(SharedCut {
        at,
        done,
        dirt,
        cells,
    }))
}

// The accesses that a list of words begins with, and the words after them.
fn read_accesses(
    alloc: Global,
    words: Option<&[u8]>,
) -> Result<(Vec<u8>, Option<&[u8]>), AllocError>
    ensures { IfOk result (λ r. leading access_of (words_in (option_copied words.entry))
        ≡ (r.0.items, words_in (option_copied r.1))) }
{
    let mut done = Vec::new(alloc);
    let mut rest = words;
    while let Some(line) = rest {
        let (word, behind) = split_word(line);
        let Some(access) = read_access(word) else {
            break;
        };
        done.push(access)?;
        rest = behind;
    }
    Ok((done, rest))
}

// The bytes with their addresses that a list of words begins with, each after this letter, and the words after them.
fn read_bytes(
    alloc: Global,
    letter: u8,
    words: Option<&[u8]>,
) -> Result<(Vec<(u32, u8)>, Option<&[u8]>), AllocError>
    ensures { IfOk result (λ r. leading (written_of (letter ∷ [])) (words_in (option_copied words.entry))
        ≡ (r.0.items, words_in (option_copied r.1))) }
{
    let mut bytes = Vec::new(alloc);
    let mut rest = words;
    while let Some(line) = rest {
        let (word, behind) = split_word(line);
        let Some(byte) = read_byte(letter, word) else {
            break;
        };
        bytes.push(byte)?;
        rest = behind;
    }
    Ok((bytes, rest))
}
