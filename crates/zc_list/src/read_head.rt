// The first lines of segments.

ghost use Rattle.std.specs.Prelude.{◌≡◌, ◌≢◌, ◌∷◌, [], IfSome, IfNone, length};
ghost use Rattle.std.specs.Option.{option_map};
ghost use Rattle.text_lines.specs.Lines.{words_of};
ghost use Rattle.zc_list.specs.Reader.{segment_with};
ghost use Rattle.zc_list.specs.Spelled.{kind_of_word, segment_of_words};

use text_lines::hex::read_hex_word;
use text_lines::number::read_number;
use text_lines::split::split_word;

/// What the first line of a segment says of it.
#[derive(Clone, Copy)]
pub struct Head {
    pub at: u32,
    pub size: u32,
    pub code: bool,
}

/// The segment that a line is the first of.
pub fn read_head(line: &[u8]) -> Option<Head>
    ensures { option_map (λ head. segment_with head []) result ≡ segment_of_words (words_of line.now) }
{
    let (first, at, size, kind) = four_words(line)?;
    if first != b"segment".as_slice() {
        return None;
    }
    let at = read_hex_word(at)?;
    let size = read_number(size, 0xFFFF_FFFF)?;
    let code = read_kind(kind)?;
    Some(Head {
        at,
        size: size as u32,
        code,
    })
}

// The words of a line, if there are four.
#[tactic(auto, using(crate::proofs::ReadLaws::some_words))]
fn four_words(line: &[u8]) -> Option<(&[u8], &[u8], &[u8], &[u8])>
    ensures words { IfSome result (λ w. words_of line.now ≡ w.0.now ∷ (w.1.now ∷ (w.2.now ∷ (w.3.now ∷ [])))) }
    ensures none { IfNone result (length (words_of line.now) ≢ 4) }
{
    let (first, behind) = split_word(line);
    let (second, behind) = split_word(behind?);
    let (third, behind) = split_word(behind?);
    let (fourth, behind) = split_word(behind?);
    match behind {
        None => Some((first, second, third, fourth)),
        Some(_) => None,
    }
}

// Whether a word says that a segment is code.
fn read_kind(word: &[u8]) -> Option<bool>
    ensures { result ≡ kind_of_word word.now }
{
    if word == b"code".as_slice() {
        return Some(true);
    }
    if word == b"data".as_slice() {
        return Some(false);
    }
    None
}
