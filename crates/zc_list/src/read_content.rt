// The lines of a segment.

ghost use Rattle.std.specs.Prelude.{◌≡◌, ◌++◌, ◌∷◌, ◌+◌, ◌-◌, ◌==◌, ◌≤◌, ◌&&◌, [], Some, None, List, IfOk, IfSome, if◌then◌else◌, bytes_eq, drop, length, nat_le, not, take};
ghost use Rattle.std.specs.Option.{option_and_then, option_copied, option_map};
ghost use Rattle.elf32_read.specs.Segments.{SegmentData};
ghost use Rattle.instruction_text.specs.Texts.{machine_code_bytes};
ghost use Rattle.text_lines.specs.Hex.{hex_word};
ghost use Rattle.text_lines.specs.Lines.{words_in};
ghost use Rattle.zc_list.specs.Listing.{Instruction, Zeros};
ghost use Rattle.zc_list.specs.Reader.{is_last, has_all_bytes, segment_with, stage_after, state_at};
ghost use Rattle.zc_list.specs.declared.read_content.Stage.TheVariants.{Whole};
ghost use Rattle.zc_list.specs.Spelled.{Inside, after_content, after_line, bytes_of_words, is_cut_short, some_bytes, zeros_of_words};

use crate::digits::address;
use crate::read_head::Head;
use instruction_text::machine_code::MachineCode;
use instruction_text::read::read_code;
use std::alloc::AllocError;
use text_lines::hex::read_hex_byte;
use text_lines::number::read_number;
use text_lines::split::split_word;

/// A segment of which bytes are missing. If `last` is true, they are zeros.
#[derive(Clone, Copy)]
pub struct Open {
    pub head: Head,
    pub last: bool,
}

/// What may follow a line of a segment: more bytes, zeros alone, or no more bytes.
#[derive(Clone, Copy)]
pub enum Stage {
    More,
    Last,
    Whole,
}

impl Stage {
    /// Whether only zeros may follow.
    pub fn is_last(self) -> bool
        ensures { result ≡ is_last self }
    {
        matches!(self, Stage::Last)
    }

    /// Whether no bytes may follow.
    pub fn has_all_bytes(self) -> bool
        ensures { result ≡ has_all_bytes self }
    {
        matches!(self, Stage::Whole)
    }
}

// Adds the bytes of an instruction.
fn push_code_bytes(bytes: &mut Vec<u8>, code: MachineCode) -> Result<(), AllocError>
    ensures { IfOk result (λ _. bytes.new.items ≡ bytes.old.items ++ machine_code_bytes code) }
{
    match code {
        MachineCode::Half(half) => bytes.extend_from_slice(&half.to_le_bytes()),
        MachineCode::Word(word) => bytes.extend_from_slice(&word.to_le_bytes()),
    }
}

// Adds the bytes that words spell, if all of them spell bytes.
fn push_words(bytes: &mut Vec<u8>, words: Option<&[u8]>) -> Result<bool, AllocError>
    ensures { IfOk result (λ all.
        option_map (λ more. bytes.old.items ++ more) (bytes_of_words (words_in (option_copied words.entry)))
        ≡ (if all then Some bytes.new.items else None)) }
{
    let mut rest = words;
    while let Some(line) = rest {
        let (word, behind) = split_word(line);
        let Some(byte) = read_hex_byte(word) else {
            return Ok(false);
        };
        bytes.extend_from_slice(&[byte])?;
        rest = behind;
    }
    Ok(true)
}

// Whether bytes are too short for an instruction.
fn is_cut_short(bytes: &[u8]) -> bool
    ensures { result ≡ is_cut_short bytes.now }
{
    match bytes {
        [] => false,
        [_] => true,
        [first, _] | [first, _, _] => *first % 4 == 3,
        _ => false,
    }
}

// What may follow bytes.
fn stage_after(code: bool, bytes: &[u8]) -> Option<Stage>
    ensures { result ≡ stage_after code bytes.now }
{
    if code {
        if is_cut_short(bytes) {
            Some(Stage::Last)
        } else {
            None
        }
    } else if bytes.len() < 16 {
        Some(Stage::Last)
    } else if bytes.len() == 16 {
        Some(Stage::More)
    } else {
        None
    }
}

// A stage, if a segment has room for its bytes.
fn fits_in_room(head: Head, bytes: &[u8], stage: Stage) -> Option<Stage>
    ensures { result ≡ (if nat_le (length bytes.now) head.size then Some stage else None) }
{
    if bytes.len() <= head.size as usize {
        Some(stage)
    } else {
        None
    }
}

// Whether an instruction may stand in a segment.
fn takes_code(segment: Open) -> bool
    ensures { result ≡ (not segment.last && segment.head.code) }
{
    !segment.last && segment.head.code
}

// Adds an instruction, if it may stand there.
fn add_code(
    segment: Open,
    bytes: &mut Vec<u8>,
    code: MachineCode,
) -> Result<Option<Stage>, AllocError>
    ensures step { IfOk result (λ stage. (done : List SegmentData)
        → after_content done (segment_with segment.head bytes.old.items) segment.last (Instruction code)
        ≡ option_map (state_at done (segment_with segment.head bytes.new.items)) stage) }
    ensures within { IfOk result (λ stage. IfSome stage (λ _. length bytes.new.items ≤ segment.head.size)) }
{
    if !takes_code(segment) {
        return Ok(None);
    }
    push_code_bytes(bytes, code)?;
    Ok(fits_in_room(segment.head, bytes, Stage::More))
}

// Adds the bytes that words spell, if they may stand there.
fn add_bytes(
    segment: Open,
    bytes: &mut Vec<u8>,
    words: Option<&[u8]>,
) -> Result<Option<Stage>, AllocError>
    ensures step { IfOk result (λ stage. (done : List SegmentData)
        → option_and_then (after_content done (segment_with segment.head bytes.old.items) segment.last)
        (some_bytes (words_in (option_copied words.entry)))
        ≡ option_map (state_at done (segment_with segment.head bytes.new.items)) stage) }
    ensures within { IfOk result (λ stage. IfSome stage (λ _. length bytes.new.items ≤ segment.head.size)) }
{
    let Some(line) = words else {
        return Ok(None);
    };
    let start = bytes.len();
    if !push_words(bytes, Some(line))? {
        return Ok(None);
    }
    if segment.last {
        return Ok(None);
    }
    let Some(stage) = stage_after(segment.head.code, &bytes[start..]) else {
        return Ok(None);
    };
    Ok(fits_in_room(segment.head, bytes, stage))
}

// The number that words spell, if it is the only one.
fn read_zeros(words: Option<&[u8]>) -> Option<u32>
    ensures { option_map Zeros result ≡ zeros_of_words (words_in (option_copied words.entry)) }
{
    let (word, rest) = split_word(words?);
    if let Some(_) = rest {
        return None;
    }
    let number = read_number(word, 0xFFFF_FFFF)?;
    Some(number as u32)
}

// What a line has after an address and a space.
fn behind_address(line: &[u8], at: u64) -> Option<&[u8]>
    ensures { option_copied result
        ≡ (if bytes_eq (take 9 line.now) (hex_word at ++ 32 ∷ []) then Some (drop 9 line.now) else None) }
{
    line.strip_prefix(address(at).as_slice())
}

/// Reads a line of a segment, and adds its bytes. What `scratch` holds is lost.
pub fn read_content(
    scratch: &mut Vec<u8>,
    bytes: &mut Vec<u8>,
    segment: Open,
    line: &[u8],
) -> Result<Option<Stage>, AllocError>
    requires { length bytes.old.items ≤ segment.head.size }
    ensures step { IfOk result (λ stage. (done : List SegmentData)
        → after_line (Inside done (segment_with segment.head bytes.old.items) segment.last) line.now
        ≡ option_map (state_at done (segment_with segment.head bytes.new.items)) stage) }
    ensures within { IfOk result (λ stage. IfSome stage (λ _. length bytes.new.items ≤ segment.head.size)) }
{
    let Some(text) = behind_address(line, u64::from(segment.head.at) + bytes.len() as u64) else {
        return Ok(None);
    };
    let (first, rest) = split_word(text);
    if first == b".byte".as_slice() {
        return add_bytes(segment, bytes, rest);
    }
    if first == b".zero".as_slice() {
        let Some(count) = read_zeros(rest) else {
            return Ok(None);
        };
        return Ok(zeros_stage(segment.head, bytes, count));
    }
    let Some(code) = read_code(scratch, text)? else {
        return Ok(None);
    };
    add_code(segment, bytes, code)
}

// The end of a segment, if this number of bytes is missing.
fn zeros_stage(head: Head, bytes: &[u8], count: u32) -> Option<Stage>
    requires { length bytes.now ≤ head.size }
    ensures { result ≡ (if count == head.size - length bytes.now then Some Whole else None) }
{
    if count == head.size - bytes.len() as u32 {
        Some(Stage::Whole)
    } else {
        None
    }
}
