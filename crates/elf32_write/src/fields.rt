// Fields and padding at the end of bytes (System V gABI, "Data Representation", ELFDATA2LSB).

ghost use Rattle.std.specs.Prelude.{◌≡◌, ◌^◌, ◌<◌, ◌++◌, OnOk};
ghost use Rattle.std.specs.List.{flat_map};
ghost use Rattle.zc_base.specs.Fields.{half_bytes, word_bytes};
ghost use Rattle.elf32_write.specs.Image.{pad, padded, padded_length};

use std::alloc::AllocError;
use zc_base::fields::{put_u16, put_u32};

/// Appends a half.
#[tactic(auto, unfolding(zc_base::specs::Fields::with_half))]
pub fn push_half(out: &mut Vec<u8>, half: u16) -> Result<(), AllocError>
    ensures { OnOk result (out.new.items ≡ out.old.items ++ half_bytes half) }
{
    let mut bytes = [0; 2];
    put_u16(&mut bytes, 0, half);
    out.extend_from_slice(&bytes)
}

/// Appends a word.
#[tactic(auto, unfolding(zc_base::specs::Fields::with_word))]
pub fn push_word(out: &mut Vec<u8>, word: u32) -> Result<(), AllocError>
    ensures { OnOk result (out.new.items ≡ out.old.items ++ word_bytes word) }
{
    let mut bytes = [0; 4];
    put_u32(&mut bytes, 0, word);
    out.extend_from_slice(&bytes)
}

/// Appends halves, in order.
pub fn push_halves(out: &mut Vec<u8>, halves: &[u16]) -> Result<(), AllocError>
    ensures { OnOk result (out.new.items ≡ out.old.items ++ flat_map half_bytes halves.now) }
{
    for half in halves {
        push_half(out, *half)?;
    }
    Ok(())
}

/// Appends words, in order.
pub fn push_words(out: &mut Vec<u8>, words: &[u32]) -> Result<(), AllocError>
    ensures { OnOk result (out.new.items ≡ out.old.items ++ flat_map word_bytes words.now) }
{
    for word in words {
        push_word(out, *word)?;
    }
    Ok(())
}

// The number of zeros that make a length a multiple of 4.
fn pad(n: usize) -> usize
    ensures { result ≡ pad n }
{
    (4 - n % 4) % 4
}

/// The least multiple of 4 that is no less.
pub fn padded_len(n: usize) -> usize
    requires { n < 2 ^ 63 }
    ensures { result ≡ padded_length n }
{
    n + pad(n)
}

/// Appends bytes, and zeros up to a multiple of 4.
pub fn push_padded(out: &mut Vec<u8>, bytes: &[u8]) -> Result<(), AllocError>
    ensures { OnOk result (out.new.items ≡ out.old.items ++ padded bytes.now) }
{
    out.extend_from_slice(bytes)?;
    let zeros = [0; 3];
    out.extend_from_slice(&zeros[..pad(bytes.len())])
}
