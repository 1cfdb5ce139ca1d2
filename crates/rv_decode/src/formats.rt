// The fields of words that are made of several bit fields.

ghost use Rattle.std.specs.Prelude.{◌≡◌};
ghost use Rattle.rv_decode.specs.Decode.{funct_of};
ghost use Rattle.rv_decode.specs.Formats.{imm_b_of, imm_i_of, imm_j_of, imm_s_of};

use crate::bits::{field_at, signed_of};

/// funct7 and funct3, as one number of ten bits.
pub fn funct(word: u32) -> u32
    ensures { result ≡ funct_of word }
{
    field_at(word, 25, 7) << 3 | field_at(word, 12, 3)
}

/// The immediate of the I format.
pub fn imm_i(word: u32) -> i32
    ensures { result ≡ imm_i_of word }
{
    signed_of(12, field_at(word, 20, 12))
}

/// The immediate of the S format.
pub fn imm_s(word: u32) -> i32
    ensures { result ≡ imm_s_of word }
{
    signed_of(12, field_at(word, 25, 7) << 5 | field_at(word, 7, 5))
}

/// The immediate of the B format.
pub fn imm_b(word: u32) -> i32
    ensures { result ≡ imm_b_of word }
{
    let low = field_at(word, 25, 6) << 5 | field_at(word, 8, 4) << 1;
    let bits = field_at(word, 31, 1) << 12 | (field_at(word, 7, 1) << 11 | low);
    signed_of(13, bits)
}

/// The immediate of the J format.
pub fn imm_j(word: u32) -> i32
    ensures { result ≡ imm_j_of word }
{
    let low = field_at(word, 20, 1) << 11 | field_at(word, 21, 10) << 1;
    let bits = field_at(word, 31, 1) << 20 | (field_at(word, 12, 8) << 12 | low);
    signed_of(21, bits)
}
