// Immediates that are put into words of code.

ghost use Rattle.std.specs.Prelude.{◌≡◌, ◌<◌, ◌^◌, ◌||◌, true, None, Some, slice_index, ℕ, ℤ};
ghost use Rattle.psabi_reloc.specs.Kinds.{fits, is_auipc, is_lui, is_store, is_sum};
ghost use Rattle.psabi_reloc.specs.declared.kind.RelocKind.TheVariants.{Branch as BranchKind, Jal as JalKind};
ghost use Rattle.psabi_reloc.specs.Parts.{hi20_of, lo12_of};
ghost use Rattle.psabi_reloc.specs.Patched.{with_distance, with_imm, with_upper};
ghost use Rattle.psabi_reloc.specs.Reaches.{branch_reach, jal_reach};
ghost use Rattle.rv_decode.specs.Bits.{as_word, field};
ghost use Rattle.rv_decode.specs.Decode.{decoded};
ghost use Rattle.rv_decode.specs.Formats.{imm_b_of, imm_i_of, imm_j_of, imm_s_of, imm_u_of};
ghost use Rattle.rv_decode.specs.declared.instr.Instr.{Instr};
ghost use Rattle.rv_decode.specs.declared.instr.Instr.TheVariants.{Upper, Jalr};
ghost use Rattle.rv_decode.specs.declared.instr.UpperOp.TheVariants.{Auipc};

use crate::parts::hi20;
use rv_decode::bits::field_at;

/// The word with the upper part of an address in place of its upper immediate.
pub fn put_hi20(word: u32, x: u32) -> u32
    ensures part { imm_u_of result ≡ hi20_of x }
    ensures rest { field result 0 12 ≡ field word 0 12 }
    ensures decodes { (i : Instr) → decoded word ≡ Some i → (is_lui (Some i) || is_auipc (Some i)) ≡ true
        → decoded result ≡ Some (with_upper i (hi20_of x)) }
{
    with_upper_twenty(word, hi20(x))
}

/// The word with the lower part of an address in place of the immediate of `addi`, a load or `jalr`.
pub fn put_lo12_i(word: u32, x: u32) -> u32
    ensures part { imm_i_of result ≡ lo12_of x }
    ensures rest { field result 0 20 ≡ field word 0 20 }
    ensures decodes { (i : Instr) → decoded word ≡ Some i → is_sum (Some i) ≡ true
        → decoded result ≡ Some (with_imm i (lo12_of x)) }
{
    with_upper_twelve(word, field_at(x, 0, 12))
}

/// The word with the lower part of an address in place of the immediate of a store.
pub fn put_lo12_s(word: u32, x: u32) -> u32
    ensures part { imm_s_of result ≡ lo12_of x }
    ensures opcode { field result 0 7 ≡ field word 0 7 }
    ensures middle { field result 12 13 ≡ field word 12 13 }
    ensures decodes { (i : Instr) → decoded word ≡ Some i → is_store (Some i) ≡ true
        → decoded result ≡ Some (with_imm i (lo12_of x)) }
{
    with_seven_and_five(word, field_at(x, 5, 7), field_at(x, 0, 5))
}

/// The word with a distance that a branch reaches, in place of the distance of a branch.
pub fn put_branch(word: u32, distance: i32) -> u32
    requires { branch_reach distance ≡ true }
    ensures part { imm_b_of result ≡ distance }
    ensures opcode { field result 0 7 ≡ field word 0 7 }
    ensures middle { field result 12 13 ≡ field word 12 13 }
    ensures decodes { (i : Instr) → decoded word ≡ Some i → fits BranchKind (Some i) None ≡ true
        → decoded result ≡ Some (with_distance i distance) }
{
    let x = distance.cast_unsigned();
    let seven = field_at(x, 12, 1) << 6 | field_at(x, 5, 6);
    let five = field_at(x, 1, 4) << 1 | field_at(x, 11, 1);
    with_seven_and_five(word, seven, five)
}

/// The word with a distance that `jal` reaches, in place of the distance of a `jal`.
pub fn put_jal(word: u32, distance: i32) -> u32
    requires { jal_reach distance ≡ true }
    ensures part { imm_j_of result ≡ distance }
    ensures rest { field result 0 12 ≡ field word 0 12 }
    ensures decodes { (i : Instr) → decoded word ≡ Some i → fits JalKind (Some i) None ≡ true
        → decoded result ≡ Some (with_distance i distance) }
{
    let x = distance.cast_unsigned();
    let ten = field_at(x, 1, 10) << 9 | (field_at(x, 11, 1) << 8 | field_at(x, 12, 8));
    with_upper_twenty(word, field_at(x, 20, 1) << 19 | ten)
}

/// The `auipc` and `jalr` of a call with this distance.
pub fn put_call(words: [u32; 2], distance: i32) -> [u32; 2]
    ensures upper_part { imm_u_of (slice_index result 0) ≡ hi20_of (as_word distance) }
    ensures upper_rest { field (slice_index result 0) 0 12 ≡ field (slice_index words 0) 0 12 }
    ensures upper { (temp imm : ℕ) → decoded (slice_index words 0) ≡ Some (Upper Auipc temp imm)
        → decoded (slice_index result 0) ≡ Some (Upper Auipc temp (hi20_of (as_word distance))) }
    ensures lower_part { imm_i_of (slice_index result 1) ≡ lo12_of (as_word distance) }
    ensures lower_rest { field (slice_index result 1) 0 20 ≡ field (slice_index words 1) 0 20 }
    ensures lower { (rd temp : ℕ) (imm : ℤ) → decoded (slice_index words 1) ≡ Some (Jalr rd temp imm)
        → decoded (slice_index result 1) ≡ Some (Jalr rd temp (lo12_of (as_word distance))) }
{
    let [upper, lower] = words;
    let x = distance.cast_unsigned();
    [put_hi20(upper, x), put_lo12_i(lower, x)]
}

// The word with these upper bits: the immediate of the U format.
fn with_upper_twenty(word: u32, twenty: u32) -> u32
    requires { twenty < 2 ^ 20 }
    ensures part { field result 12 20 ≡ twenty }
    ensures rest { field result 0 12 ≡ field word 0 12 }
{
    twenty << 12 | field_at(word, 0, 12)
}

// The word with these upper bits: the immediate of the I format.
fn with_upper_twelve(word: u32, twelve: u32) -> u32
    requires { twelve < 2 ^ 12 }
    ensures part { field result 20 12 ≡ twelve }
    ensures rest { field result 0 20 ≡ field word 0 20 }
{
    twelve << 20 | field_at(word, 0, 20)
}

// The word with these upper bits, and these above the opcode: the immediate of the S format.
fn with_seven_and_five(word: u32, seven: u32, five: u32) -> u32
    requires seven { seven < 2 ^ 7 }
    requires five { five < 2 ^ 5 }
    ensures seven { field result 25 7 ≡ seven }
    ensures five { field result 7 5 ≡ five }
    ensures opcode { field result 0 7 ≡ field word 0 7 }
    ensures middle { field result 12 13 ≡ field word 12 13 }
{
    seven << 25 | (field_at(word, 12, 13) << 12 | (five << 7 | field_at(word, 0, 7)))
}
