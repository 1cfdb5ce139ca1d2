// Instructions of the system: the words of Zicsr, on any control and status register but jvt, and `wfi`.

ghost use Rattle.std.specs.Prelude.{◌≡◌};
ghost use Rattle.rv_decode.specs.System.{is_system, system_width, takes_register};

use crate::bits::field_at;

// The number of the table base register jvt, which the table of words has.
const JVT: u32 = 0x017;

// The word of `wfi`.
const WFI: u32 = 0x1050_0073;

/// Whether a word is one of the six instructions of Zicsr, on a register other than jvt, or `wfi`.
pub fn is_system(word: u32) -> bool
    ensures { result ≡ is_system word }
{
    let is_access = field_at(word, 12, 3) % 4 != 0 && field_at(word, 20, 12) != JVT;
    field_at(word, 0, 7) == 0b111_0011 && (is_access || word == WFI)
}

/// Whether its operand is what the register in bits 19 to 15 holds, and not these five bits themselves.
pub fn takes_register(word: u32) -> bool
    ensures { result ≡ takes_register word }
{
    field_at(word, 12, 3) < 4
}

/// How many bytes are answered to it.
pub fn system_width(word: u32) -> u32
    ensures { result ≡ system_width word }
{
    if field_at(word, 7, 5) == 0 { 0 } else { 4 }
}
