// Words as registers hold them.

ghost use Rattle.std.specs.Prelude.{◌≡◌};
ghost use Rattle.sym_machine.specs.Kept.{word_of};
ghost use Rattle.sym_machine.specs.Words.{byte_word, code_of, half_word, is_value, number_of, number_word, sign_of, value_word};
ghost use Rattle.sym_machine.specs.declared.word.SymByte.TheVariants.{Num};

use crate::word::{SymByte, SymWord, Value};
use zc_base::place::Place;

/// A word as a register holds it. Most words are numbers, which this form tells without a look at
/// four bytes. A word of bytes may be a number or a code address too.
#[derive(Clone, Copy)]
pub enum Held {
    Number(u32),
    Code(Place),
    Bytes(SymWord),
}

impl Held {
    /// A word whose bytes are undefined.
    pub const UNDEFINED: Held = Held::Bytes(SymWord::UNDEFINED);

    /// The word of four bytes, the lowest first. It takes the form that tells most.
    #[inline(always)]
    pub fn of_bytes(bytes: SymWord) -> Held
        ensures { word_of result ≡ bytes }
    {
        match bytes.b0 {
            SymByte::Undef => Held::Bytes(bytes),
            SymByte::Num(_) | SymByte::Part(_, _) => Held::of_known(bytes),
        }
    }

    // The word of four bytes of which the lowest isn't undefined.
    fn of_known(bytes: SymWord) -> Held
        ensures { word_of result ≡ bytes }
    {
        match (bytes.b0, bytes.b1, bytes.b2, bytes.b3) {
            (SymByte::Num(a), SymByte::Num(b), SymByte::Num(c), SymByte::Num(d)) => {
                Held::Number(u32::from_le_bytes([a, b, c, d]))
            }
            _ => match bytes.code() {
                Some(q) => Held::Code(q),
                None => Held::Bytes(bytes),
            },
        }
    }

    /// A value's word.
    pub fn of_value(value: Value) -> Held
        ensures { word_of result ≡ value_word value }
    {
        Held::Bytes(SymWord {
            b0: SymByte::Part(value, 0),
            b1: SymByte::Part(value, 1),
            b2: SymByte::Part(value, 2),
            b3: SymByte::Part(value, 3),
        })
    }

    /// The word of a byte with its sign above.
    pub fn of_signed_byte(byte: SymByte) -> Held
        ensures { word_of result ≡ byte_word byte (sign_of byte) }
    {
        let sign = byte.sign();
        Held::of_bytes(SymWord {
            b0: byte,
            b1: sign,
            b2: sign,
            b3: sign,
        })
    }

    /// The word of two bytes with their sign above.
    pub fn of_signed_half(low: SymByte, high: SymByte) -> Held
        ensures { word_of result ≡ half_word low high (sign_of high) }
    {
        let sign = high.sign();
        Held::of_bytes(SymWord {
            b0: low,
            b1: high,
            b2: sign,
            b3: sign,
        })
    }

    /// The word of a byte with zeros above.
    pub fn of_byte(byte: SymByte) -> Held
        ensures { word_of result ≡ byte_word byte (Num 0) }
    {
        Held::of_bytes(SymWord {
            b0: byte,
            b1: SymByte::Num(0),
            b2: SymByte::Num(0),
            b3: SymByte::Num(0),
        })
    }

    /// The word of two bytes with zeros above.
    pub fn of_half(low: SymByte, high: SymByte) -> Held
        ensures { word_of result ≡ half_word low high (Num 0) }
    {
        Held::of_bytes(SymWord {
            b0: low,
            b1: high,
            b2: SymByte::Num(0),
            b3: SymByte::Num(0),
        })
    }

    /// Becomes a number. If it is one already, only the number is written and not the whole word.
    #[inline(always)]
    pub fn set_number(&mut self, n: u32)
        ensures { self.new ≡ Held.Number n }
    {
        match self {
            Held::Number(old) => *old = n,
            Held::Code(_) | Held::Bytes(_) => *self = Held::Number(n),
        }
    }

    /// Becomes a place's address. If it is one already, only the place is written and not the whole word.
    #[inline(always)]
    pub fn set_code(&mut self, q: Place)
        ensures { self.new ≡ Held.Code q }
    {
        match self {
            Held::Code(old) => *old = q,
            Held::Number(_) | Held::Bytes(_) => *self = Held::Code(q),
        }
    }

    /// The number that the word is, if it is one.
    pub fn number(&self) -> Option<u32>
        ensures { result ≡ number_of (word_of self.now) }
    {
        match self {
            Held::Number(n) => Some(*n),
            Held::Code(_) => None,
            Held::Bytes(bytes) => bytes.number(),
        }
    }

    /// The place whose address the word is, if it is one.
    pub fn code(&self) -> Option<Place>
        ensures { result ≡ code_of (word_of self.now) }
    {
        match self {
            Held::Number(_) => None,
            Held::Code(q) => Some(*q),
            Held::Bytes(bytes) => bytes.code(),
        }
    }

    /// Whether the word is a value.
    pub fn is_value(&self, value: Value) -> bool
        ensures { result ≡ is_value value (word_of self.now) }
    {
        self.bytes().is_value(value)
    }

    /// The word's bytes.
    pub fn bytes(&self) -> SymWord
        ensures { result ≡ word_of self.now }
    {
        match self {
            Held::Number(n) => {
                let bytes = n.to_le_bytes();
                SymWord {
                    b0: SymByte::Num(bytes[0]),
                    b1: SymByte::Num(bytes[1]),
                    b2: SymByte::Num(bytes[2]),
                    b3: SymByte::Num(bytes[3]),
                }
            }
            Held::Code(q) => {
                let value = Value::Code(*q);
                SymWord {
                    b0: SymByte::Part(value, 0),
                    b1: SymByte::Part(value, 1),
                    b2: SymByte::Part(value, 2),
                    b3: SymByte::Part(value, 3),
                }
            }
            Held::Bytes(bytes) => *bytes,
        }
    }
}

// The byte above a number with a sign.
fn sign(byte: u8) -> u8
    ensures { Num result ≡ sign_of (Num byte) }
{
    if byte < 128 { 0 } else { 255 }
}

/// The number of a byte with its sign above.
pub fn signed_byte(byte: u8) -> u32
    ensures { number_word result ≡ byte_word (Num byte) (sign_of (Num byte)) }
{
    let above = sign(byte);
    u32::from_le_bytes([byte, above, above, above])
}

/// The number of two bytes with their sign above.
pub fn signed_half(low: u8, high: u8) -> u32
    ensures { number_word result ≡ half_word (Num low) (Num high) (sign_of (Num high)) }
{
    let above = sign(high);
    u32::from_le_bytes([low, high, above, above])
}

/// The number of a byte with zeros above.
pub fn zero_byte(byte: u8) -> u32
    ensures { number_word result ≡ byte_word (Num byte) (Num 0) }
{
    u32::from_le_bytes([byte, 0, 0, 0])
}

/// The number of two bytes with zeros above.
pub fn zero_half(low: u8, high: u8) -> u32
    ensures { number_word result ≡ half_word (Num low) (Num high) (Num 0) }
{
    u32::from_le_bytes([low, high, 0, 0])
}
