// Words whose bytes may depend on where code will lie.

ghost use Rattle.std.specs.Prelude.{◌≡◌};
ghost use Rattle.sym_machine.specs.Words.{code_of, is_part, is_value, number_of, same_value, sign_of};
ghost use Rattle.zc_base.specs.Places as places;

use zc_base::place::Place;

/// A number that depends on where code will lie: the address of a place, the upper part of that
/// address as `lui` gives it, or what the `auipc` at a place gives.
#[derive(Clone, Copy)]
pub enum Value {
    Code(Place),
    AbsHi(Place),
    PcHi(Place),
}

/// An abstract byte: a number, one of the four bytes of a value, the lowest first, or undefined.
#[derive(Clone, Copy)]
pub enum SymByte {
    Num(u8),
    Part(Value, u8),
    Undef,
}

impl SymByte {
    /// The byte that fills the bytes above this one, if this one has a sign.
    pub fn sign(self) -> SymByte
        ensures { result ≡ sign_of self }
    {
        match self {
            SymByte::Num(byte) if byte < 128 => SymByte::Num(0),
            SymByte::Num(_) => SymByte::Num(255),
            SymByte::Part(_, _) | SymByte::Undef => SymByte::Undef,
        }
    }

    /// Whether the byte is this part of a value.
    pub fn is_part(&self, value: Value, i: u8) -> bool
        ensures { result ≡ is_part value i self.now }
    {
        match self {
            SymByte::Part(other, j) => same_value(value, *other) && i == *j,
            SymByte::Num(_) | SymByte::Undef => false,
        }
    }
}

/// A word of four abstract bytes, the lowest first.
#[derive(Clone, Copy)]
pub struct SymWord {
    pub b0: SymByte,
    pub b1: SymByte,
    pub b2: SymByte,
    pub b3: SymByte,
}

impl SymWord {
    /// A word whose bytes are undefined.
    pub const UNDEFINED: SymWord = SymWord {
        b0: SymByte::Undef,
        b1: SymByte::Undef,
        b2: SymByte::Undef,
        b3: SymByte::Undef,
    };

    /// The number that the word is, if it is one.
    pub fn number(&self) -> Option<u32>
        ensures { result ≡ number_of self.now }
    {
        match (self.b0, self.b1, self.b2, self.b3) {
            (SymByte::Num(a), SymByte::Num(b), SymByte::Num(c), SymByte::Num(d)) => {
                Some(u32::from_le_bytes([a, b, c, d]))
            }
            _ => None,
        }
    }

    /// The place whose address the word is, if it is one.
    pub fn code(&self) -> Option<Place>
        ensures { result ≡ code_of self.now }
    {
        match self.b0 {
            SymByte::Part(Value::Code(q), _) if self.is_value(Value::Code(q)) => Some(q),
            _ => None,
        }
    }

    /// Whether the word is a value.
    pub fn is_value(&self, value: Value) -> bool
        ensures { result ≡ is_value value self.now }
    {
        self.b0.is_part(value, 0)
            && self.b1.is_part(value, 1)
            && self.b2.is_part(value, 2)
            && self.b3.is_part(value, 3)
    }
}

// Whether two values are one.
fn same_value(a: Value, b: Value) -> bool
    ensures { result ≡ same_value a b }
{
    match (a, b) {
        (Value::Code(q), Value::Code(r))
        | (Value::AbsHi(q), Value::AbsHi(r))
        | (Value::PcHi(q), Value::PcHi(r)) => same_place(q, r),
        (Value::Code(_), Value::AbsHi(_) | Value::PcHi(_))
        | (Value::AbsHi(_), Value::Code(_) | Value::PcHi(_))
        | (Value::PcHi(_), Value::Code(_) | Value::AbsHi(_)) => false,
    }
}

/// Whether two places are the same.
pub fn same_place(p: Place, q: Place) -> bool
    ensures { result ≡ places.same_place p q }
{
    p.object == q.object && p.section == q.section && p.offset == q.offset
}
