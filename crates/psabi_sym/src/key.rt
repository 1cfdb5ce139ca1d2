// Names by parts.

ghost use Rattle.std.specs.Prelude.{◌≡◌};
ghost use Rattle.psabi_sym.specs.Invariants.Keys.{hash_of};

use std::hash::{FoldHasher, Hash, Hasher};

/// A name by what it begins with and the number of the rest. Keys are in the order of their parts' hashes, which are
/// compared at once; where those are the same, the rests and then the bytes decide. So names that end alike, which
/// often follow one another, are near in the order.
#[derive(Clone, Copy, PartialEq, Eq, PartialOrd, Ord)]
pub struct Key<'a> {
    pub hash: u32,
    pub rest: u32,
    pub part: &'a [u8],
}

impl<'a> Key<'a> {
    /// The key of a part and the number of a rest.
    pub fn new(part: &'a [u8], rest: u32) -> Key<'a>
        ensures hash { result.hash ≡ hash_of result.part.now }
        ensures rest { result.rest ≡ rest }
        ensures part { result.part.now ≡ part.now }
    {
        let mut hasher = FoldHasher::default();
        part.hash(&mut hasher);
        Key {
            hash: (hasher.finish() >> 32) as u32,
            rest,
            part,
        }
    }
}
