// Texts that are numbered by their keys.

ghost use Rattle.std.specs.Prelude.{◌≡◌, ◌<◌, ◌^◌, List, ℕ, [], IfOk, length};
ghost use Rattle.psabi_sym.specs.Invariants.Keys.{AreNumberedTexts, AreTails, IsAdded, IsKey, lent};

use crate::key::Key;
use std::alloc::{AllocError, Global};
use std::collections::BTreeMap;

/// Texts, each by its number: the place where it was first seen. Each has a key.
#[derive(Drop)]
pub struct Texts<'a> {
    pub numbers: BTreeMap<Key<'a>, u32>,
    pub texts: Vec<&'a [u8]>,
}

impl<'a> Texts<'a> {
    /// No texts.
    pub fn new(alloc: Global) -> Texts<'a>
        ensures numbers { result.numbers.entries ≡ [] }
        ensures texts { result.texts.items ≡ [] }
    {
        Texts {
            numbers: BTreeMap::new(alloc),
            texts: Vec::new(alloc),
        }
    }

    /// The number of a text, which is new if it wasn't seen before. It looks at the key alone.
    pub fn number(&mut self, key: Key<'a>, text: &'a [u8]) -> Result<u32, AllocError>
        requires { length self.old.texts.items < 2 ^ 32 }
        ensures { (blocks : ℕ) (tails : List (List ℕ)) → AreTails tails → IsKey blocks tails key.entry text.now
            → AreNumberedTexts blocks tails self.old.numbers (lent self.old.texts.items)
            → IfOk result (IsAdded blocks tails (lent self.old.texts.items) (lent self.new.texts.items) self.new.numbers text.now) }
    {
        if let Some(number) = self.numbers.get(&key) {
            return Ok(*number);
        }
        let number = self.texts.len() as u32;
        self.numbers.insert(key, number)?;
        self.texts.push(text)?;
        Ok(number)
    }
}
