// Names in a word, between commas.

ghost use Rattle.std.specs.Prelude.{◌≡◌, ◌==◌, IfOk, Some, length, map, not, option_map};
ghost use Rattle.std.specs.List.{list_all, slice_split};
ghost use Rattle.zc_base.specs.Options.{listed_names};
ghost use Rattle.command_words.specs.LinkWords.{are_distinct as are_all_distinct, names_given};

use std::alloc::{AllocError, Global};
use std::collections::BTreeSet;

/// The names between the commas of a word, unless one is empty or two are the same.
pub fn names_in(alloc: Global, word: &str) -> Result<Option<Vec<Vec<u8>>>, AllocError>
    ensures { IfOk result (λ names. option_map (λ all. listed_names all.items) names ≡ names_given (Some word.now)) }
{
    let names = parts(alloc, word)?;
    if !have_bytes(&names) || !are_distinct(alloc, &names)? {
        return Ok(None);
    }
    Ok(Some(copied(alloc, &names)?))
}

// What stands between the commas of a word.
fn parts(alloc: Global, word: &str) -> Result<Vec<&str>, AllocError>
    ensures { IfOk result (λ parts. map (λ part. part.now) parts.items ≡ slice_split (λ c. c == 44) word.now) }
{
    word.split(',').collect(alloc)
}

// Whether none of the names is empty.
fn have_bytes(names: &[&str]) -> bool
    ensures { result ≡ list_all (λ name. not (length name == 0)) (map (λ name. name.now) names.now) }
{
    names.iter().all(|name| !name.is_empty())
}

// Whether no two of the names are the same.
fn are_distinct(alloc: Global, names: &[&str]) -> Result<bool, AllocError>
    ensures { IfOk result (λ answer. answer ≡ are_all_distinct (map (λ name. name.now) names.now)) }
{
    let distinct: BTreeSet<&str> = names.iter().copied().collect(alloc)?;
    Ok(distinct.len() == names.len())
}

// The bytes of each name.
fn copied(alloc: Global, names: &[&str]) -> Result<Vec<Vec<u8>>, AllocError>
    ensures { IfOk result (λ copies. listed_names copies.items ≡ map (λ name. name.now) names.now) }
{
    let mut copies = Vec::with_capacity(alloc, names.len())?;
    for name in names {
        copies.push(Vec::from_slice(alloc, name.as_bytes())?)?;
    }
    Ok(copies)
}
