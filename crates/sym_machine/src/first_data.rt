// The bytes of data at a program's start.

ghost use Rattle.std.specs.Prelude.{◌≡◌, ◌-◌, ◌≤◌, ◌++◌, IfOk, length, map, replicate};
ghost use Rattle.std.specs.List.{fold};
ghost use Rattle.zc_base.specs.MemMap.{data_limit};
ghost use Rattle.psabi_sym.specs.Contents.{data_contents, overlaid};
ghost use Rattle.psabi_sym.specs.Data.{data_end, data_file_end};
ghost use Rattle.psabi_sym.specs.Inputs.{parsed};
ghost use Rattle.block_cut.specs.DataWords.{data_words};
ghost use Rattle.sym_machine.specs.AddressParts as parts;
ghost use Rattle.sym_machine.specs.AddressParts.{bytes_of};
ghost use Rattle.sym_machine.specs.Objects.{data_bytes};
ghost use Rattle.sym_machine.specs.declared.word.SymByte.TheVariants.{Num};

use crate::address_parts::target_word;
use crate::pages::Pages;
use crate::word::SymByte;
use block_cut::cut::Cut;
use psabi_sym::objects::Objects;
use psabi_sym::target::Target;
use std::alloc::{AllocError, Global};

/// The bytes of data, with each word that holds an address filled in.
#[tactic(auto, unfolding(crate::specs::Objects::data_bytes))]
pub fn first_data(alloc: Global, cut: &Cut) -> Result<Pages, AllocError>
    ensures bytes { IfOk result (λ bytes. bytes ≡ data_bytes (parsed cut.now)) }
    ensures most { IfOk result (λ bytes. length bytes ≤ data_limit cut.now.map) }
{
    let mut bytes = unfilled(alloc, cut.objects())?;
    fill(cut, &mut bytes);
    Ok(bytes)
}

// The bytes of data that files hold, and zeros from there to the data's end.
fn unfilled(alloc: Global, objects: &Objects) -> Result<Pages, AllocError>
    ensures bytes { let inputs = parsed objects.now in IfOk result (λ bytes.
        bytes ≡ map Num (data_contents inputs ++ replicate (data_end inputs - data_file_end inputs) 0)) }
    ensures most { IfOk result (λ bytes. length bytes ≤ data_limit objects.now.map) }
{
    let contents = objects.data_contents(alloc)?;
    let zeros = objects.data_end() - objects.data_file_end();
    Pages::numbers(alloc, &contents, contents.len() + zeros as usize)
}

// Puts the words of data over bytes.
fn fill(cut: &Cut, bytes: &mut Pages)
    ensures len { length bytes.new ≡ length bytes.old }
    ensures words { let inputs = parsed cut.now in
        bytes.new ≡ fold (λ bytes w. overlaid (w.at - inputs.map.data_low) (bytes_of (parts.target_word w.target)) bytes)
        bytes.old (data_words inputs) }
{
    let low = cut.objects().map().data_low;
    for word in cut.data_words() {
        overlay(
            &target_bytes(word.target),
            word.at.saturating_sub(low) as usize,
            bytes,
        );
    }
}

// The bytes of a word that holds a target.
fn target_bytes(target: Target) -> [SymByte; 4]
    ensures { result ≡ bytes_of (parts.target_word target) }
{
    let word = target_word(target).bytes();
    [word.b0, word.b1, word.b2, word.b3]
}

// Puts bytes over others from an index on, as far as these go.
fn overlay(new: &[SymByte], at: usize, old: &mut Pages)
    ensures len { length old.new ≡ length old.old }
    ensures bytes { old.new ≡ overlaid at new.now old.old }
{
    if at < old.len() {
        let count = new.len().min(old.len() - at);
        old.write_cells(at, &new[..count]);
    }
}
