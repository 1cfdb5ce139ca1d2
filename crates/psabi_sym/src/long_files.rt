// Objects whose first files have more bytes than a link takes, so that no others need to be kept.

ghost use Rattle.std.specs.Prelude.{◌≡◌, ◌+◌, ◌++◌, ◌<◌, ◌≤◌, List, ℕ, length};
ghost use Rattle.std.specs.List.{sum_by};
ghost use Rattle.zc_base.specs.Options.{Options};
ghost use Rattle.psabi_sym.specs.Faults.{fault_from, gather_fault};
ghost use Rattle.psabi_sym.specs.Inputs.{inputs_in};
ghost use Rattle.psabi_sym.specs.LinkFault.{IsNameless, IsRefusal};
ghost use Rattle.psabi_sym.specs.Objects.{contents_of};

use crate::link_fault::LinkFault;
use crate::objects::{first_unreadable, load};
use crate::sums::first_too_large;
use elf32_read::fault::Fault;
use std::alloc::Global;

/// Why objects aren't linked whose first files, which are `kept`, have more bytes than a link takes; `later` is the first
/// fault of reading one of the others, by its object's index.
pub fn long_files_refusal(alloc: Global, kept: &[Vec<u8>], later: Option<(u32, Fault)>) -> LinkFault
    requires few { length kept.now ≤ 256 }
    requires long { 0x200_0000 < sum_by length (contents_of kept.now) }
    ensures { (others : List (List ℕ)) (options : Options) → length kept.now + length others ≤ 256
        → later ≡ fault_from (length kept.now) others
        → IsRefusal (gather_fault (inputs_in options (contents_of kept.now ++ others))) result × IsNameless result }
{
    if let Some((index, fault)) = first_unreadable(kept) {
        return LinkFault::Object { index, fault };
    }
    if let Some((index, fault)) = later {
        return LinkFault::Object { index, fault };
    }
    match load(alloc, kept) {
        Err(_) => LinkFault::OutOfMemory,
        Ok(objects) => match first_too_large(&objects) {
            None => unreachable!(),
            Some(index) => LinkFault::Object {
                index,
                fault: Fault::TooLarge,
            },
        },
    }
}
