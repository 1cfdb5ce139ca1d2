// The cut of objects' code, as a function.

ghost use Rattle.std.specs.Prelude.{◌≡◌, IfOk, IfErr, None};
ghost use Rattle.psabi_sym.specs.LinkFault.{IsRefusal};
ghost use Rattle.block_cut.specs.Faults.{first_fault};

use psabi_sym::link_fault::LinkFault;
use psabi_sym::objects::Objects;
use std::alloc::Global;

/// The objects with their code cut into items, or why they aren't linked: `Cut::new`.
pub fn cut(alloc: Global, objects: Objects) -> Result<crate::cut::Cut, LinkFault>
    ensures same { IfOk result (λ cut. cut ≡ objects) }
    ensures faultless { IfOk result (λ _. first_fault objects ≡ None) }
    ensures err { IfErr result (λ fault. IsRefusal (first_fault objects) fault) }
{
    crate::cut::Cut::new(alloc, objects)
}
