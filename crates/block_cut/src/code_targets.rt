// Where the relocations of code lead, gathered while code is cut.

ghost use Rattle.std.specs.Prelude.{◌≡◌, ◌++◌, ◌∷◌, [], IfOk, List};
ghost use Rattle.psabi_sym.specs.Inputs.{parsed};
ghost use Rattle.psabi_sym.specs.Indexed.{IndexedSection};
ghost use Rattle.block_cut.specs.Invariants.CodeTargets.{AreCodeTargets, is_wrong};
ghost use Rattle.block_cut.specs.Resolved.{code_relocs};

use crate::kinds::is_transfer;
use crate::leaders::Leaders;
use crate::leads::add_reloc;
use crate::resolved_reloc::ResolvedReloc;
use psabi_sym::objects::Objects;
use psabi_sym::target::Target;
use std::alloc::{AllocError, Global};

/// The places that the relocations of code lead to, and whether one of these relocations is wrong whatever stands at the
/// place that it leads to.
#[derive(Drop)]
pub struct CodeTargets {
    pub leaders: Leaders,
    pub has_wrong: bool,
}

// Whether a relocation is wrong whatever stands at the place that it leads to.
fn is_wrong(reloc: &ResolvedReloc) -> bool
    ensures { result ≡ is_wrong reloc.now }
{
    if reloc.fault.is_some() {
        return true;
    }
    match reloc.target {
        Target::Number(_) => is_transfer(reloc.kind),
        Target::Nowhere => true,
        Target::Code(_) | Target::Absent(_) => false,
    }
}

impl CodeTargets {
    /// An empty set of targets.
    pub fn new(alloc: Global, objects: &Objects) -> Result<CodeTargets, AllocError>
        ensures { IfOk result (AreCodeTargets (parsed objects.now) []) }
    {
        Ok(CodeTargets {
            leaders: Leaders::new(alloc, objects)?,
            has_wrong: false,
        })
    }

    /// Adds the targets of the next section, by its relocations if it is code. It looks at each once.
    pub fn add(&mut self, objects: &Objects, relocs: &[ResolvedReloc]) -> Result<(), AllocError>
        ensures { IfOk result (λ _. (sections : List IndexedSection) (l : IndexedSection)
            → relocs.now ≡ code_relocs (parsed objects.now) l → AreCodeTargets (parsed objects.now) sections self.old
            → AreCodeTargets (parsed objects.now) (sections ++ l ∷ []) self.new) }
    {
        for reloc in relocs {
            self.has_wrong = self.has_wrong | is_wrong(reloc);
            add_reloc(&mut self.leaders, objects, reloc)?;
        }
        Ok(())
    }
}
