// Which sections a program needs.

ghost use Rattle.std.specs.Prelude.{◌≡◌, IfOk, length};
ghost use Rattle.psabi_sym.specs.Indexed.{all_sections};
ghost use Rattle.psabi_sym.specs.Inputs.{parsed};
ghost use Rattle.section_gc.specs.Graph.{has_mark};
ghost use Rattle.section_gc.specs.Kept.{AreNeeded};

use crate::graph::{root_nodes, section_graph};
use block_cut::cut::Cut;
use reach::walk::reach;
use std::alloc::{AllocError, Global};

/// A mark for each section, by its number among all, that says whether the program needs it, in time linear in sections
/// and relocations.
pub fn needed_sections(alloc: Global, cut: &Cut) -> Result<Vec<bool>, AllocError>
    ensures needed { IfOk result (λ marks. AreNeeded (parsed cut.now) (has_mark (parsed cut.now).objects marks.items)) }
    ensures size { IfOk result (λ marks. length marks.items ≡ length (all_sections (parsed cut.now).objects)) }
{
    let graph = section_graph(alloc, cut.objects())?;
    let roots = root_nodes(alloc, cut.objects(), cut.entry())?;
    let marks = reach(alloc, &graph, &roots)?;
    Ok(marks)
}
