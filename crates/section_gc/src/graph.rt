// The graph of sections: which sections the relocations of each lead to.

ghost use Rattle.std.specs.Prelude.{◌≡◌, ◌++◌, ◌||◌, IfOk, map};
ghost use Rattle.psabi_sym.specs.Indexed.{all_sections};
ghost use Rattle.psabi_sym.specs.Inputs.{parsed};
ghost use Rattle.section_gc.specs.Graph.{is_data_role, nodes_at, reloc_nodes, root_nodes_from, section_nodes, target_nodes};

use elf32_read::reloc::Reloc;
use object_passes::relocs::asks;
use psabi_sym::objects::Objects;
use psabi_sym::section_ref::SectionRef;
use psabi_sym::section_row::{SectionRole, SectionRow};
use psabi_sym::target::Target;
use std::alloc::{AllocError, Global};
use zc_base::place::Place;

// Adds the node of the section that a target lies in, if it is a place in code.
fn add_target(nodes: &mut Vec<u32>, objects: &Objects, target: Target) -> Result<(), AllocError>
    ensures { IfOk result (λ _. nodes.new.items ≡ nodes.old.items ++ target_nodes (parsed objects.now).objects target) }
{
    match target {
        Target::Code(to) => match objects.section_number(to.object, to.section) {
            None => Ok(()),
            Some(node) => {
                nodes.push(node)?;
                Ok(())
            }
        },
        Target::Number(_) | Target::Absent(_) | Target::Nowhere => Ok(()),
    }
}

// Adds the node that a relocation of an object refers to, if it asks for something.
fn add_edge(
    nodes: &mut Vec<u32>,
    objects: &Objects,
    object: u16,
    reloc: Reloc,
) -> Result<(), AllocError>
    ensures { IfOk result (λ _. nodes.new.items ≡ nodes.old.items ++ reloc_nodes (parsed objects.now) object reloc) }
{
    if !asks(reloc) {
        return Ok(());
    }
    let target = objects.resolve(object, reloc.symbol, reloc.addend);
    add_target(nodes, objects, target)
}

// The nodes that a section refers to.
fn edges_of(alloc: Global, objects: &Objects, section: &SectionRef) -> Result<Vec<u32>, AllocError>
    ensures { IfOk result (λ nodes. nodes.items ≡ section_nodes (parsed objects.now) section.now) }
{
    let mut nodes = Vec::new(alloc);
    for k in 0..section.reloc_count() {
        add_edge(&mut nodes, objects, section.object(), section.reloc(k))?;
    }
    Ok(nodes)
}

/// The nodes that each section refers to, by the section's number among all, in time linear in sections and relocations.
pub fn section_graph(alloc: Global, objects: &Objects) -> Result<Vec<Vec<u32>>, AllocError>
    ensures { IfOk result (λ graph. map (λ nodes. nodes.items) graph.items
        ≡ map (section_nodes (parsed objects.now)) (all_sections (parsed objects.now).objects)) }
{
    let mut graph = Vec::new(alloc);
    for k in 0..objects.section_count() {
        let section = objects.section(k);
        graph.push(edges_of(alloc, objects, &section)?)?;
    }
    Ok(graph)
}

// Whether a section is data.
fn is_data(role: SectionRole) -> bool
    ensures { result ≡ is_data_role role }
{
    match role {
        SectionRole::InClass(_) => true,
        SectionRole::Code | SectionRole::Dropped => false,
    }
}

// Whether a section is needed by itself: it is data, or fixed.
fn is_root(row: SectionRow) -> bool
    ensures { result ≡ (is_data_role row.role || row.fixed) }
{
    is_data(row.role) || row.fixed
}

/// The nodes that are needed by themselves: the section that the program starts in, all data, and what is fixed.
pub fn root_nodes(alloc: Global, objects: &Objects, entry: Place) -> Result<Vec<u32>, AllocError>
    ensures { IfOk result (λ nodes. nodes.items
        ≡ nodes_at (parsed objects.now).objects entry.object entry.section
        ++ root_nodes_from objects.now.fixed 0 (all_sections (parsed objects.now).objects)) }
{
    let mut nodes = Vec::new(alloc);
    add_target(&mut nodes, objects, Target::Code(entry))?;
    for k in 0..objects.section_count() {
        if is_root(objects.section_row(k)) {
            nodes.push(k)?;
        }
    }
    Ok(nodes)
}
