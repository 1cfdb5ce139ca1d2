// A walk over a graph: each node that is found is marked, and its edges are followed once.

ghost use Rattle.std.specs.Prelude.{◌≡◌, ◌<◌, ◌==◌, length, All, IfOk};
ghost use Rattle.reach.specs.Invariants.{Found, is_among};
ghost use Rattle.reach.specs.Reach.{AreInside, MarksReached};

use std::alloc::{AllocError, Global};

/// The nodes that were found, and those among them whose edges are still to be followed.
#[derive(Drop)]
pub struct Walk {
    pub marks: Vec<bool>,
    pub pending: Vec<u32>,
}

// Marks a node, and if it wasn't marked before, notes that its edges are still to be followed.
fn find(walk: &mut Walk, node: u32) -> Result<(), AllocError>
    requires { node < length walk.old.marks.items }
    ensures { IfOk result (λ _. Found (λ n. node == n) walk.old walk.new) }
{
    if !walk.marks[node as usize] {
        walk.marks[node as usize] = true;
        walk.pending.push(node)?;
    }
    Ok(())
}

// Marks nodes, one after another; those that weren't marked before are still to be followed.
fn find_all(walk: &mut Walk, nodes: &[u32]) -> Result<(), AllocError>
    requires { All (λ n. n < length walk.old.marks.items) nodes.now }
    ensures { IfOk result (λ _. Found (is_among nodes.now) walk.old walk.new) }
{
    for &node in nodes {
        find(walk, node)?;
    }
    Ok(())
}

/// For each node, whether it is reached from the roots, in time linear in nodes and edges. `graph` has, for each node,
/// the nodes that its edges lead to.
pub fn reach(alloc: Global, graph: &[Vec<u32>], roots: &[u32]) -> Result<Vec<bool>, AllocError>
    requires roots { All (λ n. n < length graph.now) roots.now }
    requires edges { AreInside graph.now }
    ensures { IfOk result (λ marks. MarksReached graph.now roots.now marks.items) }
{
    let mut walk = Walk {
        marks: vec![in alloc; false; graph.len()]?,
        pending: Vec::new(alloc),
    };
    find_all(&mut walk, roots)?;
    while let Some(node) = walk.pending.pop() {
        find_all(&mut walk, &graph[node as usize])?;
    }
    Ok(walk.marks)
}
