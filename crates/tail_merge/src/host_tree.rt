// The runs of hosts, as a tree.

ghost use Rattle.std.specs.Prelude.{◌≡◌, ◌<◌, ◌≤◌, ◌+◌, ◌*◌, ◌^◌, ◌++◌, ◌∷◌, [], IfOk, List, length};
ghost use Rattle.tail_merge.specs.HostTree.{AddsChild, HoldsRuns, HostRun, IsDeepest, IsHostTree, child_in, item_words};

use crate::tail_item::TailItem;
use std::alloc::{AllocError, Global};
use std::collections::BTreeMap;

/// The runs of hosts as a tree. A node stands for the last items of some hosts' runs, and node 0 for no items. Its
/// children, which have one item more, are found by its number and that item's word. For each node there is the number
/// of the item that ends the first of its hosts.
#[derive(Drop)]
pub struct HostTree {
    pub children: BTreeMap<u64, u32>,
    pub hosts: Vec<u32>,
}

/// A host, by the number of the item that ends it, and how many of its last items a tail has.
#[derive(Clone, Copy)]
pub struct FoundHost {
    pub host: u32,
    pub count: u32,
}

// The key of a node's child.
fn child_key(node: u32, word: u32) -> u64
    ensures { result ≡ node * 2 ^ 32 + word }
{
    u64::from(node) * (1 << 32) + u64::from(word)
}

impl HostTree {
    /// No hosts.
    pub fn new(alloc: Global) -> Result<HostTree, AllocError>
        ensures tree { IfOk result IsHostTree }
        ensures hosts { IfOk result (λ tree. HoldsRuns tree []) }
    {
        let mut hosts = Vec::new(alloc);
        hosts.push(0)?;
        Ok(HostTree {
            children: BTreeMap::new(alloc),
            hosts,
        })
    }

    // A node's child by one more word.
    fn child(&self, node: u32, word: u32) -> Option<u32>
        ensures { result ≡ child_in self.now.children node word }
    {
        self.children.get(&child_key(node, word)).copied()
    }

    // Adds a child to a node that has none by this word.
    fn add_child(&mut self, node: u32, word: u32, host: u32) -> Result<u32, AllocError>
        ensures { IfOk result (AddsChild self.old self.new node word host) }
    {
        // No item is in two runs, so there are always numbers left.
        let Ok(child) = u32::try_from(self.hosts.len()) else {
            return Err(AllocError);
        };
        self.hosts.push(host)?;
        self.children.insert(child_key(node, word), child)?;
        Ok(child)
    }

    /// Adds a host by its run and the number of the item that ends it, behind the other hosts.
    pub fn add(&mut self, run: &[TailItem], host: u32) -> Result<(), AllocError>
        requires tree { IsHostTree self.old }
        ensures tree { IfOk result (λ _. IsHostTree self.new) }
        ensures hosts { IfOk result (λ _. (hosts : List HostRun) → HoldsRuns self.old hosts
            → HoldsRuns self.new (hosts ++ record { end = host; run = item_words run.now } ∷ [])) }
    {
        let mut node = 0;
        for k in 0..run.len() {
            let word = run[run.len() - 1 - k].word;
            node = match self.child(node, word) {
                Some(child) => child,
                None => self.add_child(node, word, host)?,
            };
        }
        Ok(())
    }

    /// The most of the last items of a tail that are the last ones of a host's run, and the first such host.
    pub fn deepest(&self, tail: &[TailItem]) -> FoundHost
        requires tree { IsHostTree self.now }
        requires few { length tail.now < 2 ^ 32 }
        ensures within { result.count ≤ length tail.now }
        ensures deepest { (hosts : List HostRun) → HoldsRuns self.now hosts
            → IsDeepest hosts (item_words tail.now) result }
    {
        let mut node = 0;
        for k in 0..tail.len() {
            match self.child(node, tail[tail.len() - 1 - k].word) {
                None => {
                    return FoundHost {
                        host: self.hosts[node as usize],
                        count: k as u32,
                    };
                }
                Some(child) => node = child,
            }
        }
        FoundHost {
            host: self.hosts[node as usize],
            count: tail.len() as u32,
        }
    }
}
