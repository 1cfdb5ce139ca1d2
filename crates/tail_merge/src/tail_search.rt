// The search for the tails that are removed from a section of code.

ghost use Rattle.std.specs.Prelude.{◌≡◌, ◌<◌, ◌+◌, ◌^◌, [], All, IfOk, List, length, map, nat_lt, slice_index_or, true};
ghost use Rattle.std.specs.List.{sum_by};
ghost use Rattle.tail_merge.specs.HostTree.{IsHostTree};
ghost use Rattle.tail_merge.specs.RemovedTails.{IsAmong, tail_among};
ghost use Rattle.tail_merge.specs.TailItems.{tail_item};
ghost use Rattle.tail_merge.specs.TailSearch.{AreFoundUpTo, HasOwnWord, IsAtEnd, IsEndAt, IsSearchAt};
ghost use Rattle.tail_merge.specs.Tails.{CodeItem, removed_from};

use crate::host_tree::HostTree;
use crate::removed_tail::RemovedTail;
use crate::tail_item::TailItem;
use std::alloc::{AllocError, Global};

/// A search through the items of a section, in order: the hosts so far, the tails that are removed, and where the items
/// begin that stand in a tail with the next one, and those of them that can be removed with it.
#[derive(Drop)]
pub struct TailSearch {
    pub tree: HostTree,
    pub removed: Vec<RemovedTail>,
    pub run: usize,
    pub block: usize,
}

// Whether items have more bytes than the jump that stands in their place.
fn is_long(items: &[TailItem]) -> bool
    ensures { result ≡ nat_lt 4 (sum_by (λ t. t.size) items.now) }
{
    let mut left = 4;
    for item in items {
        if left < item.size {
            return true;
        }
        left -= item.size;
    }
    false
}

impl TailSearch {
    // Before the first item.
    fn new(alloc: Global) -> Result<TailSearch, AllocError>
        ensures start { IfOk result (λ search. (items : List TailItem) → IsSearchAt search items 0) }
        ensures found { IfOk result (λ search. (cs : List CodeItem)
            → AreFoundUpTo cs 0 search.tree search.removed.items) }
    {
        Ok(TailSearch {
            tree: HostTree::new(alloc)?,
            removed: Vec::new(alloc),
            run: 0,
            block: 0,
        })
    }

    // Looks for the longest tail that an end shares with a host. If that is longer than a jump, it is removed; otherwise
    // the end is a host from now on.
    fn take_end(&mut self, items: &[TailItem], end: usize) -> Result<(), AllocError>
        requires few { length items.now < 2 ^ 32 }
        requires state { IsAtEnd self.old items.now end }
        ensures tree { IfOk result (λ _. IsHostTree self.new.tree) }
        ensures same { IfOk result (λ _. (self.new.run ≡ self.old.run) × (self.new.block ≡ self.old.block)) }
        ensures found { IfOk result (λ _. (cs : List CodeItem) → items.now ≡ map tail_item cs → All HasOwnWord cs
            → IsEndAt cs end → AreFoundUpTo cs end self.old.tree self.old.removed.items
            → AreFoundUpTo cs (end + 1) self.new.tree self.new.removed.items) }
    {
        let found = self.tree.deepest(&items[self.block..end + 1]);
        if is_long(&items[end + 1 - found.count as usize..end + 1]) {
            self.removed.push(RemovedTail {
                end: end as u32,
                host: found.host,
                count: found.count,
            })?;
        } else {
            self.tree.add(&items[self.run..end + 1], end as u32)?;
        }
        Ok(())
    }

    // Goes on to the next item.
    fn pass(&mut self, items: &[TailItem], at: usize) -> Result<(), AllocError>
        requires few { length items.now < 2 ^ 32 }
        requires inside { at < length items.now }
        requires state { IsSearchAt self.old items.now at }
        ensures state { IfOk result (λ _. IsSearchAt self.new items.now (at + 1)) }
        ensures found { IfOk result (λ _. (cs : List CodeItem) → items.now ≡ map tail_item cs → All HasOwnWord cs
            → AreFoundUpTo cs at self.old.tree self.old.removed.items
            → AreFoundUpTo cs (at + 1) self.new.tree self.new.removed.items) }
    {
        let item = items[at];
        if item.leader {
            self.block = at;
        }
        if item.ends {
            self.take_end(items, at)?;
        }
        self.run = if item.inner { self.run } else { at + 1 };
        self.block = if item.inner { self.block } else { at + 1 };
        Ok(())
    }
}

/// The tails that are removed from a section with these items, in order, in time near-linear in the items: no item is in
/// two runs, and each is looked up once for what can be removed, and once if its end is a host.
pub fn removed_among(alloc: Global, items: &[TailItem]) -> Result<Vec<RemovedTail>, AllocError>
    requires { length items.now < 2 ^ 32 }
    ensures among { IfOk result (λ tails. (cs : List CodeItem) → items.now ≡ map tail_item cs → All HasOwnWord cs
        → All (IsAmong cs) tails.items) }
    ensures are { IfOk result (λ tails. (cs : List CodeItem) → items.now ≡ map tail_item cs → All HasOwnWord cs
        → map (tail_among cs) tails.items ≡ removed_from [] [] cs) }
{
    let mut search = TailSearch::new(alloc)?;
    for at in 0..items.len() {
        search.pass(items, at)?;
    }
    Ok(search.removed)
}
