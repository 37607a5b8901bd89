// The nodes that need each node.
ghost use Rattle.std.specs.Prelude.{◌≡◌, ◌+◌, ◌<◌, ◌≤◌, ◌==◌, ◌&&◌, ◌||◌, not, ℕ, true, [], length, IfOk, OnOk, OnErr};
ghost use Rattle.std.specs.List.{All};
ghost use Rattle.needs_order.specs.Needs.{has};
ghost use Rattle.node_links.specs.internal.Few.{ArePutInPart, AreReady, KnowBefore, drops, puts};
ghost use Rattle.node_links.specs.internal.Sets.{is_in, nodes_in, IsPartlyPut};

use crate::change::Change;
use crate::node_list::NodeList;
use crate::node_set::NodeSet;
use std::alloc::{AllocError, Global};

// For each node the set of those that need it.
#[derive(Drop)]
pub(crate) struct Users {
    alloc: Global,
    pub(crate) sets: Vec<NodeSet>,
}

impl Users {
    // No nodes.
    pub(crate) fn new(alloc: Global) -> Users
        ensures { result.sets.items ≡ [] }
    {
        Users {
            alloc,
            sets: Vec::new(alloc),
        }
    }

    // Adds a node that none needs.
    pub(crate) fn add(&mut self) -> Result<(), AllocError>
        ensures count { OnOk result (length self.new.sets.items ≡ length self.old.sets.items + 1) }
        ensures same { (i x : ℕ) → is_in self.new.sets.items i x ≡ is_in self.old.sets.items i x }
        ensures err { OnErr result (self.new.sets.items ≡ self.old.sets.items) }
    {
        self.sets.push(NodeSet::Empty)?;
        Ok(())
    }

    // Adds the node to those that need each of these. Where there is no memory it is with some of them.
    pub(crate) fn put_each(&mut self, needs: &[usize], node: usize) -> Result<(), AllocError>
        requires { All (λ p. p < length self.old.sets.items) needs.now }
        ensures ok { OnOk result ((i x : ℕ) → is_in self.new.sets.items i x ≡ (is_in self.old.sets.items i x || (has i needs.now && x == node))) }
        ensures err { OnErr result (IsPartlyPut self.old.sets.items needs.now node self.new.sets.items) }
        ensures count { length self.new.sets.items ≡ length self.old.sets.items }
    {
        'needs: for need in needs {
            self.put(*need, node)?;
        }
        Ok(())
    }

    // Adds the node to those that need each of these, where it is known which of all it needs already. Where there is no
    // memory all is as it was.
    pub(crate) fn put_all(
        &mut self,
        needs: &[usize],
        node: usize,
        was: &NodeSet,
    ) -> Result<(), AllocError>
        requires needs { All (λ p. p < length self.old.sets.items) needs.now }
        requires was { (i : ℕ) → has i (nodes_in was.now) ≡ is_in self.old.sets.items i node }
        ensures ok { OnOk result ((i x : ℕ) → is_in self.new.sets.items i x ≡ (is_in self.old.sets.items i x || (has i needs.now && x == node))) }
        ensures err { OnErr result ((i x : ℕ) → is_in self.new.sets.items i x ≡ is_in self.old.sets.items i x) }
        ensures count { length self.new.sets.items ≡ length self.old.sets.items }
    {
        match self.put_each(needs, node) {
            Ok(()) => Ok(()),
            Err(error) => {
                self.drop_each(needs, node, was);
                Err(error)
            }
        }
    }

    // Takes the node from those that need each of these, but for those that are kept.
    pub(crate) fn drop_each(&mut self, needs: &[usize], node: usize, kept: &NodeSet)
        requires { All (λ p. p < length self.old.sets.items) needs.now }
        ensures rest { (i x : ℕ) → is_in self.new.sets.items i x ≡ (is_in self.old.sets.items i x && not ((has i needs.now && not (has i (nodes_in kept.now))) && x == node)) }
        ensures count { length self.new.sets.items ≡ length self.old.sets.items }
    {
        'needs: for need in needs {
            self.drop_unless(*need, node, kept);
        }
    }

    // Adds each node to those that it gets to need. Where there is no memory some are added.
    fn put_changes(&mut self, changes: &[Change]) -> Result<(), AllocError>
        requires { AreReady (length self.old.sets.items) changes.now }
        ensures ok { OnOk result ((i x : ℕ) → is_in self.new.sets.items i x ≡ (is_in self.old.sets.items i x || puts changes.now i x)) }
        ensures err { OnErr result (ArePutInPart self.old.sets.items changes.now self.new.sets.items) }
        ensures count { length self.new.sets.items ≡ length self.old.sets.items }
    {
        'changes: for change in changes {
            self.put_each(change.needs.as_slice(), change.node)?;
        }
        Ok(())
    }

    // Takes each node from those that it would get to need, but for those that it needed before.
    fn drop_changes(&mut self, changes: &[Change])
        requires { AreReady (length self.old.sets.items) changes.now }
        ensures rest { (i x : ℕ) → is_in self.new.sets.items i x ≡ (is_in self.old.sets.items i x && not (drops changes.now i x)) }
        ensures count { length self.new.sets.items ≡ length self.old.sets.items }
    {
        'changes: for change in changes {
            self.drop_each(change.needs.as_slice(), change.node, &change.was);
        }
    }

    // Adds each node to those that it gets to need. Where there is no memory all is as it was.
    pub(crate) fn put_all_changes(&mut self, changes: &[Change]) -> Result<(), AllocError>
        requires ready { AreReady (length self.old.sets.items) changes.now }
        requires before { KnowBefore (λ a x. is_in self.old.sets.items x a) changes.now }
        ensures ok { OnOk result ((i x : ℕ) → is_in self.new.sets.items i x ≡ (is_in self.old.sets.items i x || puts changes.now i x)) }
        ensures err { OnErr result ((i x : ℕ) → is_in self.new.sets.items i x ≡ is_in self.old.sets.items i x) }
        ensures count { length self.new.sets.items ≡ length self.old.sets.items }
    {
        match self.put_changes(changes) {
            Ok(()) => Ok(()),
            Err(error) => {
                self.drop_changes(changes);
                Err(error)
            }
        }
    }

    // Adds the node to those that need this one.
    fn put(&mut self, need: usize, node: usize) -> Result<(), AllocError>
        requires { need < length self.old.sets.items }
        ensures ok { OnOk result ((i x : ℕ) → is_in self.new.sets.items i x ≡ (is_in self.old.sets.items i x || (i == need && x == node))) }
        ensures err { OnErr result ((i x : ℕ) → is_in self.new.sets.items i x ≡ is_in self.old.sets.items i x) }
        ensures count { length self.new.sets.items ≡ length self.old.sets.items }
    {
        self.sets[need].insert(self.alloc, node)
    }

    // Takes the node from those that need this one, unless that is kept.
    fn drop_unless(&mut self, need: usize, node: usize, kept: &NodeSet)
        requires { need < length self.old.sets.items }
        ensures rest { (i x : ℕ) → is_in self.new.sets.items i x ≡ (is_in self.old.sets.items i x && not ((i == need && not (has need (nodes_in kept.now))) && x == node)) }
        ensures count { length self.new.sets.items ≡ length self.old.sets.items }
    {
        if !kept.contains(need) {
            self.drop(need, node);
        }
    }

    // Takes the node from those that need this one.
    fn drop(&mut self, need: usize, node: usize)
        requires { need < length self.old.sets.items }
        ensures rest { (i x : ℕ) → is_in self.new.sets.items i x ≡ (is_in self.old.sets.items i x && not (i == need && x == node)) }
        ensures count { length self.new.sets.items ≡ length self.old.sets.items }
    {
        self.sets[need].remove(node);
    }
}

// The set of the items.
pub(crate) fn set_of(alloc: Global, items: &[usize]) -> Result<NodeSet, AllocError>
    ensures { IfOk result (λ set. (x : ℕ) → has x (nodes_in set) ≡ has x items.now) }
{
    let mut set = NodeSet::Empty;
    'items: for item in items {
        set.insert(alloc, *item)?;
    }
    Ok(set)
}
