// One node's needs to be replaced, with all memory taken.
ghost use Rattle.std.specs.List.{All};
ghost use Rattle.std.specs.Prelude.{◌≡◌, ◌==◌, ◌<◌, ◌&&◌, ◌||◌, not, ℕ, true, length, slice_set, unwrap_or, IfOk};
ghost use Rattle.needs_order.specs.Needs.{has};
ghost use Rattle.node_links.specs.Links.{needs_at};
ghost use Rattle.node_links.specs.internal.Few.{AreReady, given, puts};
ghost use Rattle.node_links.specs.internal.Sets.{is_in, nodes_in};

use crate::node_list::NodeList;
use crate::node_set::NodeSet;
use crate::users::{Users, set_of};
use std::alloc::{AllocError, Global};
use std::mem;

// The needs that a node gets in place of those that it has.
#[derive(Drop)]
pub(crate) struct Change {
    pub(crate) node: usize,
    pub(crate) needs: NodeList,
    // The same needs as a set, and those that the node has.
    pub(crate) now: NodeSet,
    pub(crate) was: NodeSet,
}

impl Change {
    // The change of a node's needs from those before.
    pub(crate) fn new(
        alloc: Global,
        node: usize,
        needs: NodeList,
        before: &[usize],
    ) -> Result<Change, AllocError>
        ensures node { IfOk result (λ c. c.node ≡ node) }
        ensures needs { IfOk result (λ c. c.needs ≡ needs) }
        ensures now { IfOk result (λ c. (x : ℕ) → has x (nodes_in c.now) ≡ has x needs.items) }
        ensures was { IfOk result (λ c. (x : ℕ) → has x (nodes_in c.was) ≡ has x before.now) }
    {
        let now = set_of(alloc, needs.as_slice())?;
        let was = set_of(alloc, before)?;
        Ok(Change {
            node,
            needs,
            now,
            was,
        })
    }
}

// Gives each node the needs of its change, and takes it from those that it needs no longer.
pub(crate) fn change_all(needs: &mut Vec<NodeList>, users: &mut Users, changes: Vec<Change>)
    requires ready { AreReady (length needs.old.items) changes.items }
    requires counts { length users.old.sets.items ≡ length needs.old.items }
    requires put { (a b : ℕ) → is_in users.old.sets.items b a ≡ (has b (needs_at needs.old.items a) || puts changes.items b a) }
    requires known { (a b : ℕ) → has b (needs_at needs.old.items a) ≡ true → b < length needs.old.items }
    ensures needs { (a : ℕ) → needs_at needs.new.items a ≡ unwrap_or (given changes.items a) (needs_at needs.old.items a) }
    ensures users { (a b : ℕ) → is_in users.new.sets.items b a ≡ has b (needs_at needs.new.items a) }
    ensures known { (a b : ℕ) → has b (needs_at needs.new.items a) ≡ true → b < length needs.new.items }
    ensures needs_count { length needs.new.items ≡ length needs.old.items }
    ensures users_count { length users.new.sets.items ≡ length users.old.sets.items }
{
    for change in changes {
        change_one(needs, users, change);
    }
}

// Gives a node the needs of its change, and takes it from those that it needs no longer.
fn change_one(needs: &mut Vec<NodeList>, users: &mut Users, change: Change)
    requires node { change.node < length needs.old.items }
    requires low { All (λ b. b < length users.old.sets.items) (needs_at needs.old.items change.node) }
    ensures needs { needs.new.items ≡ slice_set needs.old.items change.node change.needs }
    ensures users { (i x : ℕ) → is_in users.new.sets.items i x ≡ (is_in users.old.sets.items i x && not ((has i (needs_at needs.old.items change.node) && not (has i (nodes_in change.now))) && x == change.node)) }
    ensures users_count { length users.new.sets.items ≡ length users.old.sets.items }
{
    let Change {
        node,
        needs: list,
        now,
        ..
    } = change;
    let before = mem::replace(&mut needs[node], list);
    users.drop_each(before.as_slice(), node, &now);
}
