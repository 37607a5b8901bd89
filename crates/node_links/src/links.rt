// Nodes and their links.
ghost use Rattle.std.specs.Prelude.{◌≡◌, ◌+◌, ◌<◌, ◌≤◌, ◌==◌, ℕ, [], true, if◌then◌else◌, length, nat_lt, unwrap_or, IfOk, OnOk, OnErr};
ghost use Rattle.std.specs.List.{All};
ghost use Rattle.needs_order.specs.Needs.{has};
ghost use Rattle.node_links.specs.Links.{needs_at};
ghost use Rattle.node_links.specs.internal.Sets.{is_in};

use crate::node_list::NodeList;
use crate::node_set::NodeSet;
use crate::users::{Users, set_of};
use std::alloc::{AllocError, Global};
use std::mem;

/// Nodes, and the nodes that each of them needs.
#[derive(Drop)]
pub struct Links {
    pub(crate) alloc: Global,
    // What each node needs, as it was given.
    pub(crate) needs: Vec<NodeList>,
    // Which nodes need each node.
    pub(crate) users: Users,
    pub ghost counts: { length users.sets.items ≡ length needs.items },
    pub ghost exact: { (a b : ℕ) → is_in users.sets.items b a ≡ has b (needs_at needs.items a) },
    pub ghost known: { (a b : ℕ) → has b (needs_at needs.items a) ≡ true → b < length needs.items },
}

impl Links {
    ghost use Rattle.node_links.specs.Nodes.{node_count, needs_of, users_of};

    /// No nodes.
    pub fn new(alloc: Global) -> Links
        ensures count { node_count result ≡ 0 }
        ensures needs { (a : ℕ) → needs_of result a ≡ [] }
    {
        Links {
            alloc,
            needs: Vec::new(alloc),
            users: Users::new(alloc),
        }
    }

    /// How many nodes there are.
    pub fn len(&self) -> usize
        ensures { result ≡ node_count self.now }
    {
        self.needs.as_slice().len()
    }

    /// Adds a node that needs none and that none needs, and answers its number. Where there is no memory all stays as
    /// it was.
    pub fn add(&mut self) -> Result<usize, AllocError>
        ensures number { IfOk result (λ number. number ≡ node_count self.old) }
        ensures count { OnOk result (node_count self.new ≡ node_count self.old + 1) }
        ensures needs { (a : ℕ) → needs_of self.new a ≡ needs_of self.old a }
        ensures err { OnErr result (node_count self.new ≡ node_count self.old) }
    {
        let number = self.len();
        self.needs.reserve(1)?;
        self.users.add()?;
        self.needs.push_reserved(NodeList::new(self.alloc));
        Ok(number)
    }

    /// What the node needs, as it was given.
    pub fn needs(&self, node: usize) -> &[usize]
        requires { node < node_count self.now }
        ensures { result.now ≡ needs_of self.now node }
    {
        self.needs[node].as_slice()
    }

    /// The nodes that need the node, in the order of their numbers. Errs for want of memory.
    pub fn users(&self, node: usize) -> Result<Vec<usize>, AllocError>
        requires { node < node_count self.now }
        ensures list { IfOk result (λ users. users.items ≡ users_of self.now node) }
        ensures exact { (a : ℕ) → has a (users_of self.now node) ≡ has node (needs_of self.now a) }
    {
        self.users.sets[node].to_vec(self.alloc)
    }

    /// Whether some node needs the node.
    pub fn is_needed(&self, node: usize) -> bool
        requires { node < node_count self.now }
        ensures { result ≡ nat_lt 0 (length (users_of self.now node)) }
    {
        !self.users.sets[node].is_empty()
    }

    /// Replaces what the node needs. Where there is no memory all stays as it was. Costs about the number of old and
    /// new needs.
    pub fn link(&mut self, node: usize, needs: &[usize]) -> Result<(), AllocError>
        requires node { node < node_count self.old }
        requires needs { All (λ b. b < node_count self.old) needs.now }
        ensures ok { OnOk result ((a : ℕ) → needs_of self.new a ≡ (if a == node then needs.now else needs_of self.old a)) }
        ensures err { OnErr result ((a : ℕ) → needs_of self.new a ≡ needs_of self.old a) }
        ensures count { node_count self.new ≡ node_count self.old }
    {
        let kept = NodeList::from_slice(self.alloc, needs)?;
        let now = set_of(self.alloc, needs)?;
        let was = set_of(self.alloc, self.needs[node].as_slice())?;
        self.users.put_all(needs, node, &was)?;
        let before = mem::replace(&mut self.needs[node], kept);
        self.users.drop_each(before.as_slice(), node, &now);
        Ok(())
    }

    /// Lets the node need none. Takes no memory. Costs about the number of its needs.
    pub fn unlink(&mut self, node: usize)
        requires { node < node_count self.old }
        ensures needs { (a : ℕ) → needs_of self.new a ≡ (if a == node then [] else needs_of self.old a) }
        ensures count { node_count self.new ≡ node_count self.old }
    {
        let before = mem::replace(&mut self.needs[node], NodeList::new(self.alloc));
        self.users
            .drop_each(before.as_slice(), node, &NodeSet::Empty);
    }
}
