// Nodes under numbers, with their links and the ranges filed under slots.
ghost use Rattle.std.specs.Prelude.{◌≡◌, ◌==◌, ◌<◌, ◌++◌, ◌∷◌, ℕ, [], true, false, Some, map, length, if◌then◌else◌, IfOk, OnOk, OnErr};
ghost use Rattle.std.specs.List.{list_any};
ghost use Rattle.needs_order.specs.Needs.{has};
ghost use Rattle.node_links.specs.Nodes.{needs_of, node_count};
ghost use Rattle.indexmap.specs.IndexSet.{spare};
ghost use Rattle.dep_graph.specs.declared.node.Node.{Node};
ghost use Rattle.dep_graph.specs.internal.Keys.{AreKeysOnce, is_narrow, same_key};
ghost use Rattle.dep_graph.specs.internal.Numbers.{AreFilings, IsAlive, IsFiled, count_of, found_at, is_range, key_place, node_at, place_of};
ghost use Rattle.dep_graph.specs.internal.Touches.{AreIndexed};

use crate::files::Files;
use crate::key::Key;
use crate::node::Node;
use crate::table::NodeTable;
use crate::touches::Touches;
use indexmap::IndexSet;
use near_hash::NearHash;
use node_links::Links;
use std::alloc::{AllocError, Global};

// Nodes under numbers, with their links.
pub(crate) struct Net {
    pub(crate) alloc: Global,
    // The nodes that were linked to others or that others were linked to.
    pub(crate) nodes: NodeTable,
    // Their links, by their numbers.
    pub(crate) links: Links,
    // The ranges among them under the slots of their cells.
    pub(crate) files: Files,
    // What operations find them by.
    pub(crate) touches: Touches,
    // About how much was left behind since the net was made: links that were dropped, numbers whose nodes operations made
    // others or none, and rectangles that they filed. A range that is handed on leaves nothing behind, but the filing of new
    // lines between its own counts a little, since it is one more.
    pub(crate) left_behind: usize,
    pub ghost counts: { node_count links ≡ count_of nodes },
    pub ghost rooms: { length files.current.items ≡ count_of nodes },
    pub ghost alive: { (a n : ℕ) → has n (needs_of links a) ≡ true → IsAlive nodes a × IsAlive nodes n },
    pub ghost filed: { AreFilings nodes files },
    pub ghost used: { (a n : ℕ) → has n (needs_of links a) ≡ true → IsFiled nodes files n },
    pub ghost indexed: { AreIndexed nodes touches },
}

// Written out, so that whoever drops one calls one function.
impl Drop for Net {
    fn drop(self) {
        let Net {
            alloc: _,
            nodes: _nodes,
            links: _links,
            files: _files,
            touches: _touches,
            left_behind: _,
        } = self;
    }
}

impl Net {
    ghost use Rattle.dep_graph.specs.Graph.{AreLinked, AreSame};
    ghost use Rattle.dep_graph.specs.internal.Arrows.{is_used};
    ghost use Rattle.dep_graph.specs.internal.Nets.{Grows, links_in};

    // No nodes.
    pub(crate) fn new(alloc: Global) -> Result<Net, AllocError>
        ensures { IfOk result (λ net. (a : Node) → links_in net a ≡ []) }
    {
        Ok(Net {
            alloc,
            nodes: NodeTable::new(alloc)?,
            links: Links::new(alloc),
            files: Files::new(alloc),
            touches: Touches::new(alloc),
            left_behind: 0,
        })
    }

    // Replaces what the node is linked to. Where there is no memory all links stay.
    pub(crate) fn link(&mut self, a: Node, needs: &[Node]) -> Result<(), AllocError>
        ensures ok { OnOk result (AreLinked a needs.now (links_in self.old) (links_in self.new)) }
        ensures err { OnErr result (AreSame (links_in self.old) (links_in self.new)) }
    {
        let node = self.know(a)?;
        let numbers = self.use_all(needs)?;
        self.link_numbers(node, &numbers)
    }

    // Replaces the links of a node by those to numbers of nodes that are filed.
    fn link_numbers(&mut self, node: usize, needs: &[usize]) -> Result<(), AllocError>
        requires node { found_at self.old.nodes node ≡ Some (node_at self.old.nodes node) }
        requires alive { (n : ℕ) → has n needs.now ≡ true → IsAlive self.old.nodes n }
        requires filed { (n : ℕ) → has n needs.now ≡ true → IsFiled self.old.nodes self.old.files n }
        ensures nodes { self.new.nodes ≡ self.old.nodes }
        ensures ok { OnOk result ((n : ℕ) → needs_of self.new.links n ≡ (if n == node then needs.now else needs_of self.old.links n)) }
        ensures err { OnErr result ((n : ℕ) → needs_of self.new.links n ≡ needs_of self.old.links n) }
    {
        let dropped = self.links.needs(node).len();
        self.left_behind = self.left_behind.saturating_add(dropped);
        self.links.link(node, needs)
    }

    // Lets the node be linked to none. Takes no memory.
    pub(crate) fn unlink(&mut self, a: Node)
        ensures { AreLinked a [] (links_in self.old) (links_in self.new) }
    {
        match self.nodes.number(a) {
            Some(node) => {
                let dropped = self.links.needs(node).len();
                self.left_behind = self.left_behind.saturating_add(dropped);
                self.links.unlink(node);
            }
            None => (),
        }
    }

    // The numbers of nodes that some node is going to be linked to, in order.
    fn use_all(&mut self, needs: &[Node]) -> Result<Vec<usize>, AllocError>
        ensures grown { Grows self.old self.new }
        ensures nodes { IfOk result (λ numbers. map (node_at self.new.nodes) numbers.items ≡ needs.now) }
        ensures alive { IfOk result (λ numbers. (n : ℕ) → has n numbers.items ≡ true → IsAlive self.new.nodes n) }
        ensures filed { IfOk result (λ numbers. (n : ℕ) → has n numbers.items ≡ true → IsFiled self.new.nodes self.new.files n) }
    {
        let mut numbers = Vec::with_capacity(self.alloc, needs.len())?;
        'needs: for need in needs {
            let number = self.use_one(*need)?;
            numbers.push(number)?;
        }
        Ok(numbers)
    }

    // The number of a node that some node is going to be linked to, which is filed where it is a range.
    fn use_one(&mut self, a: Node) -> Result<usize, AllocError>
        ensures grown { Grows self.old self.new }
        ensures place { IfOk result (λ n. n ≡ place_of self.new.nodes a) }
        ensures inside { IfOk result (λ n. n < count_of self.new.nodes) }
        ensures filed { IfOk result (λ n. IsFiled self.new.nodes self.new.files n) }
    {
        let number = self.know(a)?;
        self.file_node(a, number)?;
        Ok(number)
    }

    // Files a node under its slots where it is a range, unless it is filed.
    fn file_node(&mut self, a: Node, number: usize) -> Result<(), AllocError>
        requires node { found_at self.old.nodes number ≡ Some a }
        ensures grown { Grows self.old self.new }
        ensures nodes { self.new.nodes ≡ self.old.nodes }
        ensures filed { OnOk result (IsFiled self.new.nodes self.new.files number) }
    {
        match a {
            Node::Range(_) => self.file(a, number),
            Node::Whole(_) => self.file(a, number),
            Node::Cell(_) => Ok(()),
            Node::Name { .. } => Ok(()),
        }
    }

    // Files a range under its slots, unless it is.
    fn file(&mut self, range: Node, number: usize) -> Result<(), AllocError>
        requires node { found_at self.old.nodes number ≡ Some range }
        requires range { is_range (Some range) ≡ true }
        ensures grown { Grows self.old self.new }
        ensures nodes { self.new.nodes ≡ self.old.nodes }
        ensures filed { OnOk result (IsFiled self.new.nodes self.new.files number) }
    {
        if self.files.filing(number).is_some() {
            return Ok(());
        }
        let filing = self.files.file(self.nodes.lines(), range, number)?;
        self.files.keep(number, filing);
        Ok(())
    }

    // Whether some node is linked to the one of this number.
    pub(crate) fn is_used(&self, node: usize) -> bool
        ensures { result ≡ is_used self.now node }
    {
        node < self.links.len() && self.links.is_needed(node)
    }

    // The number of a node, which is added where it isn't known.
    fn know(&mut self, a: Node) -> Result<usize, AllocError>
        ensures grown { Grows self.old self.new }
        ensures place { IfOk result (λ n. n ≡ place_of self.new.nodes a) }
        ensures inside { IfOk result (λ n. n < count_of self.new.nodes) }
    {
        let key = Key::of(self.nodes.lines(), a);
        self.know_key(key)
    }

    // The number of a key, which is added where it isn't known.
    pub(crate) fn know_key(&mut self, key: Key) -> Result<usize, AllocError>
        requires { is_narrow key ≡ true }
        ensures grown { Grows self.old self.new }
        ensures files { self.new.files.owners ≡ self.old.files.owners }
        ensures place { IfOk result (λ n. n ≡ key_place self.new.nodes key) }
        ensures inside { IfOk result (λ n. n < count_of self.new.nodes) }
    {
        match self.nodes.keys.get_index_of(&key) {
            Some(number) => Ok(number),
            None => self.add(key),
        }
    }

    // Adds a key that isn't known, and answers its number.
    fn add(&mut self, key: Key) -> Result<usize, AllocError>
        requires narrow { is_narrow key ≡ true }
        requires new { key_place self.old.nodes key ≡ count_of self.old.nodes }
        ensures grown { Grows self.old self.new }
        ensures files { self.new.files.owners ≡ self.old.files.owners }
        ensures place { IfOk result (λ n. n ≡ key_place self.new.nodes key) }
        ensures inside { IfOk result (λ n. n < count_of self.new.nodes) }
    {
        self.nodes.keys.reserve(1)?;
        self.files.current.reserve(1)?;
        let number = self.links.add()?;
        self.files.current.push_reserved(None);
        put_last(&mut self.nodes.keys, key);
        Ok(number)
    }
}

// Puts a key that isn't there at the end, where there is room.
fn put_last(keys: &mut IndexSet<Key, NearHash>, key: Key)
    requires room { 0 < spare keys.old }
    requires new { list_any (same_key key) keys.old.keys ≡ false }
    ensures keys { keys.new.keys ≡ keys.old.keys ++ key ∷ [] }
    ensures once { AreKeysOnce keys.new.keys }
{
    match keys.insert(key) {
        Ok(_) => (),
        Err(_) => unreachable!(),
    }
}
