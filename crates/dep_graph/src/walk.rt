// What a graph reaches, in any order and in order.
ghost use Rattle.std.specs.Prelude.{◌≡◌, ◌≢◌, ◌↔◌, ◌⊎◌, ◌<◌, ◌≤◌, ◌++◌, [], ℕ, false, length, IsTrue, IfOk, OnOk, slice_index_or};
ghost use Rattle.std.specs.List.{AllPairs, filter_map};
ghost use Rattle.std.specs.Option.{option_to_list};
ghost use Rattle.needs_order.specs.Needs as plain;
ghost use Rattle.dep_graph.specs.Graph.{links_of};
ghost use Rattle.dep_graph.specs.Needs.{OnCycle};
ghost use Rattle.dep_graph.specs.Nodes.{has, items_of};
ghost use Rattle.dep_graph.specs.Walks.{AreReached, IsOnce, IsOrdered};
ghost use Rattle.dep_graph.specs.declared.node.Node.{Node};
ghost use Rattle.dep_graph.specs.internal.Nets.{links_in};
ghost use Rattle.dep_graph.specs.internal.Arrows.{node_total};
ghost use Rattle.dep_graph.specs.internal.Numbers.{found_at, place_of};
ghost use Rattle.dep_graph.specs.internal.Walked.{AreKnown, AreUnknown, pick, picks};

use crate::graph::Graph;
use crate::net::Net;
use crate::node::Node;
use crate::nodes::Nodes;
use indexmap::IndexSet;
use near_hash::NearHash;
use node_reach::Walk;
use std::alloc::{AllocError, Global};

impl Graph {
    /// The nodes from which needs lead to one of the marks, one or more after another, and the marks themselves: each
    /// once, in any order. A mark may be a node that was never linked. Costs about the number of the answer's nodes and of
    /// their links, and for each cell among them a look-up for each size of slots in use and a look at each range that was
    /// filed under its slots, also as it was before it was bent. Errs for want of memory.
    pub fn reach(&self, marks: &Nodes) -> Result<Nodes, AllocError>
        ensures { IfOk result (λ nodes. AreReached (links_of self.now) (items_of marks.now) (items_of nodes)) }
    {
        self.net.reach(marks)
    }

    /// Those of the nodes that are on no cycle, each once, and after all of them that its needs lead to. Costs about what
    /// [`Graph::reach`] of them does. Errs for want of memory.
    pub fn order(&self, nodes: &Nodes) -> Result<Nodes, AllocError>
        ensures { IfOk result (λ order. IsOrdered (links_of self.now) (items_of nodes.now) (items_of order)) }
    {
        self.net.order(nodes)
    }

    /// Whether needs lead from the node back to it, one or more after another. Costs about what [`Graph::reach`] of it
    /// does. Errs for want of memory.
    pub fn on_cycle(&self, a: Node) -> Result<bool, AllocError>
        ensures { IfOk result (λ is_so. IsTrue is_so ↔ OnCycle (links_of self.now) a) }
    {
        self.net.on_cycle(a)
    }
}

// Nodes, split into those that have a number and those that have none.
#[derive(Drop)]
struct Split {
    // Those without one, each once.
    unknown: IndexSet<Node>,
    // The numbers of the others, each once.
    known: IndexSet<usize, NearHash>,
    pub ghost once: { IsOnce unknown.keys },
}

impl Split {
    // No nodes; there is room for so many that have a number.
    fn new(alloc: Global, count: usize) -> Result<Split, AllocError>
        ensures unknown { IfOk result (λ split. split.unknown.keys ≡ []) }
        ensures known { IfOk result (λ split. split.known.keys ≡ []) }
    {
        Ok(Split {
            unknown: IndexSet::new(alloc),
            known: IndexSet::with_capacity_and_hasher(alloc, count, NearHash::new())?,
        })
    }
}

impl Net {
    // As [`Graph::reach`].
    fn reach(&self, marks: &Nodes) -> Result<Nodes, AllocError>
        ensures { IfOk result (λ nodes. AreReached (links_in self.now) (items_of marks.now) (items_of nodes)) }
    {
        let split = self.split(marks.items())?;
        let starts = self.starts(marks.items())?;
        let reached = node_reach::reach(self.alloc, self, &starts)?;
        self.named(&split.unknown, &reached)
    }

    // As [`Graph::order`].
    fn order(&self, nodes: &Nodes) -> Result<Nodes, AllocError>
        ensures { IfOk result (λ order. IsOrdered (links_in self.now) (items_of nodes.now) (items_of order)) }
    {
        let split = self.split(nodes.items())?;
        let walk = node_reach::order(self.alloc, self, split.known.as_slice())?;
        self.ordered(&split.unknown, &split.known, &walk)
    }

    // As [`Graph::on_cycle`].
    fn on_cycle(&self, a: Node) -> Result<bool, AllocError>
        ensures { IfOk result (λ is_so. IsTrue is_so ↔ OnCycle (links_in self.now) a) }
    {
        match self.nodes.number(a) {
            Some(number) => {
                let walk = node_reach::order(self.alloc, self, &[number])?;
                Ok(flag_of(&walk, number))
            }
            None => Ok(false),
        }
    }

    // The nodes, split into those that have a number and those that have none.
    fn split(&self, nodes: &[Node]) -> Result<Split, AllocError>
        ensures unknown { IfOk result (λ split. AreUnknown self.now nodes.now split.unknown.keys) }
        ensures known { IfOk result (λ split. AreKnown self.now nodes.now split.known.keys) }
    {
        let mut split = Split::new(self.alloc, nodes.len())?;
        'nodes: for node in nodes {
            self.put(&mut split, *node)?;
        }
        Ok(split)
    }

    // Puts a node to those that it belongs to.
    fn put(&self, split: &mut Split, node: Node) -> Result<(), AllocError>
        ensures unknown { OnOk result ((a : Node) → IsTrue (has a split.new.unknown.keys) ↔ (IsTrue (has a split.old.unknown.keys) ⊎ ((a ≡ node) × (node_total self.now ≤ place_of self.now.nodes node)))) }
        ensures known { OnOk result ((n : ℕ) → IsTrue (plain.has n split.new.known.keys) ↔ (IsTrue (plain.has n split.old.known.keys) ⊎ ((n ≡ place_of self.now.nodes node) × (n < node_total self.now)))) }
    {
        match self.nodes.number(node) {
            Some(number) => split.known.insert(number)?,
            None => split.unknown.insert(node)?,
        };
        Ok(())
    }

    // The unknown nodes, and behind them those of the numbers.
    pub(crate) fn named(
        &self,
        unknown: &IndexSet<Node>,
        numbers: &[usize],
    ) -> Result<Nodes, AllocError>
        ensures { IfOk result (λ nodes. items_of nodes ≡ unknown.now.keys ++ filter_map (found_at self.now.nodes) numbers.now) }
    {
        let mut nodes = Nodes::of(self.alloc, unknown.as_slice())?;
        'numbers: for number in numbers {
            self.push_node(&mut nodes, *number)?;
        }
        Ok(nodes)
    }

    // Adds the node of a number, where it has one.
    pub(crate) fn push_node(&self, nodes: &mut Nodes, number: usize) -> Result<(), AllocError>
        ensures { OnOk result (items_of nodes.new ≡ items_of nodes.old ++ option_to_list (found_at self.now.nodes number)) }
    {
        match self.nodes.node(number) {
            Some(node) => nodes.push(node),
            None => Ok(()),
        }
    }

    // The unknown nodes, and behind them the known ones that are on no cycle, in the opposite order of the walk.
    fn ordered(
        &self,
        unknown: &IndexSet<Node>,
        known: &IndexSet<usize, NearHash>,
        walk: &Walk,
    ) -> Result<Nodes, AllocError>
        requires marks { length walk.now.on_cycle.items ≡ length walk.now.nodes.items }
        ensures { IfOk result (λ nodes. items_of nodes ≡ unknown.now.keys ++ filter_map (found_at self.now.nodes) (picks known.now.keys walk.now.nodes.items walk.now.on_cycle.items)) }
    {
        let mut nodes = Nodes::of(self.alloc, unknown.as_slice())?;
        let mut left = walk.nodes.len();
        'walk: while 0 < left {
            left -= 1;
            self.push_walked(&mut nodes, known, walk, left)?;
        }
        Ok(nodes)
    }

    // Adds the node at a place of the walk, where it is known and on no cycle.
    fn push_walked(
        &self,
        nodes: &mut Nodes,
        known: &IndexSet<usize, NearHash>,
        walk: &Walk,
        place: usize,
    ) -> Result<(), AllocError>
        requires place { place < length walk.now.nodes.items }
        requires marks { length walk.now.on_cycle.items ≡ length walk.now.nodes.items }
        ensures { OnOk result (items_of nodes.new ≡ items_of nodes.old ++ filter_map (found_at self.now.nodes) (pick known.now.keys (slice_index_or walk.now.nodes.items place 0) (slice_index_or walk.now.on_cycle.items place false))) }
    {
        let number = walk.nodes[place];
        let is_on_cycle = walk.on_cycle[place];
        if is_on_cycle || !has_number(known, number) {
            return Ok(());
        }
        self.push_node(nodes, number)
    }
}

// Whether the number is in the set.
fn has_number(set: &IndexSet<usize, NearHash>, number: usize) -> bool
    ensures { result ≡ plain.has number set.now.keys }
{
    set.contains(&number)
}

// What the walk says of a node, by its number: whether it is on a cycle.
fn flag_of(walk: &Walk, node: usize) -> bool
    requires marks { length walk.now.on_cycle.items ≡ length walk.now.nodes.items }
    requires once { AllPairs (λ a b. a ≢ b) walk.now.nodes.items }
    ensures { (i : ℕ) → i < length walk.now.nodes.items → slice_index_or walk.now.nodes.items i 0 ≡ node → result ≡ slice_index_or walk.now.on_cycle.items i false }
{
    'walk: for place in 0..walk.nodes.len() {
        if walk.nodes[place] == node {
            return walk.on_cycle[place];
        }
    }
    false
}
