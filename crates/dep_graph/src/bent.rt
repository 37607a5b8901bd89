// Which nodes a structural operation bends.
ghost use Rattle.std.specs.Prelude.{◌↔◌, ◌<◌, IsTrue, IfOk, OnOk};
ghost use Rattle.shift_core.specs.Sound.{IsSound};
ghost use Rattle.dep_graph.specs.Bent.{AreBent, Bends};
ghost use Rattle.dep_graph.specs.Graph.{links_of};
ghost use Rattle.dep_graph.specs.Nodes.{items_of};
ghost use Rattle.dep_graph.specs.internal.Nets.{links_in};
ghost use Rattle.dep_graph.specs.internal.BentNumbers.{AddsBentUsers, AreBentUsers};
ghost use Rattle.dep_graph.specs.internal.Numbers.{count_of, node_at};
ghost use Rattle.dep_graph.specs.internal.Touches.{AddsAll, AreInside};

use crate::graph::Graph;
use crate::net::Net;
use crate::node::Node;
use crate::nodes::Nodes;
use indexmap::IndexSet;
use near_hash::NearHash;
use shift_core::{Shift, bends_whole, is_bent, is_cut, moved_place};
use std::alloc::AllocError;

impl Graph {
    /// Each node, once, that is linked to a cell that the operation loses, or to a range that it loses, whose size it
    /// changes, in which it displaces lines, or which it cuts at the sheet's end; or to a whole range with whose block
    /// it does so, or across which it edits lines of its sheet. Costs a search for each run of the lines that the
    /// operation loses or displaces, and for each node that it touches, or that isn't inside its sheet, each whole range,
    /// on whichever sheet, and each node that is new since the last [`Graph::shift`], about the number of its users. Errs
    /// for want of memory.
    pub fn bent(&self, s: &Shift) -> Result<Nodes, AllocError>
        requires { IsSound s.now }
        ensures { IfOk result (λ nodes. AreBent s.now (links_of self.now) (items_of nodes)) }
    {
        self.net.bent(s)
    }
}

impl Net {
    // As [`Graph::bent`].
    fn bent(&self, s: &Shift) -> Result<Nodes, AllocError>
        requires { IsSound s.now }
        ensures { IfOk result (λ nodes. AreBent s.now (links_in self.now) (items_of nodes)) }
    {
        let found = self.touched(s)?;
        let users = self.bent_users(s, found.as_slice())?;
        let none = IndexSet::new(self.alloc);
        self.named(&none, users.as_slice())
    }

    // The numbers of the nodes that are linked to one of these that the operation bends.
    fn bent_users(
        &self,
        s: &Shift,
        found: &[usize],
    ) -> Result<IndexSet<usize, NearHash>, AllocError>
        requires sound { IsSound s.now }
        requires inside { AreInside self.now.nodes found.now }
        ensures { IfOk result (λ users. AreBentUsers s.now self.now found.now users.keys) }
    {
        let mut users = IndexSet::with_hasher(self.alloc, NearHash::new());
        'numbers: for number in found {
            self.add_bent_users(&mut users, s, *number)?;
        }
        Ok(users)
    }

    // Adds the numbers of the nodes that are linked to that of a number, where the operation bends it.
    fn add_bent_users(
        &self,
        users: &mut IndexSet<usize, NearHash>,
        s: &Shift,
        number: usize,
    ) -> Result<(), AllocError>
        requires sound { IsSound s.now }
        requires number { number < count_of self.now.nodes }
        ensures { OnOk result (AddsBentUsers s.now self.now number users.old.keys users.new.keys) }
    {
        if !self.bends(s, number) {
            return Ok(());
        }
        add_all(users, &self.links.users(number)?)
    }

    // Whether the operation bends the node of a number.
    fn bends(&self, s: &Shift, number: usize) -> bool
        requires sound { IsSound s.now }
        requires number { number < count_of self.now.nodes }
        ensures { IsTrue result ↔ Bends s.now (node_at self.now.nodes number) }
    {
        match self.nodes.node(number) {
            Some(node) => bends(s, node),
            None => false,
        }
    }
}

// Adds the numbers.
pub(crate) fn add_all(
    numbers: &mut IndexSet<usize, NearHash>,
    more: &[usize],
) -> Result<(), AllocError>
    ensures { OnOk result (AddsAll more.now numbers.old.keys numbers.new.keys) }
{
    'numbers: for number in more {
        numbers.insert(*number)?;
    }
    Ok(())
}

// Whether the operation bends the node.
fn bends(s: &Shift, node: Node) -> bool
    requires { IsSound s.now }
    ensures { IsTrue result ↔ Bends s.now node }
{
    match node {
        Node::Cell(at) => moved_place(s, at).is_none(),
        Node::Name { .. } => false,
        Node::Range(block) => is_bent(s, block) || is_cut(s, block),
        Node::Whole(whole) => bends_whole(s, whole),
    }
}
