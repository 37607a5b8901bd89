// Values that are taken along with a structural operation.
ghost use Rattle.std.specs.Prelude.{◌≡◌, ℕ, [], false, IfOk, List, OnOk};
ghost use Rattle.shift_core.specs.Sound.{IsSound};
ghost use Rattle.dep_graph.specs.Nodes.{has};
ghost use Rattle.dep_graph.specs.Shifted.{node_after};
ghost use Rattle.dep_graph.specs.declared.node.Node.{Node as NodeSeen};
ghost use Rattle.recalc_core.specs.Recalc.{kept_in, marks_in};
ghost use Rattle.marked_values.specs.Shifts.{is_moved_cell};
ghost use Rattle.kept_values.specs.Shifted.{moved_cell};
ghost use Rattle.kept_values.specs.internal.TakenAlong.{AddsTaken, AreMoved, with_some, with_taken};

use crate::sought::move_words;
use crate::values::Values;
use cell_addr::Place;
use dep_graph::Node;
use indexmap::IndexSet;
use recalc_core::Recalc;
use shift_core::{Form, Shift, destination, moved_block, moved_place, moved_whole};
use std::alloc::{AllocError, Global};
use std::mem;

impl Values {
    ghost use Rattle.kept_values.specs.Shifted.{FollowsOver, MarksOver};
    ghost use Rattle.kept_values.specs.Values.{asks_in, kept_in as kept_of, links_in, loses_in, marks_in as marks_of, seeks_in, unlinked_in};
    ghost use Rattle.kept_values.specs.internal.TakenAlong.{AreCarried, HasGathered};

    /// Takes the values along with a structural operation: links and values go along with their nodes, so that they follow the
    /// workbook after it where they followed the one before it. Marked are then the nodes that were, those whose formulas the
    /// operation bends or that ask where a reference is, and what is touched: each filled cell of a block that the operation moves
    /// and of where that goes, and each name of a dropped sheet. What was marked before but linked since needn't be linked once more.
    /// A formula that had lost a reference, or uses a word that finds no name, is noted to where it goes, and needn't be marked.
    ///
    /// For want of memory only a part goes along, and the values are of no more use. Costs what
    /// [`Graph::bent`](dep_graph::Graph::bent), [`Graph::shift`](dep_graph::Graph::shift) and [`Recalc::shift`] do, and a look-up
    /// or two for each node that is marked then, which each formula is that asks where a reference is, and for each formula that
    /// had lost one or uses a word that finds no name.
    pub fn shift(&mut self, s: &Shift, touched: &[Node]) -> Result<(), AllocError>
        requires { IsSound s.now }
        ensures follows { OnOk result (FollowsOver s.now touched.now self.old self.new) }
        ensures marks { OnOk result (MarksOver s.now touched.now self.old self.new) }
    {
        let bent = self.graph.bent(s)?;
        self.gather(touched, bent.items())?;
        self.move_losing(s)?;
        self.move_seeking(s)?;
        self.carry(s)
    }

    // Marks what is touched, what is bent and what asks where a reference is, of which none is noted any more.
    pub(crate) fn gather(&mut self, touched: &[Node], bent: &[Node]) -> Result<(), AllocError>
        ensures marks { OnOk result (HasGathered touched.now bent.now self.old (marks_of self.old) (marks_of self.new)) }
        ensures unlinked { OnOk result (HasGathered touched.now bent.now self.old (unlinked_in self.old) (unlinked_in self.new)) }
        ensures asking { OnOk result ((a : NodeSeen) → asks_in self.new a ≡ false) }
        ensures losing { loses_in self.new ≡ loses_in self.old }
        ensures seeking { seeks_in self.new ≡ seeks_in self.old }
        ensures links { links_in self.new ≡ links_in self.old }
        ensures kept { kept_of self.new ≡ kept_of self.old }
    {
        let asking = mem::replace(&mut self.noted.asking, IndexSet::new(self.alloc));
        self.mark_all(touched)?;
        self.mark_all(bent)?;
        self.mark_all(asking.as_slice())
    }

    // Notes the formulas that have lost a reference where the operation takes them.
    fn move_losing(&mut self, s: &Shift) -> Result<(), AllocError>
        requires { IsSound s.now }
        ensures moved { OnOk result (AreMoved s.now (loses_in self.old) (loses_in self.new)) }
        ensures asking { asks_in self.new ≡ asks_in self.old }
        ensures seeking { seeks_in self.new ≡ seeks_in self.old }
        ensures links { links_in self.new ≡ links_in self.old }
        ensures kept { kept_of self.new ≡ kept_of self.old }
        ensures marks { marks_of self.new ≡ marks_of self.old }
        ensures unlinked { unlinked_in self.new ≡ unlinked_in self.old }
    {
        self.noted.losing = moved_nodes(self.alloc, s, self.noted.losing.as_slice())?;
        Ok(())
    }

    // Notes the formulas with words that find no name where the operation takes them.
    pub(crate) fn move_seeking(&mut self, s: &Shift) -> Result<(), AllocError>
        requires { IsSound s.now }
        ensures moved { OnOk result ((word : List ℕ) → AreMoved s.now (seeks_in self.old word) (seeks_in self.new word)) }
        ensures asking { asks_in self.new ≡ asks_in self.old }
        ensures losing { loses_in self.new ≡ loses_in self.old }
        ensures links { links_in self.new ≡ links_in self.old }
        ensures kept { kept_of self.new ≡ kept_of self.old }
        ensures marks { marks_of self.new ≡ marks_of self.old }
        ensures unlinked { unlinked_in self.new ≡ unlinked_in self.old }
    {
        move_words(self.alloc, s, &mut self.noted.seeking)
    }

    // Takes links, values, marks and what is to be linked along with the operation; for want of memory only some of them.
    pub(crate) fn carry(&mut self, s: &Shift) -> Result<(), AllocError>
        requires { IsSound s.now }
        ensures carried { OnOk result (AreCarried s.now (links_in self.old) (kept_of self.old) (marks_of self.old) (unlinked_in self.old) self.new) }
        ensures asking { asks_in self.new ≡ asks_in self.old }
        ensures losing { loses_in self.new ≡ loses_in self.old }
        ensures seeking { seeks_in self.new ≡ seeks_in self.old }
    {
        let marked = Vec::from_slice(self.alloc, self.recalc.marks().items())?;
        self.unlinked = nodes_along(self.alloc, s, self.unlinked.as_slice())?;
        self.graph.shift(s)?;
        self.recalc.shift(s)?;
        take_all_along(&mut self.recalc, s, &marked)
    }
}

// The nodes where the operation takes them; those that it loses are gone.
pub(crate) fn moved_nodes(
    alloc: Global,
    s: &Shift,
    nodes: &[Node],
) -> Result<IndexSet<Node>, AllocError>
    requires { IsSound s.now }
    ensures { IfOk result (λ moved. AreMoved s.now (λ a. has a nodes.now) (λ a. has a moved.keys)) }
{
    let mut moved = IndexSet::new(alloc);
    'nodes: for node in nodes {
        add_some(moved_node(s, *node), &mut moved)?;
    }
    Ok(moved)
}

// Adds the node to the set, if there is one.
fn add_some(a: Option<Node>, nodes: &mut IndexSet<Node>) -> Result<(), AllocError>
    ensures { OnOk result (nodes.new.keys ≡ with_some a nodes.old.keys) }
{
    if let Some(node) = a {
        nodes.insert(node)?;
    }
    Ok(())
}

// The nodes where the operation takes them, and each cell of a moved block where it was too.
fn nodes_along(alloc: Global, s: &Shift, nodes: &[Node]) -> Result<IndexSet<Node>, AllocError>
    requires { IsSound s.now }
    ensures { IfOk result (λ along. AddsTaken s.now nodes.now [] along.keys) }
{
    let mut along = IndexSet::new(alloc);
    'nodes: for node in nodes {
        add_along(s, *node, &mut along)?;
    }
    Ok(along)
}

// Adds the node so.
fn add_along(s: &Shift, a: Node, along: &mut IndexSet<Node>) -> Result<(), AllocError>
    requires { IsSound s.now }
    ensures { OnOk result (along.new.keys ≡ with_taken s.now a along.old.keys) }
{
    add_some(moved_node(s, a), along)?;
    add_some(moved_cell(s, a), along)
}

// Marks each of the nodes where the operation takes it, and a cell of a moved block where it was too.
fn take_all_along(recalc: &mut Recalc, s: &Shift, nodes: &[Node]) -> Result<(), AllocError>
    requires { IsSound s.now }
    ensures taken { OnOk result (AddsTaken s.now nodes.now (marks_in recalc.old) (marks_in recalc.new)) }
    ensures kept { kept_in recalc.new ≡ kept_in recalc.old }
{
    'nodes: for node in nodes {
        take_along(recalc, s, *node)?;
    }
    Ok(())
}

// Marks the node so.
fn take_along(recalc: &mut Recalc, s: &Shift, a: Node) -> Result<(), AllocError>
    requires { IsSound s.now }
    ensures taken { OnOk result (marks_in recalc.new ≡ with_taken s.now a (marks_in recalc.old)) }
    ensures kept { kept_in recalc.new ≡ kept_in recalc.old }
{
    mark_some(recalc, moved_node(s, a))?;
    mark_some(recalc, moved_cell(s, a))
}

// Marks the node, if there is one.
fn mark_some(recalc: &mut Recalc, a: Option<Node>) -> Result<(), AllocError>
    ensures marked { OnOk result (marks_in recalc.new ≡ with_some a (marks_in recalc.old)) }
    ensures kept { kept_in recalc.new ≡ kept_in recalc.old }
{
    match a {
        Some(node) => recalc.mark(node),
        None => Ok(()),
    }
}

// Where the operation moves the node; `None` where its place, its block or its whole range is lost.
fn moved_node(s: &Shift, a: Node) -> Option<Node>
    requires { IsSound s.now }
    ensures { result ≡ node_after s.now a }
{
    match a {
        Node::Cell(at) => Some(Node::Cell(moved_place(s, at)?)),
        Node::Name { .. } => Some(a),
        Node::Range(block) => Some(Node::Range(moved_block(s, block)?)),
        Node::Whole(whole) => Some(Node::Whole(moved_whole(s, whole)?)),
    }
}

// The node, if it is a cell of a block that the operation moves, or of where that goes.
fn moved_cell(s: &Shift, a: Node) -> Option<Node>
    requires { IsSound s.now }
    ensures { result ≡ moved_cell s.now a }
{
    match a {
        Node::Cell(at) => { if is_moved_cell(s, at) { Some(a) } else { None } }
        Node::Name { .. } => None,
        Node::Range(_) => None,
        Node::Whole(_) => None,
    }
}

// Whether the place is in a block that the operation moves, or where that goes.
fn is_moved_cell(s: &Shift, at: Place) -> bool
    requires { IsSound s.now }
    ensures { result ≡ is_moved_cell s.now at }
{
    match s.form() {
        Form::Lines { .. } => false,
        Form::Cells { source, to } => source.holds(at) || destination(source, to).holds(at),
        Form::Sheet { .. } => false,
    }
}
