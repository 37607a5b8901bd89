// Kept values, marks and kept summaries over structural operations.
ghost use Rattle.std.specs.Prelude.{◌≡◌, ◌↔◌, ℕ, if◌then◌else◌, IfOk, IsTrue, None, OnErr, OnOk, Some};
ghost use Rattle.std.specs.HashMap as hash;
ghost use Rattle.cell_addr.specs.declared.place.Place.{Place};
ghost use Rattle.cell_value.specs.declared.scalar.Scalar.{Scalar};
ghost use Rattle.shift_core.specs.Form.{form_of};
ghost use Rattle.shift_core.specs.Sound.{IsSound};
ghost use Rattle.dep_graph.specs.Laws.{IsNoRange};
ghost use Rattle.dep_graph.specs.Nodes.{has, same_node};
ghost use Rattle.dep_graph.specs.Walks.{IsOnce};
ghost use Rattle.dep_graph.specs.declared.node.Node.{Node};
ghost use Rattle.dep_graph.specs.declared.node.Node.TheVariants.{Cell, Name};
ghost use Rattle.range_table.specs.Ranges.{table_of};
ghost use Rattle.range_table.specs.Shifted.{TakesValues};
ghost use Rattle.range_table.specs.Table.{AreFolds};
ghost use Rattle.recalc_core.specs.Moves.{carried_kept};
ghost use Rattle.recalc_core.specs.Recalc.{kept_in, marks_in, merged_in};
ghost use Rattle.recalc_core.specs.Shifted.{drops_scope, from_over};
ghost use Rattle.recalc_core.specs.internal.KeptTables.{AreSame, is_of_scope};
ghost use Rattle.recalc_core.specs.internal.KeptValues.{kept_by};
ghost use Rattle.recalc_core.specs.internal.Marks.{marked_by};
ghost use Rattle.recalc_core.specs.internal.Gone.{AreGone, gone_over, with_gone};

use crate::kept::{KeptValues, is_inside};
use crate::marks::Marks;
use crate::recalc::Recalc;
use cell_addr::Place;
use cell_value::Scalar;
use dep_graph::Node;
use range_table::Ranges;
use shift_core::{Form, Shift, moved_place};
use std::alloc::{AllocError, Global};
use std::collections::HashMap;

impl Recalc {
    /// Takes values, marks and summaries along with a structural operation: each place and each name keeps what the one had
    /// that it was, and is marked where that one was; nothing is kept of one that was nowhere, and it isn't marked. Marks of
    /// ranges go. A summary moves with its block, as [`Ranges::shift`](range_table::Ranges::shift) says.
    ///
    /// For want of memory all is as it was, unless the summaries alone lack it: then these are given up. Costs what
    /// [`Grid::apply`](grid_store::Grid::apply) does for the values, the number of the marks and what the shift of the
    /// summaries does; a dropped sheet costs the number of names too.
    pub fn shift(&mut self, s: &Shift) -> Result<(), AllocError>
        requires { IsSound s.now }
        ensures kept { OnOk result ((a : Node) → IsNoRange a → kept_in self.new a ≡ carried_kept (from_over s.now) (kept_in self.old) a) }
        ensures marks { OnOk result ((a : Node) → IsTrue (has a (marks_in self.new)) ↔ ((b : Node) × IsTrue (has b (marks_in self.old)) × (from_over s.now a ≡ Some b))) }
        ensures once { OnOk result (IsOnce (marks_in self.new)) }
        ensures merged { merged_in self.new ≡ merged_in self.old }
        ensures kept_err { OnErr result ((a : Node) → kept_in self.new a ≡ kept_in self.old a) }
        ensures marks_err { OnErr result (marks_in self.new ≡ marks_in self.old) }
    {
        let marks = gone_marks(self.alloc, self.marks.list.items(), s)?;
        self.kept.shift(s)?;
        self.marks = marks;
        shift_summaries(&mut self.ranges, s);
        Ok(())
    }
}

// Takes the summaries along with the operation. Where there is no memory for that, all are given up.
fn shift_summaries(ranges: &mut Ranges, s: &Shift)
    requires { IsSound s.now }
    ensures right { (before after : Place → Scalar) → TakesValues s.now before after → AreFolds before (table_of ranges.old).kept → AreFolds after (table_of ranges.new).kept }
    ensures merged { (table_of ranges.new).merged ≡ (table_of ranges.old).merged }
{
    match ranges.shift(s) {
        Ok(()) => {}
        Err(_) => ranges.clear(),
    }
}

// Marks of what the nodes have become.
fn gone_marks(alloc: Global, nodes: &[Node], s: &Shift) -> Result<Marks, AllocError>
    requires { IsSound s.now }
    ensures marks { IfOk result (λ marks. AreGone s.now nodes.now (marked_by marks)) }
    ensures once { IfOk result (λ marks. IsOnce (marked_by marks)) }
{
    let mut marks = Marks::new(alloc)?;
    'nodes: for node in nodes {
        marks.follow(*node, s)?;
    }
    Ok(marks)
}

impl Marks {
    // Marks what the node has become, if it has become one.
    fn follow(&mut self, a: Node, s: &Shift) -> Result<(), AllocError>
        requires { IsSound s.now }
        ensures { OnOk result (marked_by self.new ≡ with_gone (gone_over s.now a) (marked_by self.old)) }
    {
        match gone_over(a, s) {
            Some(after) => self.add(after),
            None => Ok(()),
        }
    }
}

// What the node becomes over the operation; `None` where it is lost, and of a range.
fn gone_over(a: Node, s: &Shift) -> Option<Node>
    requires { IsSound s.now }
    ensures { result ≡ gone_over s.now a }
{
    match a {
        Node::Cell(at) => gone_place(at, s),
        Node::Name { scope, .. } => { if drops_scope(s, scope) { None } else { Some(a) } }
        Node::Range(_) => None,
        Node::Whole(_) => None,
    }
}

// What a place becomes.
fn gone_place(at: Place, s: &Shift) -> Option<Node>
    requires { IsSound s.now }
    ensures { result ≡ gone_over s.now (Cell at) }
{
    if is_inside(at) {
        match moved_place(s, at) {
            Some(after) => Some(Node::Cell(after)),
            None => None,
        }
    } else {
        None
    }
}

// Whether the names of this scope go with their sheet.
fn drops_scope(s: &Shift, scope: u32) -> bool
    ensures { result ≡ drops_scope (form_of s.now) scope }
{
    match s.form() {
        Form::Lines { .. } => false,
        Form::Cells { .. } => false,
        Form::Sheet { sheet } => scope == sheet,
    }
}

impl KeptValues {
    // Takes the values along with the operation. For want of memory all is as it was.
    fn shift(&mut self, s: &Shift) -> Result<(), AllocError>
        requires { IsSound s.now }
        ensures ok { OnOk result ((a : Node) → IsNoRange a → kept_by self.new a ≡ carried_kept (from_over s.now) (kept_by self.old) a) }
        ensures err { OnErr result (AreSame (kept_by self.old) (kept_by self.new)) }
    {
        self.cells.apply(s)?;
        self.beyond.clear();
        drop_names(&mut self.names, s);
        Ok(())
    }
}

// Keeps nothing any more of the names that go with their sheet.
fn drop_names(names: &mut HashMap<Node, Scalar>, s: &Shift)
    ensures { (scope word : ℕ) → hash.get same_node names.new (Name scope word) ≡ (if drops_scope (form_of s.now) scope then None else hash.get same_node names.old (Name scope word)) }
{
    match s.form() {
        Form::Lines { .. } => {}
        Form::Cells { .. } => {}
        Form::Sheet { sheet } => drop_scope(names, sheet),
    }
}

// Keeps nothing any more of the names of this scope.
fn drop_scope(names: &mut HashMap<Node, Scalar>, scope: u32)
    ensures { (a : Node) → hash.get same_node names.new a ≡ (if is_of_scope scope a then None else hash.get same_node names.old a) }
{
    names.retain(|node, _| !is_of_scope(*node, scope));
}

// Whether the node is a name of this scope.
fn is_of_scope(a: Node, scope: u32) -> bool
    ensures { result ≡ is_of_scope scope a }
{
    match a {
        Node::Cell(_) => false,
        Node::Name { scope: own, .. } => own == scope,
        Node::Range(_) => false,
        Node::Whole(_) => false,
    }
}
