// Kept values.
ghost use Rattle.std.specs.Prelude.{◌≡◌, true, if◌then◌else◌, IfOk, OnErr, OnOk, None, Some};
ghost use Rattle.std.specs.HashMap as hash;
ghost use Rattle.std.specs.Option.{option_copied};
ghost use Rattle.calc_eval.specs.Filled.{AreFilled, seen_cells, shown_by};
ghost use Rattle.calc_terms.specs.Cells.{cells_in, fits};
ghost use Rattle.dep_graph.specs.Nodes.{same_node};
ghost use Rattle.dep_graph.specs.declared.node.Node.{Node};
ghost use Rattle.dep_graph.specs.declared.node.Node.TheVariants.{Cell};
ghost use Rattle.recalc_core.specs.Shifted.{is_inside};
ghost use Rattle.recalc_core.specs.internal.KeptTables.{AreSame, IsPut};

use cell_addr::{Block, Place};
use cell_value::Scalar;
use dep_graph::Node;
use grid_store::Grid;
use std::alloc::{AllocError, Global};
use std::collections::HashMap;

// A finite map from nodes to values.
pub(crate) struct KeptValues {
    // Those of places within the limits of a sheet.
    pub(crate) cells: Grid<Scalar>,
    // Those of places beyond them.
    pub(crate) beyond: HashMap<Node, Scalar>,
    // Those of names.
    pub(crate) names: HashMap<Node, Scalar>,
}

// Written out, so that whoever drops one calls one function.
impl Drop for KeptValues {
    fn drop(self) {
        let KeptValues {
            cells: _cells,
            beyond: _beyond,
            names: _names,
        } = self;
    }
}

impl KeptValues {
    ghost use Rattle.recalc_core.specs.internal.KeptValues.{kept_by};
    ghost use Rattle.recalc_core.specs.internal.Seen.{shown_at};

    // Nothing is kept.
    pub(crate) fn new(alloc: Global) -> Result<KeptValues, AllocError>
        ensures { IfOk result (λ kept. (a : Node) → kept_by kept a ≡ None) }
    {
        Ok(KeptValues {
            cells: Grid::new(alloc)?,
            beyond: HashMap::new(alloc),
            names: HashMap::new(alloc),
        })
    }

    // What is kept of the node.
    pub(crate) fn get(&self, a: Node) -> Option<&Scalar>
        ensures { option_copied result ≡ kept_by self.now a }
    {
        match a {
            Node::Cell(at) => self.cell(at),
            Node::Name { .. } => self.names.get(&a),
            Node::Range(_) => self.names.get(&a),
            Node::Whole(_) => self.names.get(&a),
        }
    }

    // What is kept of the place.
    fn cell(&self, at: Place) -> Option<&Scalar>
        ensures { option_copied result ≡ kept_by self.now (Cell at) }
    {
        if is_inside(at) {
            self.cells.cell(at)
        } else {
            self.beyond.get(&Node::Cell(at))
        }
    }

    // Keeps the value of the node, in place of what was kept of it. For want of memory all is as it was.
    pub(crate) fn put(&mut self, a: Node, value: Scalar) -> Result<(), AllocError>
        ensures ok { OnOk result (IsPut a (Some value) (kept_by self.old) (kept_by self.new)) }
        ensures err { OnErr result (AreSame (kept_by self.old) (kept_by self.new)) }
    {
        match a {
            Node::Cell(at) => self.put_cell(at, value),
            Node::Name { .. } => insert(&mut self.names, a, value),
            Node::Range(_) => insert(&mut self.names, a, value),
            Node::Whole(_) => insert(&mut self.names, a, value),
        }
    }

    // Keeps the value of the place.
    fn put_cell(&mut self, at: Place, value: Scalar) -> Result<(), AllocError>
        ensures ok { OnOk result (IsPut (Cell at) (Some value) (kept_by self.old) (kept_by self.new)) }
        ensures err { OnErr result (AreSame (kept_by self.old) (kept_by self.new)) }
    {
        if is_inside(at) {
            self.cells.put(at, value)?;
            Ok(())
        } else {
            insert(&mut self.beyond, Node::Cell(at), value)
        }
    }

    // Keeps nothing of the node any more.
    pub(crate) fn remove(&mut self, a: Node)
        ensures { IsPut a None (kept_by self.old) (kept_by self.new) }
    {
        match a {
            Node::Cell(at) => self.remove_cell(at),
            Node::Name { .. } => remove(&mut self.names, a),
            Node::Range(_) => remove(&mut self.names, a),
            Node::Whole(_) => remove(&mut self.names, a),
        }
    }

    // Keeps nothing of the place any more.
    fn remove_cell(&mut self, at: Place)
        ensures { IsPut (Cell at) None (kept_by self.old) (kept_by self.new) }
    {
        if is_inside(at) {
            self.cells.take(at);
        } else {
            remove(&mut self.beyond, Node::Cell(at));
        }
    }

    // What is kept of the places of a block within the limits of a sheet, in the order of these places. Costs what
    // [`Grid::listed_refs`] does.
    pub(crate) fn listed(&self, block: Block) -> Result<Vec<(Place, &Scalar)>, AllocError>
        requires { fits block ≡ true }
        ensures filled { IfOk result (λ list. AreFilled block (seen_cells list.items)) }
        ensures shown { IfOk result (λ list. cells_in (shown_by (seen_cells list.items)) block ≡ cells_in (shown_at (kept_by self.now)) block) }
    {
        self.cells.listed_refs(block)
    }

    // Equal values.
    pub(crate) fn copied(&self, alloc: Global) -> Result<KeptValues, AllocError>
        ensures { IfOk result (λ copy. AreSame (kept_by self.now) (kept_by copy)) }
    {
        Ok(KeptValues {
            cells: self.cells.copied()?,
            beyond: copied_values(alloc, &self.beyond)?,
            names: copied_values(alloc, &self.names)?,
        })
    }
}

// Whether the place is within the limits of a sheet.
pub(crate) fn is_inside(at: Place) -> bool
    ensures { result ≡ is_inside at }
{
    at.inside()
}

// Keeps the value under the node. For want of memory all is as it was.
fn insert(values: &mut HashMap<Node, Scalar>, a: Node, value: Scalar) -> Result<(), AllocError>
    ensures ok { OnOk result (IsPut a (Some value) (hash.get same_node values.old) (hash.get same_node values.new)) }
    ensures err { OnErr result (AreSame (hash.get same_node values.old) (hash.get same_node values.new)) }
{
    match values.insert(a, value) {
        Ok(_) => Ok(()),
        Err(_) => Err(AllocError),
    }
}

// Keeps nothing under the node any more.
fn remove(values: &mut HashMap<Node, Scalar>, a: Node)
    ensures { IsPut a None (hash.get same_node values.old) (hash.get same_node values.new) }
{
    values.remove(&a);
}

// Equal values under the same nodes.
fn copied_values(
    alloc: Global,
    values: &HashMap<Node, Scalar>,
) -> Result<HashMap<Node, Scalar>, AllocError>
    ensures { IfOk result (λ copy. AreSame (hash.get same_node values.now) (hash.get same_node copy)) }
{
    let _once = values.len();
    let mut copy = HashMap::new(alloc);
    'values: for (node, value) in values {
        insert(&mut copy, *node, value.copy(alloc)?)?;
    }
    Ok(copy)
}
