// The nodes of a session's workbook.
ghost use Rattle.std.specs.Prelude.{◌≡◌, ◌++◌, true, Some, IfOk, IsTrue, OnOk, map};
ghost use Rattle.book_model.specs.Answers.{valued};
ghost use Rattle.book_values.specs.Workbook.{Node as NodeSeen};
ghost use Rattle.dep_graph.specs.Nodes.{has, items_of};
ghost use Rattle.dep_graph.specs.declared.node.Node.{Node as NodeKept};
ghost use Rattle.name_table.specs.Named.{words_of};
ghost use Rattle.recalc_core.specs.Kept.{stands};
ghost use Rattle.recalc_core.specs.Laws.{AreKnown};
ghost use Rattle.recalc_core.specs.Nodes.{AreNumbered, node_at};
ghost use Rattle.kept_steps.specs.internal.GivenCell.{cell_node, name_node};

use crate::session::Session;
use cell_addr::{NO_SHEET, Place};
use dep_graph::{Node, Nodes};
use grid_store::Cell;
use name_table::NameKey;
use std::alloc::AllocError;

impl Session {
    ghost use Rattle.kept_steps.specs.Session.{state_of};

    /// A law, and no work: no word of the session's names has two numbers, and each name is a node.
    pub fn names_are_nodes(&self)
        ensures { AreNumbered (words_of self.now.book.names) (valued (state_of self.now).book).names }
    {}

    /// The nodes of all filled cells and of all names, in no order that is told. Costs their number.
    pub fn nodes(&self) -> Result<Nodes, AllocError>
        ensures all { IfOk result (λ nodes. (a : NodeKept) (x : NodeSeen) → node_at (words_of self.now.book.names) a ≡ Some x → stands (valued (state_of self.now).book) x ≡ true → IsTrue (has a (items_of nodes))) }
        ensures known { IfOk result (λ nodes. AreKnown (words_of self.now.book.names) (items_of nodes)) }
    {
        let cells = self.book.grid.all()?;
        let names = self.book.names.all()?;
        let mut nodes = Nodes::new(self.book.alloc)?;
        add_cells(&mut nodes, cells.items())?;
        add_names(&mut nodes, &names)?;
        Ok(nodes)
    }
}

// Adds the nodes of cells.
fn add_cells(nodes: &mut Nodes, cells: &[(Place, Cell)]) -> Result<(), AllocError>
    ensures { OnOk result (items_of nodes.new ≡ items_of nodes.old ++ map cell_node cells.now) }
{
    'cells: for (at, _) in cells {
        nodes.push(Node::Cell(*at))?;
    }
    Ok(())
}

// Adds the nodes of names.
fn add_names(nodes: &mut Nodes, names: &[(NameKey, u64)]) -> Result<(), AllocError>
    ensures { OnOk result (items_of nodes.new ≡ items_of nodes.old ++ map (λ e. name_node e.0) names.now) }
{
    'names: for (key, _) in names {
        nodes.push(Node::Name {
            scope: key.scope.unwrap_or(NO_SHEET),
            word: key.word,
        })?;
    }
    Ok(())
}
