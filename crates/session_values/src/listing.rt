// The nodes that structural operations of a session touch.
ghost use Rattle.std.specs.Prelude.{◌≡◌, ◌≤◌, ◌&&◌, ◌||◌, ◌++◌, ℕ, true, [], IfOk, IfSome, IsSome, IsTrue, List, OnOk, Some, is_some, length, map, slice_get};
ghost use Rattle.cell_addr.specs.Place.{IsBlockInside};
ghost use Rattle.cell_addr.specs.declared.place.Place.{Place as PlaceSeen};
ghost use Rattle.shift_core.specs.Carried as carrying;
ghost use Rattle.shift_core.specs.Sound.{IsSound};
ghost use Rattle.book_values.specs.Workbook.{Node as BookNode};
ghost use Rattle.dep_graph.specs.Nodes.{has, items_of};
ghost use Rattle.dep_graph.specs.declared.node.Node.{Node as NodeSeen};
ghost use Rattle.dep_graph.specs.declared.node.Node.TheVariants as kinds;
ghost use Rattle.recalc_core.specs.Kept.{stands};
ghost use Rattle.recalc_core.specs.Laws.{AreKnown};
ghost use Rattle.recalc_core.specs.Nodes.{node_at};
ghost use Rattle.kept_steps.specs.Turned.{is_replaced, replaced_of, to_undo};
ghost use Rattle.kept_values.specs.Shifted.{HasTouched, may_touch};
ghost use Rattle.session_values.specs.Following.{book_of, words_in};
ghost use Rattle.session_values.specs.Shifting.{is_replaced_cell};
ghost use Rattle.session_values.specs.internal.Listed.{AreAdded, cell_node, filled_in, is_moved_node, is_name_below, is_name_of, is_node_in, is_node_in_row, with_named};

use cell_addr::{Block, Place};
use dep_graph::{Node, Nodes};
use grid_store::Cell;
use kept_steps::Session;
use shift_core::{Form, Shift, destination};
use std::alloc::{AllocError, Global};

/// The nodes that a structural operation touches in the session's workbook, beside what links tell: each filled cell of a block
/// that it moves and of where that goes, and each name of a dropped sheet; none, where it is an operation on lines.
///
/// Costs what [`Grid::listed`](grid_store::Grid::listed) does for both blocks; where a sheet is dropped, the number of all
/// filled cells and of all names.
pub fn touched_by(session: &Session, s: &Shift) -> Result<Nodes, AllocError>
    requires { IsSound s.now }
    ensures touched { IfOk result (λ nodes. HasTouched s.now (book_of session.now) (words_in session.now) (items_of nodes)) }
    ensures known { IfOk result (λ nodes. AreKnown (words_in session.now) (items_of nodes)) }
    ensures only { IfOk result (λ nodes. (a : NodeSeen) → IsTrue (has a (items_of nodes)) → may_touch s.now a ≡ true) }
{
    match s.form() {
        Form::Lines { .. } => Nodes::new(session.book.alloc),
        Form::Cells { source, to } => moved_cells(session, source, to),
        Form::Sheet { sheet } => sheet_names(session, sheet),
    }
}

/// The cells that [`Session::undo`] brings back, where the step is one change: each that the step lists as replaced or removed. None,
/// where it isn't. Costs their number.
pub fn restored_by(session: &Session) -> Result<Nodes, AllocError>
    ensures listed { IfOk result (λ nodes. (p : PlaceSeen) → IsSome (replaced_of (to_undo session.now)) → is_replaced (to_undo session.now) p ≡ true → IsTrue (has (kinds.Cell p) (items_of nodes))) }
    ensures known { IfOk result (λ nodes. (words : List (List ℕ)) → AreKnown words (items_of nodes)) }
    ensures only { IfOk result (λ nodes. (a : NodeSeen) → IsTrue (has a (items_of nodes)) → is_replaced_cell (to_undo session.now) a ≡ true) }
{
    match session.cells_removed() {
        Some(cells) => cell_nodes(session.book.alloc, cells),
        None => Nodes::new(session.book.alloc),
    }
}

// The nodes of cells.
pub(crate) fn cell_nodes(alloc: Global, cells: &[(Place, Cell)]) -> Result<Nodes, AllocError>
    ensures { IfOk result (λ nodes. items_of nodes ≡ map cell_node cells.now) }
{
    let mut nodes = Nodes::new(alloc)?;
    add_cells(cells, &mut nodes)?;
    Ok(nodes)
}

// The filled cells of a block that is moved and of where it goes.
fn moved_cells(session: &Session, source: Block, to: Place) -> Result<Nodes, AllocError>
    requires { IsBlockInside (carrying.destination source to) }
    ensures { IfOk result (λ nodes. items_of nodes ≡ filled_in session.now source ++ filled_in session.now (carrying.destination source to)) }
{
    let mut nodes = Nodes::new(session.book.alloc)?;
    add_filled(session, source, &mut nodes)?;
    add_filled(session, destination(source, to), &mut nodes)?;
    Ok(nodes)
}

// The nodes of all places of a block that is moved and of where it goes; `None`, where the block has more places than the workbook has
// filled cells.
pub(crate) fn moved_places(
    session: &Session,
    source: Block,
    to: Place,
) -> Result<Option<Nodes>, AllocError>
    requires source { IsBlockInside source }
    requires destination { IsBlockInside (carrying.destination source to) }
    ensures { IfOk result (λ found. IfSome found (λ nodes. AreAdded (is_moved_node source to) [] (items_of nodes))) }
{
    if source.height().saturating_mul(source.width()) > session.book.grid.filled() {
        return Ok(None);
    }
    let mut nodes = Nodes::new(session.book.alloc)?;
    add_places(source, &mut nodes)?;
    add_places(destination(source, to), &mut nodes)?;
    Ok(Some(nodes))
}

// Adds the nodes of all places of a block.
fn add_places(area: Block, nodes: &mut Nodes) -> Result<(), AllocError>
    requires { IsBlockInside area }
    ensures { OnOk result (AreAdded (is_node_in area) (items_of nodes.old) (items_of nodes.new)) }
{
    'rows: for row in area.top..area.bottom + 1 {
        add_row(area, row, nodes)?;
    }
    Ok(())
}

// Adds the nodes of the places of one row of a block.
fn add_row(area: Block, row: u32, nodes: &mut Nodes) -> Result<(), AllocError>
    requires block { IsBlockInside area }
    requires row { (area.top ≤ row) × (row ≤ area.bottom) }
    ensures { OnOk result (AreAdded (is_node_in_row area row) (items_of nodes.old) (items_of nodes.new)) }
{
    'cols: for col in area.left..area.right + 1 {
        nodes.push(Node::Cell(Place {
            sheet: area.sheet,
            row,
            col,
        }))?;
    }
    Ok(())
}

// Adds the filled cells of a block.
fn add_filled(session: &Session, area: Block, nodes: &mut Nodes) -> Result<(), AllocError>
    ensures { OnOk result (items_of nodes.new ≡ items_of nodes.old ++ filled_in session.now area) }
{
    let cells = session.book.grid.listed(area)?;
    add_cells(cells.items(), nodes)
}

// Adds the nodes of cells.
fn add_cells(cells: &[(Place, Cell)], nodes: &mut Nodes) -> Result<(), AllocError>
    ensures { OnOk result (items_of nodes.new ≡ items_of nodes.old ++ map cell_node cells.now) }
{
    'cells: for (at, _) in cells {
        nodes.push(Node::Cell(*at))?;
    }
    Ok(())
}

// The names of a sheet.
fn sheet_names(session: &Session, sheet: u32) -> Result<Nodes, AllocError>
    ensures all { IfOk result (λ names. (a : NodeSeen) (x : BookNode) → node_at (words_in session.now) a ≡ Some x → stands (book_of session.now) x ≡ true → is_name_of sheet a ≡ true → IsTrue (has a (items_of names))) }
    ensures known { IfOk result (λ names. AreKnown (words_in session.now) (items_of names)) }
    ensures only { IfOk result (λ names. (a : NodeSeen) → IsTrue (has a (items_of names)) → is_name_of sheet a ≡ true) }
{
    let nodes = session.nodes()?;
    named(session.book.alloc, nodes.items(), sheet)
}

// Those of the nodes that are names of the sheet.
fn named(alloc: Global, nodes: &[Node], sheet: u32) -> Result<Nodes, AllocError>
    ensures { IfOk result (λ names. (a : NodeSeen) → has a (items_of names) ≡ (is_name_of sheet a && has a nodes.now)) }
{
    let mut names = Nodes::new(alloc)?;
    'nodes: for node in nodes {
        add_named(*node, sheet, &mut names)?;
    }
    Ok(names)
}

// Adds the node, if it is a name of the sheet.
fn add_named(a: Node, sheet: u32, names: &mut Nodes) -> Result<(), AllocError>
    ensures { OnOk result (items_of names.new ≡ with_named sheet a (items_of names.old)) }
{
    match a {
        Node::Cell(_) => Ok(()),
        Node::Name { scope, .. } => {
            if scope == sheet {
                names.push(a)
            } else {
                Ok(())
            }
        }
        Node::Range(_) => Ok(()),
        Node::Whole(_) => Ok(()),
    }
}

// The nodes of all names that a sheet can have, of each word one, whether there are such names or not.
pub(crate) fn scope_nodes(session: &Session, sheet: u32) -> Result<Nodes, AllocError>
    ensures { IfOk result (λ nodes. (a : NodeSeen) → has a (items_of nodes) ≡ is_name_below sheet (length (words_in session.now)) a) }
{
    let mut nodes = Nodes::new(session.book.alloc)?;
    'words: while is_word(session, next_word(&nodes)) {
        nodes.push(Node::Name {
            scope: sheet,
            word: next_word(&nodes),
        })?;
    }
    Ok(nodes)
}

// Whether a word of the session's names has the number.
fn is_word(session: &Session, word: u64) -> bool
    ensures { result ≡ is_some (slice_get (words_in session.now) word) }
{
    session.book.names.spelling(word).is_some()
}

// The number of the word behind those whose names are listed.
fn next_word(nodes: &Nodes) -> u64
    ensures { result ≡ length (items_of nodes.now) }
{
    nodes.items().len() as u64
}

// What can come back of a dropped sheet: these cells, and all names that it can have.
pub(crate) fn sheet_nodes(
    session: &Session,
    sheet: u32,
    cells: &[(Place, Cell)],
) -> Result<Nodes, AllocError>
    ensures { IfOk result (λ nodes. (a : NodeSeen) → has a (items_of nodes) ≡ (is_name_below sheet (length (words_in session.now)) a || has a (map cell_node cells.now))) }
{
    let mut nodes = scope_nodes(session, sheet)?;
    add_cells(cells, &mut nodes)?;
    Ok(nodes)
}
