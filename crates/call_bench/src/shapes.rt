// Large graphs of needs, as formulas of a workbook make them.
use cell_addr::{Block, Place, ROWS};
use dep_graph::{Graph, Node};
use std::alloc::AllocError;

// How many rows a rolling sum has, how many a column that is summed up, and how many sheets there are of many.
const ROLLED: u32 = 1_001;

const COLUMN: u32 = 5_000;

const SHEETS: u32 = 10;

// What the formulas of a graph read, by their number.
#[derive(Clone, Copy)]
pub(crate) enum Shape {
    // Each sums up the rows up to its own.
    Prefixes,
    // Each sums up so many rows from its own on.
    Rolling,
    // Each reads the two cells beside it, and one more sums all of them up.
    Invoice,
    // So for each of some sheets.
    Sheets,
    // Each sums up a column.
    Columns,
    // Each reads the one before it.
    Chain,
    // Each reads the one before it, and the first one reads the last one.
    Cycle,
}

impl Shape {
    // Links so many formulas.
    pub(crate) fn link_all(self, graph: &mut Graph, count: u32) -> Result<(), AllocError> {
        'formulas: for number in 0..count {
            self.link(graph, number)?;
        }
        self.close(graph, count)
    }

    // Links the formula of a number.
    fn link(self, graph: &mut Graph, number: u32) -> Result<(), AllocError> {
        match self {
            Shape::Prefixes => graph.link(cell(number, 1), &[rows(0, 0, number)]),
            Shape::Rolling => {
                let last = number.saturating_add(ROLLED - 1);
                graph.link(cell(number, 1), &[rows(0, number, last)])
            }
            Shape::Invoice => link_line(graph, 0, number),
            Shape::Sheets => {
                'sheets: for sheet in 0..SHEETS {
                    link_line(graph, sheet, number)?;
                }
                Ok(())
            }
            Shape::Columns => graph.link(cell(COLUMN, number), &[rows(number, 0, COLUMN - 1)]),
            Shape::Chain | Shape::Cycle => {
                graph.link(in_chain(number.saturating_add(1)), &[in_chain(number)])
            }
        }
    }

    // Links what stands behind all of so many formulas.
    fn close(self, graph: &mut Graph, count: u32) -> Result<(), AllocError> {
        match self {
            Shape::Invoice => link_total(graph, 0, count),
            Shape::Sheets => {
                'sheets: for sheet in 0..SHEETS {
                    link_total(graph, sheet, count)?;
                }
                Ok(())
            }
            Shape::Cycle => graph.link(in_chain(0), &[in_chain(count)]),
            _ => Ok(()),
        }
    }

    // A cell from which many formulas are reached where the shape has any such cell.
    pub(crate) fn mark(self) -> Node {
        match self {
            Shape::Rolling => cell(ROLLED - 1, 0),
            _ => cell(0, 0),
        }
    }
}

// Links a line of a sheet's invoice.
fn link_line(graph: &mut Graph, sheet: u32, row: u32) -> Result<(), AllocError> {
    graph.link(
        cell_on(sheet, row, 2),
        &[cell_on(sheet, row, 0), cell_on(sheet, row, 1)],
    )
}

// Links the sum of all lines of a sheet's invoice, which stands below them.
fn link_total(graph: &mut Graph, sheet: u32, lines: u32) -> Result<(), AllocError> {
    graph.link(
        cell_on(sheet, lines, 2),
        &[rows_on(sheet, 2, 0, lines.saturating_sub(1))],
    )
}

// A cell of the first sheet.
fn cell(row: u32, col: u32) -> Node {
    cell_on(0, row, col)
}

fn cell_on(sheet: u32, row: u32, col: u32) -> Node {
    Node::Cell(Place { sheet, row, col })
}

// Rows of a column of the first sheet.
fn rows(col: u32, top: u32, bottom: u32) -> Node {
    rows_on(0, col, top, bottom)
}

fn rows_on(sheet: u32, col: u32, top: u32, bottom: u32) -> Node {
    Node::Range(Block {
        sheet,
        top,
        left: col,
        bottom,
        right: col,
    })
}

// The cells of a chain go down one column after another.
fn in_chain(number: u32) -> Node {
    cell(number % ROWS, number / ROWS)
}
