// Small graphs whose answers are plain.
use crate::both::{are_same, go_on_with_a_copy, nodes};
use cell_addr::{Axis, Block, Place, Whole};
use dep_graph::{Graph, Node};
use shift_core::{Shift, sound};
use std::alloc::{AllocError, Global};

// Cells of the first sheet, by their addresses.
const A1: Node = Node::Cell(Place {
    sheet: 0,
    row: 0,
    col: 0,
});

const A2: Node = Node::Cell(Place {
    sheet: 0,
    row: 1,
    col: 0,
});

const A3: Node = Node::Cell(Place {
    sheet: 0,
    row: 2,
    col: 0,
});

const A5: Node = Node::Cell(Place {
    sheet: 0,
    row: 4,
    col: 0,
});

const A9: Node = Node::Cell(Place {
    sheet: 0,
    row: 8,
    col: 0,
});

const B1: Node = Node::Cell(Place {
    sheet: 0,
    row: 0,
    col: 1,
});

const C1: Node = Node::Cell(Place {
    sheet: 0,
    row: 0,
    col: 2,
});

const C2: Node = Node::Cell(Place {
    sheet: 0,
    row: 1,
    col: 2,
});

const C3: Node = Node::Cell(Place {
    sheet: 0,
    row: 2,
    col: 2,
});

const D1: Node = Node::Cell(Place {
    sheet: 0,
    row: 0,
    col: 3,
});

const E1: Node = Node::Cell(Place {
    sheet: 0,
    row: 0,
    col: 4,
});

// The first rows of its first column.
const A1_TO_A5: Node = Node::Range(Block {
    sheet: 0,
    top: 0,
    left: 0,
    bottom: 4,
    right: 0,
});

const A1_TO_A6: Node = Node::Range(Block {
    sheet: 0,
    top: 0,
    left: 0,
    bottom: 5,
    right: 0,
});

// A cell and a range of the second sheet.
const OTHER_A3: Node = Node::Cell(Place {
    sheet: 1,
    row: 2,
    col: 0,
});

const OTHER_A1_TO_A5: Node = Node::Range(Block {
    sheet: 1,
    top: 0,
    left: 0,
    bottom: 4,
    right: 0,
});

// All of its first two columns, and of its first two rows.
const COLUMNS_A_B: Node = Node::Whole(Whole {
    sheet: 0,
    axis: Axis::Cols,
    first: 0,
    last: 1,
});

const ROWS_1_2: Node = Node::Whole(Whole {
    sheet: 0,
    axis: Axis::Rows,
    first: 0,
    last: 1,
});

const ROW_1: Node = Node::Whole(Whole {
    sheet: 0,
    axis: Axis::Rows,
    first: 0,
    last: 0,
});

// A named expression.
const TOTAL: Node = Node::Name { scope: 0, word: 0 };

// Rows of the first sheet taken out.
const DELETE_FIRST: Shift = Shift::DeleteRows {
    sheet: 0,
    at: 0,
    count: 1,
};

const DELETE_THIRD: Shift = Shift::DeleteRows {
    sheet: 0,
    at: 2,
    count: 1,
};

const DELETE_SIXTH: Shift = Shift::DeleteRows {
    sheet: 0,
    at: 5,
    count: 1,
};

// A row put in beneath all of them.
const INSERT_NINTH: Shift = Shift::InsertRows {
    sheet: 0,
    at: 8,
    count: 1,
};

// A call, or an answer that is wanted.
#[derive(Clone, Copy)]
pub(crate) enum Step {
    // The node is linked to these.
    Link(Node, &'static [Node]),
    // The node is linked to none.
    Unlink(Node),
    // An operation is done.
    Shift(Shift),
    // The graph is from now on a copy of what it is.
    Copy,
    // A copy of the graph is kept.
    Keep,
    // Exactly these nodes are reached from the mark.
    Reach(Node, &'static [Node]),
    // Exactly these nodes are reached from the mark in the copy that was kept.
    ReachKept(Node, &'static [Node]),
    // A list of nodes has those that are put in.
    List(&'static [Node]),
    // The nodes of the first list have this order.
    Order(&'static [Node], &'static [Node]),
    // Whether the node is on a cycle.
    OnCycle(Node, bool),
    // The operation bends what exactly these nodes are linked to.
    Bent(Shift, &'static [Node]),
}

// Needs lead from a cell to others, and from one back to itself.
pub(crate) const NEEDS_LEAD_ON: [Step; 9] = [
    Step::Link(B1, &[A1]),
    Step::Link(C1, &[B1, TOTAL]),
    Step::Link(D1, &[D1, C1]),
    Step::Reach(A1, &[A1, B1, C1, D1]),
    Step::Reach(TOTAL, &[TOTAL, C1, D1]),
    Step::Reach(A2, &[A2]),
    Step::Order(&[D1, C1, A1, B1], &[A1, B1, C1]),
    Step::OnCycle(D1, true),
    Step::OnCycle(C1, false),
];

// A range needs its cells where some node is linked to it, also those that were never linked.
pub(crate) const USED_RANGES_NEED_THEIR_CELLS: [Step; 9] = [
    Step::Link(A1_TO_A5, &[B1]),
    Step::Reach(A3, &[A3]),
    Step::Link(B1, &[A1_TO_A5]),
    Step::Reach(A3, &[A3, A1_TO_A5, B1]),
    Step::Reach(A9, &[A9]),
    Step::Order(&[B1, A1_TO_A5, A3], &[A3]),
    Step::OnCycle(A1_TO_A5, true),
    Step::Unlink(B1),
    Step::Reach(A3, &[A3]),
];

// A whole range needs its cells too. An operation across leaves it, but bends it on its sheet.
pub(crate) const WHOLE_RANGES_ARE_RANGES: [Step; 12] = [
    Step::Link(D1, &[COLUMNS_A_B]),
    Step::Link(C3, &[ROWS_1_2]),
    Step::Reach(A9, &[A9, COLUMNS_A_B, D1, ROWS_1_2, C3]),
    Step::Reach(C3, &[C3]),
    Step::Reach(C2, &[C2, ROWS_1_2, C3]),
    Step::Bent(DELETE_FIRST, &[C3, D1]),
    Step::Bent(INSERT_NINTH, &[D1]),
    Step::Shift(INSERT_NINTH),
    Step::Reach(A9, &[A9, COLUMNS_A_B, D1, ROWS_1_2, C3]),
    Step::Shift(DELETE_FIRST),
    Step::Reach(E1, &[E1, ROW_1, C2]),
    Step::Reach(A5, &[A5]),
];

// Formulas are bent that read a cell that is lost, or a range that loses a row.
pub(crate) const OPERATIONS_BEND: [Step; 6] = [
    Step::Link(B1, &[A3]),
    Step::Link(C1, &[A1_TO_A5, B1]),
    Step::Link(D1, &[TOTAL, A9]),
    Step::Bent(DELETE_THIRD, &[B1, C1]),
    Step::Bent(DELETE_FIRST, &[C1]),
    Step::Bent(DELETE_SIXTH, &[]),
];

// A copy has all links, also those of ranges, and goes on by itself.
pub(crate) const A_COPY_IS_EQUAL: [Step; 6] = [
    Step::Link(B1, &[A1_TO_A5]),
    Step::Link(C1, &[B1, A9]),
    Step::Copy,
    Step::Reach(A3, &[A3, A1_TO_A5, B1, C1]),
    Step::Unlink(B1),
    Step::Reach(A3, &[A3]),
];

// A copy stays as it is where the graph itself changes.
pub(crate) const COPIES_STAY: [Step; 6] = [
    Step::Link(B1, &[A1]),
    Step::Link(C1, &[B1]),
    Step::Keep,
    Step::Unlink(B1),
    Step::Reach(A1, &[A1]),
    Step::ReachKept(A1, &[A1, B1, C1]),
];

// A chain of needs and a circle, and the row in which all of them stand.
pub(crate) const A_ROW_OF_NEEDS: [Step; 10] = [
    Step::Link(B1, &[A1]),
    Step::Link(C1, &[B1]),
    Step::Link(D1, &[D1]),
    Step::Reach(A1, &[A1, B1, C1]),
    Step::Order(&[A1, B1, C1], &[A1, B1, C1]),
    Step::OnCycle(D1, true),
    Step::OnCycle(C1, false),
    Step::Bent(DELETE_FIRST, &[B1, C1, D1]),
    Step::Shift(INSERT_NINTH),
    Step::Reach(A1, &[A1, B1, C1]),
];

// A list of nodes has what is put in.
pub(crate) const LISTS_HAVE_WHAT_IS_PUT_IN: [Step; 1] = [Step::List(&[C2])];

// Where row 6 is taken out, A1:A5 and A1:A6 become one range with the needs and the users of both.
pub(crate) const TWO_RANGES_BECOME_ONE: [Step; 9] = [
    Step::Link(B1, &[A1_TO_A5]),
    Step::Link(C1, &[A1_TO_A6]),
    Step::Link(A1_TO_A5, &[D1]),
    Step::Link(A1_TO_A6, &[E1]),
    Step::Shift(DELETE_SIXTH),
    Step::Reach(A5, &[A5, A1_TO_A5, B1, C1]),
    Step::Reach(D1, &[D1, A1_TO_A5, B1, C1]),
    Step::Reach(E1, &[E1, A1_TO_A5, B1, C1]),
    Step::Reach(A1_TO_A6, &[A1_TO_A6]),
];

// A lost cell goes with the links from it and to it, and the cells under it move up with theirs.
pub(crate) const A_LOST_CELL_GOES: [Step; 8] = [
    Step::Link(B1, &[A3, C3]),
    Step::Link(A3, &[TOTAL]),
    Step::Link(C3, &[B1, D1]),
    Step::Shift(DELETE_FIRST),
    Step::Reach(A2, &[A2]),
    Step::Reach(TOTAL, &[TOTAL, A2]),
    Step::Reach(B1, &[B1]),
    Step::Reach(D1, &[D1]),
];

// A dropped sheet goes with its cells and ranges.
pub(crate) const A_DROPPED_SHEET_GOES: [Step; 8] = [
    Step::Link(B1, &[A1, OTHER_A1_TO_A5]),
    Step::Link(C1, &[OTHER_A3]),
    Step::Link(OTHER_A3, &[A1]),
    Step::Reach(A1, &[A1, B1, OTHER_A3, OTHER_A1_TO_A5, C1]),
    Step::Shift(Shift::DropSheet { sheet: 1 }),
    Step::Reach(A1, &[A1, B1]),
    Step::Reach(OTHER_A3, &[OTHER_A3]),
    Step::Reach(OTHER_A1_TO_A5, &[OTHER_A1_TO_A5]),
];

// A graph, and a copy that was kept.
#[derive(Drop)]
struct Scene {
    alloc: Global,
    graph: Graph,
    kept: Graph,
}

impl Scene {
    // Whether all steps hold, one after the other.
    fn all_hold(&mut self, steps: &[Step]) -> Result<bool, AllocError> {
        'steps: for step in steps {
            if !self.holds(step)? {
                return Ok(false);
            }
        }
        Ok(true)
    }

    // Whether the call could be made, or the answer is the wanted one.
    fn holds(&mut self, step: &Step) -> Result<bool, AllocError> {
        match *step {
            Step::Link(user, needs) => {
                self.graph.link(user, needs)?;
                Ok(true)
            }
            Step::Unlink(user) => {
                self.graph.unlink(user);
                Ok(true)
            }
            Step::Shift(ref s) => self.shift(s),
            Step::Copy => {
                go_on_with_a_copy(&mut self.graph)?;
                Ok(true)
            }
            Step::Keep => {
                self.kept = self.graph.copied()?;
                Ok(true)
            }
            Step::Reach(mark, wanted) => reaches(self.alloc, &self.graph, mark, wanted),
            Step::ReachKept(mark, wanted) => reaches(self.alloc, &self.kept, mark, wanted),
            Step::List(list) => Ok(nodes(self.alloc, list)?.items() == list),
            Step::Order(list, wanted) => self.orders(list, wanted),
            Step::OnCycle(node, wanted) => Ok(self.graph.on_cycle(node)? == wanted),
            Step::Bent(ref s, wanted) => self.bends(s, wanted),
        }
    }

    // Whether the operation fits, and is done.
    fn shift(&mut self, s: &Shift) -> Result<bool, AllocError> {
        let fits = sound(s);
        if fits {
            self.graph.shift(s)?;
        }
        Ok(fits)
    }

    // Whether the nodes have this order.
    fn orders(&self, list: &[Node], wanted: &[Node]) -> Result<bool, AllocError> {
        let order = self.graph.order(&nodes(self.alloc, list)?)?;
        Ok(order.items() == wanted)
    }

    // Whether the operation fits, and bends what exactly these nodes are linked to.
    fn bends(&self, s: &Shift, wanted: &[Node]) -> Result<bool, AllocError> {
        if !sound(s) {
            return Ok(false);
        }
        let bent = self.graph.bent(s)?;
        Ok(are_same(bent.items(), wanted))
    }
}

// Whether exactly these nodes are reached from the mark.
fn reaches(alloc: Global, graph: &Graph, mark: Node, wanted: &[Node]) -> Result<bool, AllocError> {
    let reached = graph.reach(&nodes(alloc, &[mark])?)?;
    Ok(are_same(reached.items(), wanted))
}

// Whether all steps hold, from a graph without links on.
pub(crate) fn all_hold(alloc: Global, steps: &[Step]) -> Result<bool, AllocError> {
    let mut scene = Scene {
        alloc,
        graph: Graph::new(alloc)?,
        kept: Graph::new(alloc)?,
    };
    scene.all_hold(steps)
}
