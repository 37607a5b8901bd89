// How long graphs of needs take: to be linked, to answer which nodes a cell reaches and in which order, and to move over
// rows that are put in, deleted and moved.
ghost use Rattle.std.specs.Prelude.{◌<◌};

use crate::shapes::Shape;
use dep_graph::{Graph, Nodes};
use shift_core::{Shift, sound};
use std::alloc::AllocError;
use std::time::Instant;
use std::{fmt, io};

// Shapes with their names, and how many formulas they have.
const CASES: [(Shape, &'static str, u32); 16] = [
    (Shape::Prefixes, "prefix sums", 1_000),
    (Shape::Prefixes, "prefix sums", 10_000),
    (Shape::Prefixes, "prefix sums", 40_000),
    (Shape::Rolling, "rolling sums", 5_000),
    (Shape::Rolling, "rolling sums", 10_000),
    (Shape::Invoice, "lines of an invoice", 5_000),
    (Shape::Invoice, "lines of an invoice", 10_000),
    (
        Shape::Sheets,
        "lines of an invoice on each of 10 sheets",
        5_000,
    ),
    (
        Shape::Sheets,
        "lines of an invoice on each of 10 sheets",
        10_000,
    ),
    (Shape::Columns, "sums of columns", 100),
    (Shape::Columns, "sums of columns", 200),
    (Shape::Chain, "formulas in a chain", 10_000),
    (Shape::Chain, "formulas in a chain", 50_000),
    (Shape::Chain, "formulas in a chain", 100_000),
    (Shape::Cycle, "formulas in a cycle", 5_000),
    (Shape::Cycle, "formulas in a cycle", 10_000),
];

// How many rows are put in, deleted and moved.
const EDITS: u32 = 100;

// What is done with a row.
#[derive(Clone, Copy)]
enum Edit {
    PutIn,
    Deleted,
    Moved,
}

// What is timed: a graph of so many formulas.
#[derive(Clone, Copy)]
struct Case {
    shape: Shape,
    name: &'static str,
    count: u32,
}

// Its title.
impl fmt::Display for Case {
    fn fmt<W: fmt::Write>(&self, f: &mut fmt::Formatter<W>) -> fmt::Result {
        write!(f, "{} {}", self.count, self.name)
    }
}

// Milliseconds, as a count of thousandths.
#[derive(Clone, Copy)]
struct Millis(u128);

impl fmt::Display for Millis {
    fn fmt<W: fmt::Write>(&self, f: &mut fmt::Formatter<W>) -> fmt::Result {
        write!(f, "{}.{:03}", self.0 / 1_000, self.0 % 1_000)
    }
}

/// Prints the titles of all graphs, a line each.
pub(crate) fn print_titles(rt: &HostRuntime) -> io::Result<bool> {
    'cases: for &(shape, name, count) in &CASES {
        println!(rt; "{}", Case { shape, name, count })?;
    }
    Ok(true)
}

/// Times the graph of a title, or all where it is empty, and prints a line for each part.
pub(crate) fn run(rt: &HostRuntime, title: &str) -> io::Result<bool> {
    'cases: for &(shape, name, count) in &CASES {
        let case = Case { shape, name, count };
        if case.is_wanted(rt, title)? {
            time_case(rt, case)?;
        }
    }
    Ok(true)
}

// Times a graph.
fn time_case(rt: &HostRuntime, case: Case) -> io::Result<()> {
    let mut graph = Graph::new(rt.alloc())?;
    case.time(rt, &mut graph)
}

impl Case {
    // Whether the title is that of the graph, or empty.
    fn is_wanted(self, rt: &HostRuntime, title: &str) -> io::Result<bool> {
        let own = format!(in rt.alloc(); "{self}")?;
        Ok(title.is_empty() || own.as_str() == title)
    }

    // Times how the graph is linked, what it answers, and rows that are put in.
    fn time(self, rt: &HostRuntime, graph: &mut Graph) -> io::Result<()> {
        let start = Instant::now(rt)?;
        self.shape.link_all(graph, self.count)?;
        self.print_time(rt, "links", start, 1)?;
        self.time_mark(rt, graph)?;
        self.time_edits(rt, graph)
    }

    // Times what the graph answers for a mark.
    fn time_mark(self, rt: &HostRuntime, graph: &Graph) -> io::Result<()> {
        let mut marks = Nodes::new(rt.alloc())?;
        marks.push(self.shape.mark())?;
        self.time_answers(rt, graph, &marks)
    }

    // Times which nodes reach the marks, and their order.
    fn time_answers(self, rt: &HostRuntime, graph: &Graph, marks: &Nodes) -> io::Result<()> {
        let start = Instant::now(rt)?;
        let reached = graph.reach(marks)?;
        self.print_time(rt, "reach", start, 1)?;
        self.time_order(rt, graph, &reached)
    }

    // Times the order of what is reached.
    fn time_order(self, rt: &HostRuntime, graph: &Graph, reached: &Nodes) -> io::Result<()> {
        let start = Instant::now(rt)?;
        let order = graph.order(reached)?;
        self.print_order(rt, start, reached.items().len(), order.items().len())
    }

    // Times rows that are put in among formulas that stand row by row, and deleted again, and rows that are moved: the half of all
    // prefix sums is bent by one that is put in, of the rolling sums as many as they have rows, and of an invoice the sum of all;
    // of a chain the formula that reads the row above. The first operation over a graph also keeps its nodes where operations find
    // them, so it is timed by itself.
    fn time_edits(self, rt: &HostRuntime, graph: &mut Graph) -> io::Result<()> {
        if matches!(self.shape, Shape::Columns | Shape::Cycle) {
            return Ok(());
        }
        self.time_some(rt, graph, "first row put in", Edit::PutIn, 1)?;
        self.time_some(rt, graph, "row put in", Edit::PutIn, EDITS)?;
        self.time_some(rt, graph, "row deleted", Edit::Deleted, EDITS)?;
        self.time_some(rt, graph, "row moved", Edit::Moved, EDITS)
    }

    // Times so many edits of the first sheet, at places that lie apart.
    fn time_some(
        self,
        rt: &HostRuntime,
        graph: &mut Graph,
        what: &str,
        edit: Edit,
        times: u32,
    ) -> io::Result<()>
        requires { 0 < times }
    {
        let start = Instant::now(rt)?;
        'edits: for number in 0..times {
            let s = edit.of((self.count / EDITS).saturating_mul(number));
            if sound(&s) {
                graph.shift(&s)?;
            }
        }
        self.print_time(rt, what, start, times)
    }

    // Prints the time since the start, by what it is for, and shared out over so many times that this was done.
    fn print_time(self, rt: &HostRuntime, what: &str, start: Instant, times: u32) -> io::Result<()>
        requires { 0 < times }
    {
        let time = Millis(start.elapsed(rt)?.as_micros() / u128::from(times));
        println!(rt; "{self}, {what}: {time} ms")
    }

    // Prints the time since the start, for the order of what is reached, and how many nodes that is.
    fn print_order(
        self,
        rt: &HostRuntime,
        start: Instant,
        reached: usize,
        ordered: usize,
    ) -> io::Result<()> {
        self.print_time(rt, "order", start, 1)?;
        println!(rt; "{self}: {reached} nodes reached, {ordered} ordered")
    }
}

impl Edit {
    // The operation on a row of the first sheet; a row is moved three rows down.
    fn of(self, at: u32) -> Shift {
        match self {
            Edit::PutIn => Shift::InsertRows {
                sheet: 0,
                at,
                count: 1,
            },
            Edit::Deleted => Shift::DeleteRows {
                sheet: 0,
                at,
                count: 1,
            },
            Edit::Moved => Shift::MoveRows {
                sheet: 0,
                from: at,
                count: 1,
                before: at.saturating_add(4),
            },
        }
    }
}
