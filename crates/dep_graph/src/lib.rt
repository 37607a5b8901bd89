//! Which formulas need which cells, and what follows from it: what a change reaches, in which order it is computed anew,
//! and what is on a cycle.
//!
//! A [`Node`] is a cell, a named expression, or a range that formulas read, of cells or of whole rows or columns. A
//! [`Graph`] stands for a finite map from nodes to the nodes that each of them was linked to. Beside these a range that
//! some node is linked to needs each cell that it covers, without being linked to any. Ranges never list their cells: a
//! range is filed under the few slots into which the numbers of its lines are cut, and a cell finds the ranges that
//! cover it by its slots. So prefix sums over n rows cost about n and not the square of n. A whole range has its lines
//! along one axis alone under slots, since it has all lines across; a cell finds it by its own line. A structural
//! operation takes the nodes along, and loses some with their links; [`Graph::bent`] tells beforehand which nodes are
//! linked to one that it doesn't just carry along. Cells and ranges are kept under the numbers of their lines, which
//! stay while operations move these, so that an operation looks only at what it touches, and at whole ranges, which are
//! few, and not at what else it carries along.
//!
//! ```text
//! let mut graph = Graph::new(alloc)?;
//! graph.link(b1, &[a1])?;       // B1 reads A1
//! graph.link(c1, &[b1])?;       // C1 reads B1
//! graph.link(d1, &[a1_to_a9])?; // D1 reads the range A1:A9
//! graph.reach(&marks_of_a1)?    // A1, B1, C1, D1 and A1:A9, in some order
//! graph.order(&those)?          // the same, each after what it needs
//! graph.on_cycle(d1)?           // false
//! graph.users(at_a1)?           // B1 and D1: they are linked to A1, or to a range that covers it
//! graph.shift(&row_put_first)?; // now B2 reads A2, C2 reads B2, and D2 reads the range A2:A10
//! ```
#![tactic(auto)]

mod arrows;
mod bent;
mod copy;
mod ends;
mod filed_wholes;
mod files;
mod found;
mod graph;
mod key;
mod laws;
mod net;
mod node;
mod nodes;
mod refiled;
mod serving;
mod shifted;
mod slots;
mod table;
mod touches;
mod users;
mod walk;
mod whole;

pub use graph::Graph;
pub use laws::{links_stay_inside, unbent_nodes_keep_their_links};
pub use node::Node;
pub use nodes::Nodes;
