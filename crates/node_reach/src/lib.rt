//! Where arrows lead: the nodes that are reached from some, and an order of them.
//!
//! A graph says by [`Arrows`] to which nodes arrows lead from each node. [`reach`] lists the nodes to which arrows
//! lead from the starts, the starts too. [`order`] lists the same nodes so that each stands after all to which its
//! own arrows lead, and says which of them are on a cycle. Only what is reached is looked at, the arrows of each
//! node once, and no recursion is used: time is about linear in the reached nodes and their arrows, however large
//! the graph is.
//!
//! With arrows from 0 to 1 and 2, from 2 to 2 and from 3 to 0:
//!
//! ```text
//! reach(alloc, &graph, &[0])?          // 2, 1, 0
//! let walk = order(alloc, &graph, &[0])?;
//! walk.nodes                           // 1, 2, 0
//! walk.on_cycle                        // false, true, false
//! ```
#![tactic(auto)]

mod arrows;
mod explored;
mod walk;

pub use arrows::Arrows;
pub use walk::{Walk, order, reach};
