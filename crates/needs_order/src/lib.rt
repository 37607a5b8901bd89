//! An order of nodes in which each stands after all that it needs, and the nodes on a cycle.
//!
//! Nodes are the numbers below the length of a list of lists, which says what each of them needs.
//! [`order`] lists each of them once: what a node's needs lead to stands before it, unless it leads
//! back to it. So nodes that lead to one another, in cycles, have any order among themselves, and
//! still stand after all else that they lead to. One search in depth finds both, without recursion:
//! its time is linear in the number of nodes and listed needs.
//!
//! The node 0 needs 1 and 2, the node 2 needs itself:
//!
//! ```text
//! let order = order(alloc, &[vec![in alloc; 1, 2]?, vec![in alloc]?, vec![in alloc; 2]?])?;
//! order.nodes     // 1, 2, 0
//! order.on_cycle  // false, false, true
//! ```
#![tactic(auto)]

mod found;
mod search;

pub use found::Order;
pub use search::order;
