//! Links between nodes, read from both ends: which nodes a node needs, and which nodes need it.
//!
//! Nodes are numbers from 0 on, in the order in which they were added. A node's needs are a list that
//! [`Links::link`] replaces; the users of a node are kept beside it, as a set, and are always exactly those nodes in
//! whose lists it stands. A change of a node's needs costs about the number of its old and new needs, however many
//! users these have. [`Links::redirect_few`] takes all links along where few nodes become others, and several become
//! one, with a look at these and their users alone.
//!
//! ```text
//! let mut links = Links::new(alloc);
//! let a = links.add()?;
//! let b = links.add()?;
//! links.link(a, &[b])?;
//! links.needs(a)           // b
//! links.users(b)           // a
//! ```
#![tactic(auto)]

mod change;
mod few;
mod links;
mod node_list;
mod node_set;
mod users;

pub use few::few_target;
pub use links::Links;
pub use node_list::NodeList;
