//! Values that stay as they are where a network of nodes becomes another one.
//!
//! A change of a workbook, as an operation that moves its cells, makes another network of its nodes. Where a node came from one
//! that needed the same nodes and works out the same from them, it shows what that one showed, and needn't be worked out again.
#![tactic(auto)]

mod laws;

pub use laws::{cycles_go_over, values_go_over};
