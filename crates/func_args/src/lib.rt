//! How functions read their arguments.
//!
//! A function has a signature, as `N [, N]` for a number and another one that may be absent. For each
//! signature that several functions have there is a reader, as [`number_and_whole`]. It answers the
//! wrong number of arguments as `#N/A` before it looks at any, and then reads one after another: the
//! first fault decides, before anything else about their values is tested.
//!
//! Of a block that stands in a list of arguments, as SUM takes, the cells count, row by row:
//! [`list_summary`] is what the numbers of such a list come to.
#![tactic(auto)]

mod answer;
mod argument;
mod kind;
mod list;
mod signature;

pub use answer::{calculated, counted, number_value, truth_value};
pub use argument::{block_of, number_of, truth_of, value_of, whole_of};
pub use kind::order_in_kind;
pub use list::{area_summary, join_summaries, list_summary};
pub use signature::{number_and_whole, one_number, one_whole, two_numbers};
