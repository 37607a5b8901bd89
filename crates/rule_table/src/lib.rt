//! Custom functions as a table of numbers and bytes, which a caller in another language can give.
//!
//! [`Rules`] are custom functions that are rules alone: plain data, without stored calls. A [`RuleTable`] tells them: a row
//! for each function, the pairs of all and the bytes of their words.
#![tactic(auto)]

mod rules;
mod table;

pub use rules::Rules;
pub use table::{RulePair, RuleRow, RuleTable, TableError};
