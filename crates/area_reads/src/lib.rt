//! Reads of whole areas: what the filled cells of a block show, and the texts that give them their contents.
//!
//! ```text
//! for (at, shown) in values(alloc, &mut engine, block, &mut steps)? { .. }
//! ```
#![tactic(auto)]

mod reads;

pub use reads::{contents, values};
