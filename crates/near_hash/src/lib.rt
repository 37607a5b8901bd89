//! A hash under which near numbers lie near one another.
//!
//! A hash table looks for a key at the place that the key's hash names. A usual hash scatters keys that follow one
//! another over the whole table, so that each look-up reads memory that none before it has read; that costs most where
//! a table outgrows the processor's caches. By the hash of [`NearHasher`] eight numbers that follow one another, from a
//! multiple of eight on, have one place together, and differ in bits that a table keeps beside each of its keys. So a
//! walk along numbers that follow one another reads new memory at every eighth of them.
//!
//! ```text
//! let mut seen = IndexSet::with_hasher(alloc, NearHash::new());
//! seen.insert(40)?;
//! seen.contains(&41)  // false, after a look at the place of 40 alone
//! ```
#![tactic(auto)]

mod hasher;
mod laws;

pub use hasher::{NearHash, NearHasher};
pub use laws::near_numbers_share_a_place;
