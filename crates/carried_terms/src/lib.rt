//! What formulas mean and need where an operation has carried along all that they refer to.
//!
//! A structural operation moves places, blocks and whole ranges, and formulas are rewritten with them. Where each reference of a
//! formula went along, and what it names shows the same as before, the rewritten formula means what the formula meant, so that
//! its value needn't be worked out again. A whole range goes along as its block does.
#![tactic(auto)]

mod laws;

pub use laws::{
    carried_means_same, cells_go_along, kept_blocks_follow, needs_follow, still_goes_along,
};
