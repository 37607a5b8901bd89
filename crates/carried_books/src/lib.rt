//! Which values of a workbook stay where a structural operation moves its cells.
//!
//! After an operation each cell stands where it was moved, and each formula is rewritten. Of cells and names whose formulas the
//! operation carries along as they are, with all that they need, the values stay, and needn't be worked out again.
#![tactic(auto)]

mod laws;

pub use laws::moved_values_stay;
