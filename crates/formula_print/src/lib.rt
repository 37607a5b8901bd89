//! Formulas printed: the canonical text of a tree.
//!
//! [`print`] writes the tree of a formula as its home sees it: `=`, no blanks, words and columns in
//! capitals, and a sheet's name in front of a reference exactly where its sheet isn't the home's.
//!
//! The tree of `= sum( b2, 'My Plan'!$b2 )` on the sheet `Two` is printed as
//! `=SUM(B2,'My Plan'!$B2)` for a home on that sheet, and as `=SUM(Two!B2,$B2)` for one on `My Plan`.
#![tactic(auto)]

mod pieces;
mod printer;

pub use printer::print;
