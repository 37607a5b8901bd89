//! What was copied or cut, and formulas as they are pasted.
//!
//! A [`Clip`] holds nothing, a copied block with what its cells held, or a cut block. [`pasted`] gives the tree of a copied
//! formula at another home: parts without `$` go as far as the formula does, references to the sheet that it leaves become
//! references to the one that it comes to, and what is off the sheet, or on a sheet that isn't there, is the fault `#REF!`.
//!
//! ```text
//! =A1+$A$1 of B2    pasted at C4    is    =B3+$A$1
//! =A1+$A$1 of B2    pasted at A1    is    =#REF!+$A$1
//! =SUM(A$5:A6) of C6    pasted at C3    is    =SUM(A3:A$5)
//! =SUM(A:$B) of C6    pasted at E6    is    =SUM($B:C)
//! ```
#![tactic(auto)]

mod clip;
mod paste;

pub use clip::{Clip, CopyItem, CopyList};
pub use paste::pasted;
