//! What the cells of a workbook hold, and what its places and names show, as definitions: its formulas call functions
//! and names, and a node on a cycle of needs shows `#CYCLE!`.
//!
//! A `Book` of the specs is a finite map from places to contents: a number, a truth value, a text, a formula's tree as it
//! stands at the cell, or the text of a formula that has no tree. A `Workbook` is a book with the named expressions. Its
//! nodes are places and names; a name that a word finds on a sheet is the sheet's own, else that of the whole workbook.
//! `value_of` is what a node shows. The laws say that these values unfold, that nothing else does, and which
//! nodes show `#CYCLE!` by themselves.
#![tactic(auto)]

pub mod laws;
