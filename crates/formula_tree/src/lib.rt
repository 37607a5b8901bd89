//! Formulas: their tokens, their trees, and the grammar that says which text spells which tree.
//!
//! A formula's tree is shared: a [`Tree`] is a [`Node`] behind `Rc`, whose references are as they are
//! seen from the home of the formula, so that a column of formulas like `=B2*C2`, `=B3*C3` has one. A
//! [`Pool`] stands for a list of distinct trees and finds each in the time that its size takes. A
//! [`Plain`] is the same tree with every reference as the place that it names.
//!
//! Contracts see a tree as a `Term`, one inductive type with the kind of references as a parameter, and
//! never its boxes: `relative tree` is the term of a node, and `StandsFor tree home t` says that in a
//! formula at the home it is the term t, whose references are places. The relation `Spells` of the
//! specs says which tokens spell which term, one case for each production of the grammar, and
//! `formula_text` is the canonical text of a term. All rows or all columns from one to another, as in
//! `A:C`, are one kind of term, which has the first and the last cell of their block; the lines across
//! have a `$` there.
//!
//! The formula `=A1+0.5` of the cell C1 has the tokens A1, `+` and 0.5. It spells
//! `Node::Binary(Op::Add, a, b)`, where `a` is the cell of this row two columns to the left and `b` the
//! number 0.5; its depth is 2.
#![tactic(auto)]

mod absolute;
mod address;
mod code;
mod entry;
pub mod laws;
mod leaves;
mod link;
mod mention;
mod node;
mod operator;
mod plain;
mod pool;
mod reference;
mod same;
mod whole;

pub use absolute::to_absolute;
pub use address::{Address, End};
pub use link::{Link, is_place_word, names_of, places_of};
pub use mention::{Mention, mentions_of};
pub use node::{Node, Tree, TreeList, depth};
pub use operator::{MAX_LEVELS, Op, PERCENT_LEVEL, SIGN_LEVEL, Sign};
pub use plain::{Plain, PlainList};
pub use pool::Pool;
pub use reference::{Corner, Home, NO_LINE, Part, Ref, SheetPart};
pub use whole::whole_at;
