//! The names of a workbook: its list of sheets, and its named expressions.
//!
//! [`Names`] stands for three things. The list of sheets has pairs of a sheet's number and name, in the order in which a user
//! sees the sheets; no number and no name stands twice, where names are compared with their ASCII letters folded. It is the
//! [`cell_addr::SheetNames`] by which formulas are read and printed. The list of words has texts in small letters, each once, and
//! a word is numbered by its place in it. The named expressions are a finite map from [`NameKey`]s, each a scope and a word, to
//! holders, numbers under which the caller keeps their formulas.
//!
//! Changes of names and sheets that are to be made together, or not at all, go over a [`NameDraft`]: [`Names::begin`] takes all
//! memory that they want, and behind what else may want memory [`Names::finish`] puts them in place, or [`Names::cancel`] gives
//! them up.
//!
//! ```text
//! let rate = names.word("Rate")?;                       // and the same number for RATE
//! names.add(None, rate, 7)?;                            // for the whole workbook
//! names.add(Some(2), rate, 8)?;                         // for sheet 2
//! names.find(rate, 2) == Some((Some(2), 8))             // and on other sheets Some((None, 7))
//! ```
#![tactic(auto)]

mod copy;
mod draft;
mod key;
mod laws;
mod list;
mod named;
mod names;
mod placing;
mod words;

pub use draft::NameDraft;
pub use key::NameKey;
pub use laws::words_are_numbered;
pub use list::NameList;
pub use names::Names;
pub use placing::BegunDraft;
