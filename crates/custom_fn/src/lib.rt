//! Custom functions of one value, each with a rule that says what it answers.
//!
//! A [`Rule`] has bands or tiers over 1 to [`MAX_PAIRS`] pairs of numbers. A [`Custom`] stores a call of the
//! caller's, and its type keeps the fact that the call answers the rule on every value. A [`Registry`]
//! is a list of custom functions of different names, none of which names a function that every
//! workbook has.
//!
//! The bands 0: 1.5, 0.5: 2.75 and 2: 5.4 answer 2.75 of 0.5, and `#N/A` of -1. The tiers 0: 0.1 and
//! 1000: 0.2 answer 300 of 2000, which is a tenth of the first thousand and a fifth of the second.
#![tactic(auto)]

mod custom;
mod registry;
mod rule;
mod words;

pub use custom::Custom;
pub use registry::{RegError, Registry};
pub use rule::{Bands, MAX_PAIRS, Rule, Tiers};
pub use words::{FUNCTION_WORDS, is_function_word};
