//! The program's two custom functions: the postage of a weight and a levy on an amount.
//!
//! [`postage`] and [`levy`] answer what the rules [`postage_rule`] and [`levy_rule`] say, but search
//! their tables by halves. [`customs`] is the registry of both, over two calls that its caller makes:
//!
//! ```text
//! postage(0.5)    2.75, since the second band begins there
//! levy(2000)      300: a tenth of the first thousand and a fifth of the second
//! ```
#![tactic(auto)]

mod answers;
mod rules;
mod search;
mod stored;
mod tables;

pub use answers::{levy, postage};
pub use rules::{levy_rule, postage_rule};
pub use stored::customs;
pub use tables::{LEVY, POSTAGE};
