//! Texts as keys of a table that doesn't tell ASCII capitals from small letters.
//!
//! A [`FoldedKey`] is compared and hashed with its ASCII letters folded. It owns its text or borrows it, so that looking a text up
//! takes no memory: a table of `FoldedKey::Own(text)` is asked for `FoldedKey::Asked("a text")`.
#![tactic(auto)]

mod key;

pub use key::FoldedKey;
