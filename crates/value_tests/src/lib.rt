//! Tests of numbers, addresses, values, runs of digits, custom functions, formulas and the clipboard: what the data of
//! `function_cases` and `formula_cases` can't say, and each call that allocates once.
//!
//! They stand here since a crate with tests of its own is proved twice.
#![tactic(auto)]

#[cfg(test)]
mod addresses;
#[cfg(test)]
mod clipboard;
#[cfg(test)]
mod digit_runs;
#[cfg(test)]
mod numbers;
#[cfg(test)]
mod printing;
#[cfg(test)]
mod reading;
#[cfg(test)]
mod registry;
#[cfg(test)]
mod rewriting;
#[cfg(test)]
mod trees;
#[cfg(test)]
mod values;
