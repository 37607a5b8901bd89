//! Tests of what a sheet stands on and of what stands around the program: operations on lines, their list, stable lines, the
//! grid, names, kept steps, needs and their orders, lists, contents, commands and
//! their records, files, books, streams and generated lists.
//!
//! They stand here since a crate with tests of its own is proved twice.
#![tactic(auto)]

#[cfg(test)]
mod books;
#[cfg(test)]
mod commands;
#[cfg(test)]
mod contents;
#[cfg(test)]
mod folders;
#[cfg(test)]
mod generated;
#[cfg(test)]
mod grid_drafts;
#[cfg(test)]
mod grids;
#[cfg(test)]
mod kept_steps;
#[cfg(test)]
mod line_tables;
#[cfg(test)]
mod lists;
#[cfg(test)]
mod name_drafts;
#[cfg(test)]
mod names;
#[cfg(test)]
mod networks;
#[cfg(test)]
mod orders;
#[cfg(test)]
mod reaches;
#[cfg(test)]
mod records;
#[cfg(test)]
mod shift_lists;
#[cfg(test)]
mod shifts;
#[cfg(test)]
mod slots;
#[cfg(test)]
mod streams;
