//! Bytes in and out of a program, with counted faults, and the sheets that files are.
//!
//! A [`Source`] gives bytes, a [`Sink`] takes them and a [`Folder`] has files by name; each of them
//! counts its faults. [`StdSource`], [`StdSink`] and [`DiskFolder`] are those of the system,
//! [`MemSource`], [`MemSink`] and [`MemFolder`] stand in memory and fail at will, and
//! [`CalmSource`], [`CalmSink`] and [`CalmFolder`] stand in memory and have no faults; a sink that
//! grows still wants memory. [`read_all`] reads a source to its end, [`Records`] reads CSV, and
//! [`read_book`] says which sheet a file is:
//!
//! ```text
//! let mut folder = DiskFolder::new(&rt);
//! let bytes = folder.load(alloc, "tables/prices.csv", MAX_INPUT)?;
//! let sheet = read_book(alloc, "tables/prices.csv", &bytes, 0)?;   // the sheet `prices`
//! ```
#![tactic(auto)]

mod book;
mod disk;
mod error;
mod fault;
mod files;
mod folder;
mod input;
pub mod laws;
mod memory;
mod records;
mod sink;
mod source;
mod standard;

pub use book::{read_book, sheet_name};
pub use disk::DiskFolder;
pub use error::{Failed, LoadError, WriteError};
pub use fault::BookFault;
pub use files::{CalmFolder, FileMap, MemFolder};
pub use folder::Folder;
pub use input::{MAX_INPUT, read_all};
pub use memory::{CalmSink, CalmSource, MemSink, MemSource};
pub use records::Records;
pub use sink::Sink;
pub use source::Source;
pub use standard::{StdSink, StdSource};
