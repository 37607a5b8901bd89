//! The command line of the workbook engine: what a run reads, and what it prints.
//!
//! [`run`] does all that the program does. It is given a `Source` of bytes and a `Sink` for them, of
//! `book_files`: the standard streams, or streams in memory. A `Session` of `command_answers` answers the commands.
//!
//! A script is a list of records, each a command that is answered by one line:
//!
//! ```text
//! set,A1,0.1              ok
//! set,A2,=A1+2            ok
//! insert-rows,Sheet1,1,1  ok
//! formula,A3              =A2+2
//! ```
#![tactic(auto)]

mod answering;
mod ending;
mod program;

pub use program::run;
