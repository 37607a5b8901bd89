//! Formulas along a line of operations, beside whole trees that every operation rewrites at once.
//!
//! It makes calls whose answers are known, and random lists of calls, each on a store of lazy formulas and on the plain
//! machine, and compares all formulas at all positions after each call. It prints a line for each group of calls. The
//! status is 0 where all answers agree, and else 1.
#![tactic(auto)]

mod clearing;
mod guarded;
mod known;
mod lists;
mod pair;
mod plain;
mod reading;
mod rows;
mod tally;
mod whole;

use lists::run_lists;
use std::alloc::{AllocError, Global};
use std::io;
use std::process::ExitCode;

// A group of calls.
#[derive(Clone, Copy)]
enum Group {
    Line,
    Read,
    CaughtUp,
    Lost,
    Clipped,
    Whole,
    Removed,
    Room,
}

impl Group {
    const ALL: [(Group, &'static str); 8] = [
        (Group::Line, "a line is cut and forgotten"),
        (Group::Read, "a formula is read, looked up and settled"),
        (Group::CaughtUp, "formulas catch up within a budget"),
        (Group::Lost, "a lost reference comes back"),
        (Group::Clipped, "a clipped block is whole again"),
        (Group::Whole, "whole columns have a lost one again"),
        (Group::Removed, "a removed formula catches up"),
        (Group::Room, "room is kept"),
    ];

    // Whether its calls answer as they should.
    fn holds(self, alloc: Global) -> Result<bool, AllocError> {
        match self {
            Group::Line => rows::a_line_is_cut_and_forgotten(alloc),
            Group::Read => rows::all_hold(alloc, &rows::READ_AND_SETTLED),
            Group::CaughtUp => rows::all_hold(alloc, &rows::CAUGHT_UP),
            Group::Lost => rows::all_hold(alloc, &rows::LOST_AND_BACK),
            Group::Clipped => rows::all_hold(alloc, &rows::CLIPPED_AND_WHOLE),
            Group::Whole => rows::all_hold(alloc, &rows::WHOLE_AND_BACK),
            Group::Removed => rows::all_hold(alloc, &rows::REMOVED_AND_BACK),
            Group::Room => rows::room_is_kept(alloc),
        }
    }
}

fn main(rt: HostRuntime) -> ExitCode {
    match run(&rt) {
        Ok(true) => ExitCode::SUCCESS,
        Ok(false) | Err(_) => ExitCode::FAILURE,
    }
}

// Whether all calls answered as they should.
fn run(rt: &HostRuntime) -> io::Result<bool> {
    let mut all = true;
    for (group, shows) in Group::ALL {
        let end = group.holds(rt.alloc());
        println!(rt; "{shows}: {}", said(&end))?;
        all = all && end == Ok(true);
    }
    let tally = run_lists(rt.alloc())?;
    println!(rt; "{tally}")?;
    Ok(all && tally.differences == 0)
}

// How a group's calls ended.
fn said(end: &Result<bool, AllocError>) -> &'static str {
    match end {
        Ok(true) => "as it should",
        Ok(false) => "otherwise",
        Err(_) => "no memory",
    }
}
