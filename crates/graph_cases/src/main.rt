//! Graphs of needs beside what follows from their links plainly. It prints a line for each group of calls on small graphs,
//! and for lists of calls that are drawn how many there were, and the first answer that differs from that of the plain
//! model, a list of links. The status is 0 where all answers are as they should be, and else 1.
#![tactic(auto)]

mod both;
mod lists;
mod nodes;
mod plain;
mod rows;
mod tally;

use draws::Corner;
use lists::lists;
use rows::Step;
use std::io;
use std::process::ExitCode;

// The groups of calls on small graphs, with what they show.
const GROUPS: [(&'static [Step], &'static str); 11] = [
    (&rows::NEEDS_LEAD_ON, "needs lead on, and in a circle"),
    (
        &rows::USED_RANGES_NEED_THEIR_CELLS,
        "a used range needs its cells",
    ),
    (
        &rows::WHOLE_RANGES_ARE_RANGES,
        "whole ranges need their cells, and are bent across",
    ),
    (&rows::OPERATIONS_BEND, "operations bend what formulas read"),
    (&rows::A_COPY_IS_EQUAL, "a copy has the same links"),
    (&rows::COPIES_STAY, "copies stay"),
    (&rows::A_ROW_OF_NEEDS, "a row of needs"),
    (
        &rows::LISTS_HAVE_WHAT_IS_PUT_IN,
        "lists have what is put in",
    ),
    (&rows::TWO_RANGES_BECOME_ONE, "two ranges become one"),
    (&rows::A_LOST_CELL_GOES, "a lost cell goes with its links"),
    (
        &rows::A_DROPPED_SHEET_GOES,
        "a dropped sheet goes with its links",
    ),
];

fn main(rt: HostRuntime) -> ExitCode {
    match run(&rt) {
        Ok(true) => ExitCode::SUCCESS,
        Ok(false) | Err(_) => ExitCode::FAILURE,
    }
}

// Whether all answers are as they should be.
fn run(rt: &HostRuntime) -> io::Result<bool> {
    let small = groups_hold(rt)?;
    let drawn = lists_agree(rt)?;
    Ok(small && drawn)
}

// Whether each group of calls answers as it should.
fn groups_hold(rt: &HostRuntime) -> io::Result<bool> {
    let mut all = true;
    'groups: for &(steps, shows) in &GROUPS {
        all = group_holds(rt, steps, shows)? && all;
    }
    Ok(all)
}

// Whether a group of calls answers as it should.
fn group_holds(rt: &HostRuntime, steps: &[Step], shows: &str) -> io::Result<bool> {
    let holds = rows::all_hold(rt.alloc(), steps)?;
    println!(rt; "{shows}: {}", said(holds))?;
    Ok(holds)
}

// Whether no answer of the lists differs.
fn lists_agree(rt: &HostRuntime) -> io::Result<bool> {
    let mut all = true;
    'corners: for corner in Corner::ALL {
        let tally = lists(rt.alloc(), corner)?;
        println!(rt; "lists at {corner}: {tally}")?;
        all = all && tally.agrees();
    }
    Ok(all)
}

// How a group's calls answered.
fn said(holds: bool) -> &'static str {
    if holds { "as they should" } else { "otherwise" }
}
