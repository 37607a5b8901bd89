//! Kept summaries of ranges beside what is worked out plainly. It prints a line for each group of calls, and for lists of
//! calls that are drawn how many there were and how many answers differ. The status is 0 where all answers are as they
//! should be, and else 1.
#![tactic(auto)]

ghost use Rattle.std.specs.Prelude.{◌≡◌, ◌<◌};

mod both;
mod calls;
mod grid;
mod lists;
mod plain;
mod values;

use draws::Corner;
use lists::lists;
use std::alloc::{AllocError, Global};
use std::io;
use std::marker::Brand;
use std::process::ExitCode;
use std::sync::ledger::{Blank, Ledger};
use steps::Steps;

fn main(rt: HostRuntime) -> ExitCode {
    match run::<Brand>(&rt, Blank::new(1)) {
        Ok(true) => ExitCode::SUCCESS,
        Ok(false) | Err(_) => ExitCode::FAILURE,
    }
}

// Whether all answers are as they should be.
fn run<L: Ledger>(rt: &HostRuntime, blank: Blank) -> io::Result<bool>
    requires name { blank.name ≡ L.name }
    requires parts { blank.parts ≡ L.parts }
    requires some { 0 < blank.parts }
{
    let mut steps = Steps::<L>::new(blank);
    let alone = calls_hold(rt, &mut steps)?;
    let drawn = lists_agree(rt, &mut steps)?;
    Ok(alone && drawn)
}

// Whether each group of calls answers as it should.
fn calls_hold<L: Ledger>(rt: &HostRuntime, steps: &mut Steps<L>) -> io::Result<bool> {
    let alloc = rt.alloc();
    let column = calls::a_column_is_summed_up(alloc, steps)?;
    println!(rt; "a column is summed up: {}", said(column))?;
    let longer = calls::a_longer_block_goes_on(alloc, steps)?;
    println!(rt;
        "a longer block goes on from a shorter one: {}",
        said(longer)
    )?;
    let moved = calls::operations_move_or_give_up(alloc, steps)?;
    println!(rt;
        "operations move summaries or give them up: {}",
        said(moved)
    )?;
    Ok(column && longer && moved)
}

// Whether no answer of the lists differs.
fn lists_agree<L: Ledger>(rt: &HostRuntime, steps: &mut Steps<L>) -> io::Result<bool> {
    let mut all = true;
    'corners: for corner in Corner::ALL {
        let tally = lists(rt.alloc(), corner, steps)?;
        println!(rt; "lists at {corner}: {tally}")?;
        all = all && tally.differ == 0;
    }
    Ok(all)
}

// How a group's calls answered.
fn said(holds: bool) -> &'static str {
    if holds { "as they should" } else { "otherwise" }
}
