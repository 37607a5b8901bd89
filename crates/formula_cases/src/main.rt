//! Reads formulas that are data. The program takes the names of pages, and in each every row of a table whose first cell
//! stands between backticks is a case, with what is to be found of it in the second cell. It prints each case that differs
//! or can't be read, and how many cases a page has.
//!
//! ```text
//! | `home 1 4 4` | Two |
//! | `read = 1+2*a1` | (+ 1 (* 2 1!R0C0)), printed =1+2*A1 |
//! | `nest 63;(;1;)` | 64 |
//! | `wrong =1+*2` | at 3, length 1 |
//! | `wrong-nest 64;(;;` | at 64, length 1 |
//! | `column 10000;=B…*C…` | 1 |
//! | `shift insert-rows 1 5 2;=B6` | 1!R7C1 at 1 4 4, back 1!R5C1, lost false |
//! | `move delete-rows 1 3 2;1 3 3 5 5` | 1 3 3 3 5, back 1 5 3 7 5, bent |
//! | `move delete-rows 1 3 2;rows 1 3 5` | rows 1 3 3, back rows 1 5 7, bent |
//! | `sound insert-rows 1 0 0` | not sound |
//! ```
//!
//! `home` is no case: from there on formulas are those of the cell in this sheet, row and column, counted from 0, and the
//! sheet of this name has the number 0.
//!
//! The status is 0 where every page could be read, each has cases and none differs, 1 where not, and 2 where there is no
//! memory or no output.
#![tactic(auto)]

mod found;
mod moving;
mod operation;
mod reading;
mod setting;
mod shifting;
mod show;

use case_files::{Tally, cells_of};
use found::found;
use setting::Setting;
use std::process::ExitCode;
use std::{env, fs, io};

fn main(rt: HostRuntime) -> ExitCode {
    match run_pages(&rt) {
        Ok(tally) if tally.is_clean() => ExitCode::SUCCESS,
        Ok(_) => ExitCode::from(1),
        Err(_) => ExitCode::from(2),
    }
}

// Runs the pages that the words after the program's name name.
fn run_pages(rt: &HostRuntime) -> io::Result<Tally> {
    let mut whole = Tally::default();
    let mut names = env::args(rt)?;
    let _program = names.next();
    'pages: for name in names {
        whole = whole.with(run_page(rt, &name)?);
    }
    Ok(whole)
}

// Runs the cases of a page, and prints how many they are.
fn run_page(rt: &HostRuntime, name: &str) -> io::Result<Tally> {
    match fs::read_to_string(rt, name) {
        Ok(text) => {
            let tally = run_text(rt, &text)?;
            println!(rt; "{name}: {tally}")?;
            Ok(tally)
        }
        Err(cause) => {
            println!(rt; "{name}: UNREADABLE: {cause}")?;
            Ok(Tally::default())
        }
    }
}

// Runs the cases of a text, and prints those that differ or can't be read.
fn run_text(rt: &HostRuntime, text: &str) -> io::Result<Tally> {
    let mut setting = Setting::first("");
    let mut tally = Tally::default();
    'lines: for line in text.lines() {
        if !line.starts_with("| `") {
            continue;
        }
        let (case, wanted) = cells_of(line).unwrap_or((line, ""));
        match Setting::of(rt.alloc(), case, wanted)? {
            Some(given) => setting = given,
            None => tally.count(holds(rt, &setting, case, wanted)?),
        }
    }
    Ok(tally)
}

// Whether what is found of a case is what is wanted; where it isn't, both are printed.
fn holds(rt: &HostRuntime, setting: &Setting, case: &str, wanted: &str) -> io::Result<bool> {
    let Some(found) = found(rt.alloc(), setting, case)? else {
        println!(rt; "    NO CASE: {case}")?;
        return Ok(false);
    };
    if found.as_str() == wanted {
        return Ok(true);
    }
    println!(rt; "    DIFFERS: {case}: found {found}, wanted {wanted}")?;
    Ok(false)
}
