//! Runs cases of calls and formulas that are data. The program takes the names of files, and in each every row of a table
//! whose first cell stands between backticks says something: behind the word `calls` a call, behind the word `formulas` a
//! whole formula, each with what a person sees of its value in the second cell, or between backticks with the value itself,
//! a text between double quotes. It prints each case that differs or can't be read, and how many cases a file has.
//!
//! ```text
//! | `=SUM(A1:C1,2)` | 17 |
//! | `=LEFT(123)` | `"1"` |
//! | `=BANDS({0,1.5;2,5.4},1)` | 1.5 |
//! | `=round_to(2.5,"0")` | 3 |
//! ```
//!
//! An argument of a call is a number, a text between double quotes, TRUE, FALSE, a fault, a reference, a block of the
//! sheet that `sheet` holds, or a block whose values are written out: `{1,2;3,4}` has two rows of two cells.
//! BANDS and TIERS are rules of custom functions over such a block of pairs, and the number comes after it. A word in
//! small letters is a call of numbers, addresses or values, as the crates beneath the functions have it.
//! Before that it compares the words that no custom function may have with the functions that there are.
//!
//! Formulas are those of cell E5 on Sheet1, over the cells and names that rows give from there on, and the day is
//! 29 February 2024:
//!
//! ```text
//! | `B2` | 2.5 |
//! | `PRICES` | =$B$2:$B$3 |
//! | `=SUM(PRICES)` | 2.5 |
//! ```
//!
//! The status is 0 where every file could be read, each has cases and none differs, 1 where not, and 2 where there is
//! no memory or no output.
#![tactic(auto)]

ghost use Rattle.std.specs.Prelude.{◌≡◌, ◌<◌};
ghost use Rattle.custom_fn.specs.Rule.{rule_value};
ghost use Rattle.tariffs.specs.Tariffs as tariff;

mod address;
mod argument;
mod block;
mod call;
mod formula;
mod layer;
mod number;
mod page;
mod rule;
mod sheet;
mod value;
mod words;

use argument::literal;
use call::value_of;
use case_files::{Tally, cells_of};
use cell_value::Scalar;
use custom_fn::Registry;
use formula::FormulaPage;
use layer::answer_of;
use rule::value_by_rule;
use std::alloc::{AllocError, Global};
use std::marker::Brand;
use std::process::ExitCode;
use std::sync::ledger::{Blank, Ledger};
use std::{env, fs, io};
use steps::Steps;
use tariffs::{customs, levy, postage};
use words::run_words;

// What the rows of a file are.
#[derive(Clone, Copy, PartialEq, Eq)]
enum Kind {
    Calls,
    Formulas,
}

fn main(rt: HostRuntime) -> ExitCode {
    match run_files::<Brand>(&rt, Blank::new(1)) {
        Ok(tally) if tally.is_clean() => ExitCode::SUCCESS,
        Ok(_) => ExitCode::from(1),
        Err(_) => ExitCode::from(2),
    }
}

// Runs the cases of the files that the words after the program's name name, with the custom functions
// POSTAGE and LEVY.
fn run_files<L: Ledger>(rt: &HostRuntime, blank: Blank) -> io::Result<Tally>
    requires name { blank.name ≡ L.name }
    requires parts { blank.parts ≡ L.parts }
    requires some { 0 < blank.parts }
{
    let alloc = rt.alloc();
    let mut steps = Steps::<L>::new(blank);
    let by_weight = Box::new(
        alloc,
        |x: &Scalar| -> Scalar
            ensures { result ≡ rule_value tariff.postage x.now }
        { postage(x) },
    )?;
    let on_amount = Box::new(
        alloc,
        |x: &Scalar| -> Scalar
            ensures { result ≡ rule_value tariff.levy x.now }
        { levy(x) },
    )?;
    let registry = customs(alloc, by_weight, on_amount)?;
    run_all(rt, &registry, &mut steps)
}

// Compares the words of functions, and runs the cases of the files.
fn run_all<L: Ledger>(
    rt: &HostRuntime,
    registry: &Registry,
    steps: &mut Steps<L>,
) -> io::Result<Tally> {
    let of_words = run_words(rt)?;
    println!(rt; "words of functions: {of_words}")?;
    let mut words = env::args(rt)?;
    let _program = words.next();
    let words: Vec<String> = words.collect(rt.alloc())?;
    Ok(of_words.with(run_named(rt, &words, registry, steps)?))
}

// Runs the cases of the files that words name, each of the kind that the last word before it says.
fn run_named<L: Ledger>(
    rt: &HostRuntime,
    words: &[String],
    registry: &Registry,
    steps: &mut Steps<L>,
) -> io::Result<Tally> {
    let mut whole = Tally::default();
    let mut kind = Kind::Calls;
    'words: for word in words {
        match word.as_str() {
            "calls" => kind = Kind::Calls,
            "formulas" => kind = Kind::Formulas,
            name => whole = whole.with(run_file(rt, kind, name, registry, steps)?),
        }
    }
    Ok(whole)
}

// Runs the cases of a file, and prints how many they are.
fn run_file<L: Ledger>(
    rt: &HostRuntime,
    kind: Kind,
    name: &str,
    registry: &Registry,
    steps: &mut Steps<L>,
) -> io::Result<Tally> {
    match fs::read_to_string(rt, name) {
        Ok(text) => {
            let tally = run_text(rt, kind, &text, registry, steps)?;
            println!(rt; "{name}: {tally}")?;
            Ok(tally)
        }
        Err(cause) => {
            println!(rt; "{name}: UNREADABLE: {cause}")?;
            Ok(Tally::default())
        }
    }
}

// Runs the cases of a text, and prints those that differ or can't be read.
fn run_text<L: Ledger>(
    rt: &HostRuntime,
    kind: Kind,
    text: &str,
    registry: &Registry,
    steps: &mut Steps<L>,
) -> io::Result<Tally> {
    let mut page = FormulaPage::new(rt.alloc())?;
    run_lines(rt, kind, &mut page, text, registry, steps)
}

// The same over a page.
fn run_lines<L: Ledger>(
    rt: &HostRuntime,
    kind: Kind,
    page: &mut FormulaPage,
    text: &str,
    registry: &Registry,
    steps: &mut Steps<L>,
) -> io::Result<Tally> {
    let mut tally = Tally::default();
    'lines: for line in text.lines() {
        if is_row(kind, line) {
            run_row(rt, kind, page, line, registry, steps, &mut tally)?;
        }
    }
    Ok(tally)
}

// Whether the line is meant as a row that says something: its first cell stands between backticks, and among calls it
// begins as a formula.
fn is_row(kind: Kind, line: &str) -> bool {
    match kind {
        Kind::Calls => line.starts_with("| `="),
        Kind::Formulas => line.starts_with("| `"),
    }
}

// Counts the case of a row. A row that gives the page a cell or a name is a case only where that can't be done.
fn run_row<L: Ledger>(
    rt: &HostRuntime,
    kind: Kind,
    page: &mut FormulaPage,
    line: &str,
    registry: &Registry,
    steps: &mut Steps<L>,
    tally: &mut Tally,
) -> io::Result<()> {
    let Some((head, second)) = cells_of(line) else {
        tally.count(false);
        return println!(rt; "    NO CASE: {line}");
    };
    if head.starts_with('=') {
        let value = case_value(rt.alloc(), kind, page, head, registry, steps)?;
        tally.count(holds(rt, head, value.as_ref(), second)?);
    } else if !page.give(head, second, registry, steps)? {
        tally.count(false);
        println!(rt; "    NOT GIVEN: {head}")?;
    }
    Ok(())
}

// The value of a case; `None` where it can't be read.
fn case_value<L: Ledger>(
    alloc: Global,
    kind: Kind,
    page: &mut FormulaPage,
    head: &str,
    registry: &Registry,
    steps: &mut Steps<L>,
) -> Result<Option<Scalar>, AllocError> {
    match kind {
        Kind::Calls => call_value(alloc, head),
        Kind::Formulas => page.value(head, registry, steps),
    }
}

// The value of a call of a function, of a rule or of what lies beneath; `None` where it is neither.
fn call_value(alloc: Global, call: &str) -> Result<Option<Scalar>, AllocError> {
    if let Some(value) = value_of(alloc, call)? {
        return Ok(Some(value));
    }
    match value_by_rule(alloc, call)? {
        Some(value) => Ok(Some(value)),
        None => answer_of(alloc, call),
    }
}

// Whether the case has the value; where it hasn't, both are printed.
fn holds(rt: &HostRuntime, head: &str, value: Option<&Scalar>, wanted: &str) -> io::Result<bool> {
    let Some(value) = value else {
        println!(rt; "    NO CALL: {head}")?;
        return Ok(false);
    };
    if is_wanted(rt.alloc(), value, wanted)? {
        return Ok(true);
    }
    let shown = value.shown(rt.alloc())?;
    println!(rt;
        "    DIFFERS: {head} is {}, wanted {wanted}",
        shown.as_str()
    )?;
    Ok(false)
}

// Whether the value is the wanted one: with its kind where that stands between backticks, and else as a
// person sees it.
fn is_wanted(alloc: Global, value: &Scalar, wanted: &str) -> Result<bool, AllocError> {
    match between_backticks(wanted) {
        Some(written) => match literal(alloc, written)? {
            Some(meant) => Ok(*value == meant),
            None => Ok(false),
        },
        None => {
            let shown = value.shown(alloc)?;
            Ok(shown.as_str() == wanted)
        }
    }
}

// What stands between the backticks of a cell that is written so.
fn between_backticks(cell: &str) -> Option<&str> {
    cell.strip_prefix("`")?.strip_suffix("`")
}
