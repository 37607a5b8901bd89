//! Runs cases that are data: each has words, files, a script, what is printed and the status. The program
//! takes the names of files of cases, runs each case through `sheet_cli::run` over a folder and streams in memory,
//! and prints a line a case, each difference, and at the end how many cases it ran. A case that is a script alone is run a second
//! time, by an engine that is taken apart after each command and joined again, and must print the same.
//!
//! ```toml
//! [[case]]
//! shows = "tenths add exactly"
//! script = '''
//! set,A1,=0.1+0.2
//! value,A1
//! '''
//! prints = '''
//! ok
//! 0.3
//! '''
//! ```
//!
//! The status is 0 where every file could be read, each has cases and none differs, 1 where not, and 2 where there is no
//! memory or no output.
#![tactic(auto)]

mod apart;
mod case;
mod given;

ghost use Rattle.std.specs.Prelude.{◌≡◌, ◌<◌};
ghost use Rattle.custom_fn.specs.Rule.{rule_value};
ghost use Rattle.tariffs.specs.Tariffs as tariff;

use apart::{answered, is_script};
use calc_eval::Customs;
use case::{Case, cases_of};
use case_files::Tally;
use cell_value::Scalar;
use given::Given;
use std::alloc::{AllocError, Global};
use std::marker::Brand;
use std::process::ExitCode;
use std::sync::ledger::{Blank, Ledger};
use std::{env, fs, io};
use steps::Steps;
use tariffs::{customs, levy, postage};
use toml::{Table, Value};

fn main(rt: HostRuntime) -> ExitCode {
    match run_files::<Brand>(&rt, Blank::new(1)) {
        Ok(tally) if tally.is_clean() => ExitCode::SUCCESS,
        Ok(_) => ExitCode::from(1),
        Err(_) => ExitCode::from(2),
    }
}

// Runs the cases of the files that the words after the program's name name.
fn run_files<L: Ledger>(rt: &HostRuntime, blank: Blank) -> io::Result<Tally>
    requires name { blank.name ≡ L.name }
    requires parts { blank.parts ≡ L.parts }
    requires some { 0 < blank.parts }
{
    let mut steps = Steps::<L>::new(blank);
    let mut whole = Tally::default();
    let mut names = env::args(rt)?;
    let _program = names.next();
    'files: for name in names {
        println!(rt; "{name}")?;
        whole = whole.with(run_file(rt, &name, &mut steps)?);
    }
    println!(rt; "{whole}")?;
    Ok(whole)
}

// Runs the cases of a file.
fn run_file<L: Ledger>(rt: &HostRuntime, name: &str, steps: &mut Steps<L>) -> io::Result<Tally> {
    match document_of(rt, name) {
        Ok(document) => run_document(rt, &document, steps),
        Err(cause) => {
            println!(rt; "    UNREADABLE: {cause}")?;
            Ok(Tally::default())
        }
    }
}

// The document that a file holds.
fn document_of(rt: &HostRuntime, name: &str) -> anyhow::Result<Table> {
    let text = fs::read_to_string(rt, name)?;
    let document = toml::table_from_str(rt.alloc(), &text)?;
    Ok(document)
}

// Runs the cases of a document.
fn run_document<L: Ledger>(
    rt: &HostRuntime,
    document: &Table,
    steps: &mut Steps<L>,
) -> io::Result<Tally> {
    let Some(cases) = cases_of(document) else {
        println!(rt; "    UNREADABLE: not only cases")?;
        return Ok(Tally::default());
    };
    let mut tally = Tally::default();
    'cases: for value in cases {
        tally.count(value_holds(rt, value, steps)?);
    }
    if tally.cases == 0 {
        println!(rt; "    NO CASES")?;
    }
    Ok(tally)
}

// Whether a value is a case whose run answers as it should; it prints what the case shows, or where it differs.
fn value_holds<L: Ledger>(
    rt: &HostRuntime,
    value: &Value,
    steps: &mut Steps<L>,
) -> io::Result<bool> {
    let Some(case) = Case::of(value) else {
        println!(rt; "    UNREADABLE: a case has other keys or values than it should")?;
        return Ok(false);
    };
    let Some(mut given) = Given::of(rt.alloc(), &case)? else {
        println!(rt; "    UNREADABLE: {}", case.shows)?;
        return Ok(false);
    };
    holds(rt, &case, &mut given, steps)
}

// Whether the run of a case answers as it should, and so the second one, where the case is a script alone.
fn holds<L: Ledger>(
    rt: &HostRuntime,
    case: &Case,
    given: &mut Given,
    steps: &mut Steps<L>,
) -> io::Result<bool> {
    let wanted = printed(rt.alloc(), case)?;
    if !runs(rt, case, given, wanted.as_str(), steps)? {
        return Ok(false);
    }
    if !is_script(case) {
        println!(rt; "    {}", case.shows)?;
        return Ok(true);
    }
    runs_apart(rt, case, given, wanted.as_str(), steps)
}

// Whether the program's run answers a case as it should; it prints where it doesn't.
fn runs<L: Ledger>(
    rt: &HostRuntime,
    case: &Case,
    given: &mut Given,
    wanted: &str,
    steps: &mut Steps<L>,
) -> io::Result<bool> {
    let ran = answer(rt.alloc(), case, given, Way::Run, steps)?;
    if u32::from(ran.status) == case.status && ran.out.as_slice() == wanted.as_bytes() {
        return Ok(true);
    }
    println!(rt; "    DIFFERS: {}", case.shows)?;
    println!(rt; "        status {}, wanted {}", ran.status, case.status)?;
    print_differences(rt, &ran.out, wanted)?;
    Ok(false)
}

// Whether an engine that is taken apart answers it so too; it prints what the case shows, or where it differs.
fn runs_apart<L: Ledger>(
    rt: &HostRuntime,
    case: &Case,
    given: &mut Given,
    wanted: &str,
    steps: &mut Steps<L>,
) -> io::Result<bool> {
    let apart = answer(rt.alloc(), case, given, Way::TakenApart, steps)?;
    if apart.out.as_slice() == wanted.as_bytes() {
        println!(rt; "    {} (and taken apart)", case.shows)?;
        return Ok(true);
    }
    println!(rt; "    DIFFERS TAKEN APART: {}", case.shows)?;
    print_differences(rt, &apart.out, wanted)?;
    Ok(false)
}

// What the run of a case must print.
fn printed(alloc: Global, case: &Case) -> Result<String, AllocError> {
    let mut prints = "ok\n".repeat(alloc, case.filled as usize)?;
    prints.push_str(case.prints)?;
    Ok(prints)
}

// How a case is answered.
#[derive(Clone, Copy)]
enum Way {
    // By the program's run, over all that the case gives.
    Run,
    // By an engine that is taken apart after each command, over the script alone.
    TakenApart,
}

// What a run of a case ended with, and what it printed.
#[derive(Drop)]
struct Output {
    status: u8,
    out: Vec<u8>,
}

// Answers a case. The custom functions are those of the program.
fn answer<L: Ledger>(
    alloc: Global,
    case: &Case,
    given: &mut Given,
    way: Way,
    steps: &mut Steps<L>,
) -> Result<Output, AllocError> {
    let by_weight = Box::new(
        alloc,
        |x: &Scalar| -> Scalar
            ensures { result ≡ rule_value tariff.postage x.now }
        { postage(x) },
    )?;
    let on_amount = Box::new(
        alloc,
        |x: &Scalar| -> Scalar
            ensures { result ≡ rule_value tariff.levy x.now }
        { levy(x) },
    )?;
    let registry = customs(alloc, by_weight, on_amount)?;
    match way {
        Way::Run => answer_by_run(alloc, given, case.day, registry, steps),
        Way::TakenApart => Ok(Output {
            status: 0,
            out: answered(alloc, case, registry, steps)?,
        }),
    }
}

// Answers a case by the program's run.
fn answer_by_run<C: Customs, L: Ledger>(
    alloc: Global,
    given: &mut Given,
    day: i32,
    registry: C,
    steps: &mut Steps<L>,
) -> Result<Output, AllocError> {
    let status = sheet_cli::run(
        alloc,
        &given.words,
        &mut given.folder,
        &mut given.input,
        &mut given.out,
        day,
        registry,
        steps,
    );
    let mut out = Vec::new(alloc);
    out.extend_from_slice(given.out.bytes())?;
    Ok(Output { status, out })
}

// Prints each line that isn't the wanted one, and those that are too many.
fn print_differences(rt: &HostRuntime, out: &[u8], wanted: &str) -> io::Result<()> {
    match str::from_utf8(out) {
        Ok(printed) => print_lines(rt, printed, wanted),
        Err(_) => println!(rt; "        what was printed isn't UTF-8"),
    }
}

// The same of lines.
fn print_lines(rt: &HostRuntime, printed: &str, wanted: &str) -> io::Result<()> {
    let mut printed = printed.lines();
    'lines: for (i, line) in wanted.lines().enumerate() {
        let shown = printed.next().unwrap_or("(nothing)");
        if shown != line {
            println!(rt; "        line {i} is {shown}, wanted {line}")?;
        }
    }
    'rest: for line in printed {
        println!(rt; "        one line too many: {line}")?;
    }
    Ok(())
}
