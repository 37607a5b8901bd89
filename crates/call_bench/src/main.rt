//! Times calls of single crates, for the scripts of `bench/`. The first word says which calls, and others of what size:
//!
//! ```text
//! call_bench functions SUM 100000 100000 20   a function over a column or a long text, so many times
//! call_bench lazy 100000 1000                 a store of so many lazy formulas, over so many operations
//! call_bench ranges                           kept summaries of ranges
//! call_bench graphs "1000 prefix sums"        a graph of needs, or all of them where no title is given
//! call_bench titles                           the titles of the graphs
//! call_bench lines                            a grid, over edits of its lines
//! ```
//!
//! The status is 2 where the words name no calls.
#![tactic(auto)]

ghost use Rattle.std.specs.Prelude.{◌≡◌, ◌<◌};

mod area;
mod functions;
mod graphs;
mod lazy;
mod lines;
mod onward;
mod ranges;
mod reading;
mod shapes;

use std::marker::Brand;
use std::process::ExitCode;
use std::sync::ledger::{Blank, Ledger};
use std::{env, io};
use steps::Steps;

// The words behind that which says what is timed.
#[derive(Drop)]
struct Words {
    first: Option<String>,
    numbers: [Option<u32>; 3],
}

fn main(rt: HostRuntime) -> ExitCode {
    match run::<Brand>(&rt, Blank::new(1)) {
        Ok(true) => ExitCode::SUCCESS,
        Ok(false) => ExitCode::from(2),
        Err(_) => ExitCode::FAILURE,
    }
}

// Whether the words name calls; then these are timed.
fn run<L: Ledger>(rt: &HostRuntime, blank: Blank) -> io::Result<bool>
    requires name { blank.name ≡ L.name }
    requires parts { blank.parts ≡ L.parts }
    requires some { 0 < blank.parts }
{
    let mut steps = Steps::<L>::new(blank);
    let mut words = env::args(rt)?;
    let _program = words.next();
    let Some(calls) = words.next() else {
        return Ok(false);
    };
    let words = Words {
        first: words.next(),
        numbers: [
            number(words.next()),
            number(words.next()),
            number(words.next()),
        ],
    };
    time(rt, &calls, &words, &mut steps)
}

// Whether the word and those behind it name calls; then these are timed.
fn time<L: Ledger>(
    rt: &HostRuntime,
    calls: &str,
    words: &Words,
    steps: &mut Steps<L>,
) -> io::Result<bool> {
    let first = match &words.first {
        Some(word) => word.as_str(),
        None => "",
    };
    match calls {
        "functions" => functions::run(rt, first, words.numbers),
        "lazy" => lazy::run(rt, first, words.numbers[0]),
        "ranges" => ranges::run(rt, steps),
        "graphs" => graphs::run(rt, first),
        "titles" => graphs::print_titles(rt),
        "lines" => lines::run(rt),
        _ => Ok(false),
    }
}

// The number that a word spells.
fn number(word: Option<String>) -> Option<u32> {
    word?.parse::<u32>().ok()
}
