//! The program `sheetrun`: it makes the real folder and streams, the day and the custom functions, and calls
//! `run` of the library `sheet_cli`, which does everything else.
#![tactic(auto)]

ghost use Rattle.std.specs.Prelude.{◌≡◌, ◌<◌};
ghost use Rattle.custom_fn.specs.Rule.{rule_value};
ghost use Rattle.tariffs.specs.Tariffs as tariff;

use book_files::{DiskFolder, StdSink, StdSource};
use calc_eval::Customs;
use cell_value::Scalar;
use sheet_cli::run;
use std::marker::Brand;
use std::process::ExitCode;
use std::sync::ledger::{Blank, Ledger};
use std::time::{SystemTime, UNIX_EPOCH};
use std::{env, io};
use steps::Steps;
use tariffs::{customs, levy, postage};

// The status of a program that has no memory for its words or its custom functions.
const NO_MEMORY: u8 = 7;

// The serial number of 1970-01-01.
const EPOCH: i32 = 25_569;

const SECONDS_A_DAY: u64 = 86_400;

// A serial number of no date.
const NO_DAY: i32 = -1;

// A word that the command line refuses, for one that is no text.
const REFUSED_WORD: &str = "-";

fn main(rt: HostRuntime) -> ExitCode {
    match sheetrun::<Brand>(&rt, Blank::new(1)) {
        Ok(status) => ExitCode::from(status),
        Err(_) => ExitCode::from(NO_MEMORY),
    }
}

// The status of `run` with the words after the program's name and the program's two custom functions.
fn sheetrun<L: Ledger>(rt: &HostRuntime, blank: Blank) -> io::Result<u8>
    requires name { blank.name ≡ L.name }
    requires parts { blank.parts ≡ L.parts }
    requires some { 0 < blank.parts }
{
    let alloc = rt.alloc();
    let mut steps = Steps::<L>::new(blank);
    let words = words(rt)?;
    let by_weight = Box::new(
        alloc,
        |x: &Scalar| -> Scalar
            ensures { result ≡ rule_value tariff.postage x.now }
        { postage(x) },
    )?;
    let on_amount = Box::new(
        alloc,
        |x: &Scalar| -> Scalar
            ensures { result ≡ rule_value tariff.levy x.now }
        { levy(x) },
    )?;
    let registry = customs(alloc, by_weight, on_amount)?;
    Ok(run_outside(rt, &words, registry, &mut steps))
}

// The status of `run` over the real folder and streams.
fn run_outside<C: Customs, L: Ledger>(
    rt: &HostRuntime,
    words: &[String],
    registry: C,
    steps: &mut Steps<L>,
) -> u8 {
    let mut folder = DiskFolder::new(rt);
    let mut input = StdSource::new(rt);
    let mut out = StdSink::new(rt);
    run(
        rt.alloc(),
        words,
        &mut folder,
        &mut input,
        &mut out,
        today(rt),
        registry,
        steps,
    )
}

// The day of the system's clock. A clock that can't be read or that stands before 1970 gives no date, so that TODAY is
// `#NUM!`.
fn today(rt: &HostRuntime) -> i32 {
    let Ok(now) = SystemTime::now(rt) else {
        return NO_DAY;
    };
    let Ok(since) = now.duration_since(UNIX_EPOCH) else {
        return NO_DAY;
    };
    match i32::try_from(since.as_secs() / SECONDS_A_DAY) {
        Ok(days) => days.checked_add(EPOCH).unwrap_or(NO_DAY),
        Err(_) => NO_DAY,
    }
}

// The words after the program's name. Where one of them isn't UTF-8, a word stands here for all of them that is refused as
// it would be, with the usage line.
fn words(rt: &HostRuntime) -> io::Result<Vec<String>> {
    match env::args(rt) {
        Ok(words) => {
            let mut words = words;
            let _program = words.next();
            Ok(words.collect(rt.alloc())?)
        }
        Err(error) if error.kind() == io::ErrorKind::InvalidData => {
            let unreadable = String::from_str(rt.alloc(), REFUSED_WORD)?;
            Ok(vec![in rt.alloc(); unreadable]?)
        }
        Err(error) => Err(error),
    }
}
