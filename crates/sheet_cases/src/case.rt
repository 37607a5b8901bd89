// Cases as documents of TOML hold them.
use case_files::{Form, Key, Row};
use std::alloc::AllocError;
use toml::{Table, Value};

// The keys that a case may have.
const WORDS: &str = "words";

const FILES: &str = "file";

const DAY: &str = "day";

const FILLED: &str = "filled";

const SCRIPT: &str = "script";

const LATIN1: &str = "latin1";

const FAILING_LOADS: &str = "failing_loads";

const FAILING_READS: &str = "failing_reads";

const FAILING_WRITES: &str = "failing_writes";

const STATUS: &str = "status";

// The keys of a document, of a case, and of a file of a case's folder: those that it has, and those that it may have.
const DOCUMENT: [Key; 1] = [("case", Form::Array)];

const CASE: [Key; 2] = [("shows", Form::Text), ("prints", Form::Text)];

const CASE_MORE: [Key; 10] = [
    (WORDS, Form::Array),
    (FILES, Form::Array),
    (DAY, Form::Number),
    (FILLED, Form::Number),
    (SCRIPT, Form::Text),
    (LATIN1, Form::Truth),
    (FAILING_LOADS, Form::Array),
    (FAILING_READS, Form::Array),
    (FAILING_WRITES, Form::Array),
    (STATUS, Form::Number),
];

const FILE: [Key; 2] = [("name", Form::Text), ("text", Form::Text)];

const FILE_MORE: [Key; 1] = [(LATIN1, Form::Truth)];

// The day of a case that names none: 2024-01-01.
const TODAY: i32 = 45_292;

/// What a run is given, and what it must print.
#[derive(Clone, Copy, Debug)]
pub(crate) struct Case<'a> {
    /// What the case shows.
    pub(crate) shows: &'a str,
    /// The words of the command line.
    pub(crate) words: &'a [Value],
    /// The files of the folder.
    pub(crate) files: &'a [Value],
    /// The serial number of today.
    pub(crate) day: i32,
    /// How many cells are filled before the script, column by column from A1 on; the run answers `ok` to each.
    pub(crate) filled: u32,
    /// The script, which the source has.
    pub(crate) script: Written<'a>,
    pub(crate) failing: Failing<'a>,
    /// What the run must print.
    pub(crate) prints: &'a str,
    /// The status that the run must answer.
    pub(crate) status: u32,
}

impl<'a> Case<'a> {
    /// The case of a value of a document; `None` where it is none.
    pub(crate) fn of(value: &'a Value) -> Option<Case<'a>> {
        let row = Row::new(value.as_table()?, &CASE, &CASE_MORE)?;
        Some(Case {
            shows: row.text("shows")?,
            words: row.values(WORDS).unwrap_or_default(),
            files: row.values(FILES).unwrap_or_default(),
            day: day_of(row)?,
            filled: row.number(FILLED).unwrap_or(0),
            script: Written::of(row, row.text(SCRIPT).unwrap_or("")),
            failing: Failing::of(row),
            prints: row.text("prints")?,
            status: row.number(STATUS).unwrap_or(0),
        })
    }
}

// The day of a case; `None` where its number is none of a day.
fn day_of(row: Row) -> Option<i32> {
    match row.number(DAY) {
        Some(day) => i32::try_from(day).ok(),
        None => Some(TODAY),
    }
}

/// The numbers of the calls that fail, counted from 1.
#[derive(Clone, Copy, Debug)]
pub(crate) struct Failing<'a> {
    /// Those of the folder's calls.
    pub(crate) loads: &'a [Value],
    /// Those of the source's calls.
    pub(crate) reads: &'a [Value],
    /// Those of the sink's calls.
    pub(crate) writes: &'a [Value],
}

impl<'a> Failing<'a> {
    // The calls that a case says.
    fn of(row: Row<'a>) -> Failing<'a> {
        Failing {
            loads: row.values(FAILING_LOADS).unwrap_or_default(),
            reads: row.values(FAILING_READS).unwrap_or_default(),
            writes: row.values(FAILING_WRITES).unwrap_or_default(),
        }
    }
}

/// Bytes that are written down as a text.
#[derive(Clone, Copy, Debug)]
pub(crate) struct Written<'a> {
    text: &'a str,
    // Whether each character, none beyond U+00FF, is a byte; else the bytes are those of UTF-8.
    latin1: bool,
}

impl<'a> Written<'a> {
    // The bytes that a text of the row is.
    fn of(row: Row<'a>, text: &'a str) -> Written<'a> {
        Written {
            text,
            latin1: row.truth(LATIN1).unwrap_or(false),
        }
    }

    /// Puts the bytes at the end of others; whether they are written as they should be.
    pub(crate) fn push_to(self, bytes: &mut Vec<u8>) -> Result<bool, AllocError> {
        if !self.latin1 {
            bytes.extend_from_slice(self.text.as_bytes())?;
            return Ok(true);
        }
        'characters: for c in self.text.chars() {
            match u8::try_from(u32::from(c)) {
                Ok(byte) => bytes.push(byte)?,
                Err(_) => return Ok(false),
            }
        }
        Ok(true)
    }
}

/// A file of the folder.
#[derive(Clone, Copy, Debug)]
pub(crate) struct NamedBytes<'a> {
    /// Its name, as words give it.
    pub(crate) name: &'a str,
    pub(crate) bytes: Written<'a>,
}

impl<'a> NamedBytes<'a> {
    /// The file of a value of a case; `None` where it is none.
    pub(crate) fn of(value: &'a Value) -> Option<NamedBytes<'a>> {
        let row = Row::new(value.as_table()?, &FILE, &FILE_MORE)?;
        Some(NamedBytes {
            name: row.text("name")?,
            bytes: Written::of(row, row.text("text")?),
        })
    }
}

/// The values of a document's cases; `None` where it has something else.
pub(crate) fn cases_of(document: &Table) -> Option<&[Value]> {
    let row = Row::new(document, &DOCUMENT, &[])?;
    row.values("case")
}
