// What the run of a case is given: words, a folder and streams in memory.

use crate::case::{Case, NamedBytes};
use book_files::{FileMap, MemFolder, MemSink, MemSource};
use std::alloc::{AllocError, Global};
use toml::Value;

// The columns that a case can fill, and how many cells of each.
const COLUMNS: &str = "ABCDEFGHIJKLMNOPQRSTUVWXYZ";

const COLUMN_CELLS: u32 = 40_000;

/// What a run is given.
pub(crate) struct Given {
    pub(crate) words: Vec<String>,
    pub(crate) folder: MemFolder,
    pub(crate) input: MemSource,
    pub(crate) out: MemSink,
}

// Written out, so that whoever drops one calls one function.
impl Drop for Given {
    fn drop(self) {
        let Given {
            words: _words,
            folder: _folder,
            input: _input,
            out: _out,
        } = self;
    }
}

impl Given {
    /// What a case gives; `None` where the case is written otherwise than it should be.
    pub(crate) fn of(alloc: Global, case: &Case) -> Result<Option<Given>, AllocError> {
        let mut parts = Parts::new(alloc)?;
        if !parts.read(case)? {
            return Ok(None);
        }
        let Parts {
            alloc: _,
            words,
            files,
            script,
            failing_loads,
            failing_reads,
            failing_writes,
        } = parts;
        let out = MemSink::new(alloc, failing_writes)?;
        Ok(Some(Given {
            words,
            folder: MemFolder::new(files, failing_loads),
            input: MemSource::new(script, failing_reads),
            out,
        }))
    }
}

// What folder and streams are made of.
#[derive(Drop)]
struct Parts {
    alloc: Global,
    words: Vec<String>,
    files: FileMap,
    script: Vec<u8>,
    failing_loads: Vec<u64>,
    failing_reads: Vec<u64>,
    failing_writes: Vec<u64>,
}

impl Parts {
    // No parts.
    fn new(alloc: Global) -> Result<Parts, AllocError> {
        Ok(Parts {
            alloc,
            words: Vec::new(alloc),
            files: FileMap::new(alloc)?,
            script: Vec::new(alloc),
            failing_loads: Vec::new(alloc),
            failing_reads: Vec::new(alloc),
            failing_writes: Vec::new(alloc),
        })
    }

    // Reads the parts of a case; whether all are written as they should be.
    fn read(&mut self, case: &Case) -> Result<bool, AllocError> {
        push_filling(self.alloc, &mut self.script, case.filled)?;
        Ok(
            case.script.push_to(&mut self.script)?
                && push_words(self.alloc, &mut self.words, case.words)?
                && put_files(self.alloc, &mut self.files, case.files)?
                && push_numbers(&mut self.failing_loads, case.failing.loads)?
                && push_numbers(&mut self.failing_reads, case.failing.reads)?
                && push_numbers(&mut self.failing_writes, case.failing.writes)?,
        )
    }
}

// Puts words at the end of others; whether all of the values are words.
fn push_words(
    alloc: Global,
    words: &mut Vec<String>,
    values: &[Value],
) -> Result<bool, AllocError> {
    'words: for value in values {
        match value.as_str() {
            Some(word) => words.push(String::from_str(alloc, word)?)?,
            None => return Ok(false),
        }
    }
    Ok(true)
}

// Puts numbers at the end of others; whether all of the values are numbers.
fn push_numbers(numbers: &mut Vec<u64>, values: &[Value]) -> Result<bool, AllocError> {
    'numbers: for value in values {
        match value.as_integer().and_then(|n| u64::try_from(n).ok()) {
            Some(number) => numbers.push(number)?,
            None => return Ok(false),
        }
    }
    Ok(true)
}

// Puts files among others; whether all of the values are files.
fn put_files(alloc: Global, files: &mut FileMap, values: &[Value]) -> Result<bool, AllocError> {
    'files: for value in values {
        if !put_file(alloc, files, value)? {
            return Ok(false);
        }
    }
    Ok(true)
}

// Puts a file among others; whether the value is one.
fn put_file(alloc: Global, files: &mut FileMap, value: &Value) -> Result<bool, AllocError> {
    let Some(file) = NamedBytes::of(value) else {
        return Ok(false);
    };
    let mut bytes = Vec::new(alloc);
    if !file.bytes.push_to(&mut bytes)? {
        return Ok(false);
    }
    files.put(file.name, bytes)?;
    Ok(true)
}

// Puts the lines that fill so many cells at the end of a script, column by column; those of the columns A to Z at most.
pub(crate) fn push_filling(
    alloc: Global,
    script: &mut Vec<u8>,
    count: u32,
) -> Result<(), AllocError> {
    let mut left = count;
    'columns: for column in COLUMNS.chars() {
        let rows = left.min(COLUMN_CELLS);
        'rows: for row in 1..=rows {
            let line = format!(in alloc; "set,{column}{row},1\n")?;
            script.extend_from_slice(line.as_bytes())?;
        }
        left -= rows;
    }
    Ok(())
}
