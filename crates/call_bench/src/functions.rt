// Functions that are timed, and their arguments.
use crate::area::column;
use cell_addr::Text;
use cell_value::{Arg, Scalar};
use fix_num::Fixed;
use func_look::{LookFn, look};
use func_math::{MathFn, math};
use func_text::{TextFn, texts};
use std::alloc::{AllocError, Global};
use std::io;

/// A function of a crate that is timed.
#[derive(Clone, Copy, Debug)]
pub enum Function {
    Math(MathFn),
    Look(LookFn),
    Text(TextFn),
}

impl Function {
    // The function's value of the arguments.
    fn value(self, alloc: Global, args: &[Arg]) -> Result<Scalar, AllocError> {
        match self {
            Function::Math(function) => math(alloc, function, args),
            Function::Look(function) => look(alloc, function, args),
            Function::Text(function) => texts(alloc, function, args),
        }
    }
}

/// Works the function of a name out so many times over so many rows or bytes, so many of which are filled, and prints its
/// value of the last time. Whether there is such a function, and all three numbers are given.
pub(crate) fn run(rt: &HostRuntime, name: &str, numbers: [Option<u32>; 3]) -> io::Result<bool> {
    let [Some(rows), Some(filled), Some(times)] = numbers else {
        return Ok(false);
    };
    let mut args = Vec::new(rt.alloc());
    match add_arguments(rt.alloc(), &mut args, name, rows, filled)? {
        Some(function) => {
            time(rt, function, &args, times)?;
            Ok(true)
        }
        None => Ok(false),
    }
}

// Works the function out so many times, and prints its value of the last time.
fn time(rt: &HostRuntime, function: Function, args: &[Arg], times: u32) -> io::Result<()> {
    let mut value = Scalar::Empty;
    'times: for _ in 0..times {
        value = function.value(rt.alloc(), args)?;
    }
    println!(rt; "{}", value.shown(rt.alloc())?.as_str())?;
    Ok(())
}

// The function of a case; adds its arguments: a column of so many rows, of which so many are filled with
// their numbers, and what is sought in it, or a text of so many bytes. `None` where there is no such case.
fn add_arguments(
    alloc: Global,
    args: &mut Vec<Arg>,
    name: &str,
    rows: u32,
    filled: u32,
) -> Result<Option<Function>, AllocError> {
    if let Some(function) = TextFn::named(name) {
        add_long_texts(alloc, args, function, rows)?;
        return Ok(Some(Function::Text(function)));
    }
    if let Some(function) = LookFn::named(name) {
        add_column_sought(alloc, args, function, rows, filled)?;
        return Ok(Some(Function::Look(function)));
    }
    let Some(function) = MathFn::named(name) else {
        return Ok(None);
    };
    add(args, cells(alloc, rows, filled)?)?;
    if function == MathFn::CountIf || function == MathFn::SumIf {
        add(args, Arg::One(text(alloc, "<>5")?))?;
    }
    Ok(Some(Function::Math(function)))
}

// Adds an argument.
fn add(args: &mut Vec<Arg>, argument: Arg) -> Result<(), AllocError> {
    args.push(argument)?;
    Ok(())
}

// Adds the arguments of a look-up: what is sought, the column, and how it is sought.
fn add_column_sought(
    alloc: Global,
    args: &mut Vec<Arg>,
    function: LookFn,
    rows: u32,
    filled: u32,
) -> Result<(), AllocError> {
    add(args, Arg::One(number(i64::from(rows) - 1)))?;
    add(args, cells(alloc, rows, filled)?)?;
    if function == LookFn::VLookup {
        add(args, Arg::One(number(1)))?;
    }
    add(args, Arg::One(number(0)))
}

// A column as an argument. Without rows it is one empty value.
fn cells(alloc: Global, rows: u32, filled: u32) -> Result<Arg, AllocError> {
    if rows == 0 {
        return Ok(Arg::One(Scalar::Empty));
    }
    Ok(Arg::Many(column(alloc, rows, filled)?))
}

// Adds the arguments of a function of texts: for FIND a text of half the bytes, all `a` but its last, and one of all
// bytes, all `a`; for SUBSTITUTE the second one, the first one, and a short one; for others the second.
fn add_long_texts(
    alloc: Global,
    args: &mut Vec<Arg>,
    function: TextFn,
    size: u32,
) -> Result<(), AllocError> {
    if function == TextFn::Find {
        add(args, Arg::One(sought(alloc, size)?))?;
        return add(args, Arg::One(searched(alloc, size)?));
    }
    add(args, Arg::One(searched(alloc, size)?))?;
    if function == TextFn::Substitute {
        add(args, Arg::One(sought(alloc, size)?))?;
        add(args, Arg::One(text(alloc, "c")?))?;
    }
    Ok(())
}

// The text of all bytes.
fn searched(alloc: Global, size: u32) -> Result<Scalar, AllocError> {
    Ok(Scalar::Text(Text::new(letters(alloc, size)?)))
}

// The text of half the bytes.
fn sought(alloc: Global, size: u32) -> Result<Scalar, AllocError> {
    let mut made = letters(alloc, size / 2)?;
    made.push('b')?;
    Ok(Scalar::Text(Text::new(made)))
}

// So many letters `a`.
fn letters(alloc: Global, count: u32) -> Result<String, AllocError> {
    let mut made = String::new(alloc);
    'letters: for _ in 0..count {
        made.push('a')?;
    }
    Ok(made)
}

// A text.
fn text(alloc: Global, content: &str) -> Result<Scalar, AllocError> {
    Ok(Scalar::Text(Text::from_str(alloc, content)?))
}

// A whole number.
fn number(number: i64) -> Scalar {
    Scalar::from(Fixed::from_int(number))
}
