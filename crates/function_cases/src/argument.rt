// The arguments of a call as they are written.
use crate::block::{of_sheet, value_in, written};
use crate::sheet::value_at;
use calc_terms::DataFn;
use cell_addr::{after_quoted, quoted_text, read_area};
use cell_value::{Arg, FaultKind, Scalar};
use fix_num::Fixed;
use std::alloc::{AllocError, Global};

/// The arguments that the text holds, parted by commas: where nothing stands between two, the argument is empty. Without a
/// function a reference to one cell is its value. `None` where one can't be read.
pub(crate) fn arguments_of(
    alloc: Global,
    text: &str,
    function: Option<DataFn>,
) -> Result<Option<Vec<Arg>>, AllocError> {
    let mut args = Vec::new(alloc);
    if text.is_empty() || add_arguments(alloc, text, function, &mut args)? {
        Ok(Some(args))
    } else {
        Ok(None)
    }
}

// Adds the arguments that the text holds; whether each can be read.
fn add_arguments(
    alloc: Global,
    text: &str,
    function: Option<DataFn>,
    args: &mut Vec<Arg>,
) -> Result<bool, AllocError> {
    let mut open = String::new(alloc);
    'pieces: for piece in text.split(',') {
        open.push_str(piece)?;
        if !is_whole(&open) {
            open.push(',')?;
            continue;
        }
        if !add_argument(alloc, &open, takes_block(function, args.len()), args)? {
            return Ok(false);
        }
        open.clear();
    }
    Ok(open.is_empty())
}

// Adds the argument that the text holds; whether it can be read.
fn add_argument(
    alloc: Global,
    text: &str,
    is_block: bool,
    args: &mut Vec<Arg>,
) -> Result<bool, AllocError> {
    match argument_of(alloc, text, is_block)? {
        Some(argument) => {
            args.push(argument)?;
            Ok(true)
        }
        None => Ok(false),
    }
}

// Whether the argument at this place, from 0, is a list or a block.
fn takes_block(function: Option<DataFn>, at: usize) -> bool {
    match function {
        Some(function) => function.takes_block(at),
        None => false,
    }
}

// Whether each text and each block of it is closed.
fn is_whole(text: &str) -> bool {
    let quotes = text.chars().filter(|c| *c == '"').count();
    quotes % 2 == 0 && (!text.starts_with("{") || text.ends_with("}"))
}

// The argument that the text holds, where a reference is a block or the value of its cell.
fn argument_of(alloc: Global, text: &str, is_block: bool) -> Result<Option<Arg>, AllocError> {
    if let Some(values) = values_of_block(text) {
        return match written(alloc, values)? {
            Some(area) => Ok(Some(Arg::Many(area))),
            None => Ok(None),
        };
    }
    if let Some(spot) = read_area(text.as_bytes()) {
        if spot.single && !is_block {
            return Ok(Some(Arg::One(value_at(alloc, spot.top, spot.left)?)));
        }
        return Ok(Some(Arg::Many(of_sheet(alloc, &spot)?)));
    }
    match value_in(alloc, text)? {
        Some(value) => Ok(Some(Arg::One(value))),
        None => Ok(None),
    }
}

// What stands between the braces of a block whose values are written out.
fn values_of_block(text: &str) -> Option<&str> {
    text.strip_prefix("{")?.strip_suffix("}")
}

/// The value that is written out, or `None` where it has no form of one.
pub(crate) fn literal(alloc: Global, text: &str) -> Result<Option<Scalar>, AllocError> {
    if let Some(after) = text.strip_prefix("\"") {
        return match (after_quoted(after, '"'), quoted_text(alloc, after, '"')?) {
            (Some(""), Some(content)) => Ok(Some(Scalar::Text(content))),
            _ => Ok(None),
        };
    }
    match text {
        "TRUE" => Ok(Some(Scalar::Truth(true))),
        "FALSE" => Ok(Some(Scalar::Truth(false))),
        _ => Ok(number_or_fault(text)),
    }
}

// The number or the fault that is written out.
fn number_or_fault(text: &str) -> Option<Scalar> {
    if let Some(fault) = FaultKind::named(text) {
        return Some(Scalar::Fault(fault));
    }
    match Fixed::from_text(text) {
        Ok(number) => Some(Scalar::Number(number)),
        Err(_) => None,
    }
}
