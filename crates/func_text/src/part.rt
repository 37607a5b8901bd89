// LEN, LEFT, RIGHT and MID.
ghost use Rattle.std.specs.Prelude.{◌≡◌, IfOk, chars, drop, length, take};
ghost use Rattle.func_text.specs.Parts.{left, left_value, len_value, mid, mid_value, right, right_value};

use crate::argument::{characters, count_characters, made, one_text, text_and_count, text_of};
use cell_value::{Arg, FaultKind, Scalar};
use func_args::{counted, number_value, whole_of};
use std::alloc::{AllocError, Global};

/// `LEN(T)`: how many characters the text has.
pub(crate) fn len_value(alloc: Global, args: &[Arg]) -> Result<Scalar, AllocError>
    ensures { IfOk result (λ value. value ≡ len_value args.now) }
{
    match one_text(alloc, args)? {
        Ok(text) => Ok(number_value(counted(count_characters(text.as_str())))),
        Err(fault) => Ok(Scalar::Fault(fault)),
    }
}

/// `LEFT(T [, N])`: the first characters.
pub(crate) fn left_value(alloc: Global, args: &[Arg]) -> Result<Scalar, AllocError>
    ensures { IfOk result (λ value. value ≡ left_value args.now) }
{
    match text_and_count(alloc, args)? {
        Ok((text, count)) => left(alloc, text.as_str(), count),
        Err(fault) => Ok(Scalar::Fault(fault)),
    }
}

// The first so many characters, or all where there are no more.
fn left(alloc: Global, text: &str, count: i64) -> Result<Scalar, AllocError>
    ensures { IfOk result (λ value. value ≡ left text.now count) }
{
    if count < 0 {
        return Ok(Scalar::Fault(FaultKind::Value));
    }
    let found = characters(alloc, text)?;
    made(alloc, first(&found, count.unsigned_abs()))
}

/// `RIGHT(T [, N])`: the last characters.
pub(crate) fn right_value(alloc: Global, args: &[Arg]) -> Result<Scalar, AllocError>
    ensures { IfOk result (λ value. value ≡ right_value args.now) }
{
    match text_and_count(alloc, args)? {
        Ok((text, count)) => right(alloc, text.as_str(), count),
        Err(fault) => Ok(Scalar::Fault(fault)),
    }
}

// The last so many characters, or all where there are no more.
fn right(alloc: Global, text: &str, count: i64) -> Result<Scalar, AllocError>
    ensures { IfOk result (λ value. value ≡ right text.now count) }
{
    if count < 0 {
        return Ok(Scalar::Fault(FaultKind::Value));
    }
    let found = characters(alloc, text)?;
    let before = (found.len() as u64).saturating_sub(count.unsigned_abs());
    made(alloc, after(&found, before))
}

/// `MID(T, N, N)`: so many characters from a position on.
pub(crate) fn mid_value(alloc: Global, args: &[Arg]) -> Result<Scalar, AllocError>
    ensures { IfOk result (λ value. value ≡ mid_value args.now) }
{
    match args {
        [first, second, third] => {
            match (text_of(alloc, first)?, whole_of(second), whole_of(third)) {
                (Ok(text), Ok(start), Ok(count)) => mid(alloc, text.as_str(), start, count),
                (Err(fault), _, _) | (_, Err(fault), _) | (_, _, Err(fault)) => {
                    Ok(Scalar::Fault(fault))
                }
            }
        }
        _ => Ok(Scalar::Fault(FaultKind::Na)),
    }
}

// So many characters from this position on, from 1.
fn mid(alloc: Global, text: &str, start: i64, count: i64) -> Result<Scalar, AllocError>
    ensures { IfOk result (λ value. value ≡ mid text.now start count) }
{
    if start < 1 || count < 0 {
        return Ok(Scalar::Fault(FaultKind::Value));
    }
    let found = characters(alloc, text)?;
    let rest = after(&found, start.unsigned_abs() - 1);
    made(alloc, first(rest, count.unsigned_abs()))
}

// The first so many characters, or all where there are no more.
fn first(characters: &[char], count: u64) -> &[char]
    ensures { result.now ≡ take count characters.now }
{
    if count < characters.len() as u64 {
        &characters[..count as usize]
    } else {
        characters
    }
}

// The characters after the first so many.
fn after(characters: &[char], count: u64) -> &[char]
    ensures { result.now ≡ drop count characters.now }
{
    if count < characters.len() as u64 {
        &characters[count as usize..]
    } else {
        &characters[characters.len()..]
    }
}
