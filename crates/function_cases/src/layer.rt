// Calls of what lies beneath the functions as they are written, and what they answer.
use crate::address::address_answer;
use crate::argument::arguments_of;
use crate::call::parts;
use crate::number::number_answer;
use crate::value::value_answer;
use cell_value::{Arg, Scalar};
use std::alloc::{AllocError, Global};

/// What a call such as `=round_to(2.5,"0")` answers: a value, or a text that says it. `None` where it isn't one that can be
/// read.
pub(crate) fn answer_of(alloc: Global, call: &str) -> Result<Option<Scalar>, AllocError> {
    let Some((word, arguments)) = parts(call) else {
        return Ok(None);
    };
    match arguments_of(alloc, arguments, None)? {
        Some(args) => answer(alloc, word, &args),
        None => Ok(None),
    }
}

// What the call of the word with these arguments answers.
fn answer(alloc: Global, word: &str, args: &[Arg]) -> Result<Option<Scalar>, AllocError> {
    if let Some(answer) = number_answer(alloc, word, args)? {
        return Ok(Some(answer));
    }
    match address_answer(alloc, word, args)? {
        Some(answer) => Ok(Some(answer)),
        None => value_answer(alloc, word, args),
    }
}
