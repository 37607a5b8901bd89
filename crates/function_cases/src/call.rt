// Calls of functions as they are written, and their values.
use crate::argument::arguments_of;
use calc_terms::{DataFn, data_value};
use cell_value::Scalar;
use std::alloc::{AllocError, Global};

/// The day that TODAY is given: 29 February 2024.
const TODAY: i32 = 45_351;

/// The value of a call such as `=SUM(1,2)`, or `None` where it isn't one that can be read.
pub(crate) fn value_of(alloc: Global, call: &str) -> Result<Option<Scalar>, AllocError> {
    let Some((word, arguments)) = parts(call) else {
        return Ok(None);
    };
    let Some(function) = DataFn::named(word) else {
        return Ok(None);
    };
    match arguments_of(alloc, arguments, Some(function))? {
        Some(args) => Ok(Some(data_value(alloc, function, &args, TODAY)?)),
        None => Ok(None),
    }
}

/// The word of a call, and what stands between its parentheses.
pub(crate) fn parts(call: &str) -> Option<(&str, &str)> {
    let (word, rest) = call.strip_prefix("=")?.split_once('(')?;
    let arguments = rest.strip_suffix(")")?;
    Some((word, arguments))
}
