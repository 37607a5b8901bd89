// Calls of values, of words and of days.
use calc_terms::DataFn;
use cell_addr::Text;
use cell_value::{Arg, FaultKind, Scalar};
use fix_num::Fixed;
use func_date::{DateFn, dates};
use std::alloc::{AllocError, Global};
use std::cmp::Ordering;

/// What a call of one value or two answers; `None` where it is no such call.
pub(crate) fn value_answer(
    alloc: Global,
    word: &str,
    args: &[Arg],
) -> Result<Option<Scalar>, AllocError> {
    match args {
        [Arg::One(value)] => of_one(alloc, word, value),
        [Arg::One(left), Arg::One(right)] if word == "compare" => {
            Ok(Some(compared(alloc, left, right)?))
        }
        _ => Ok(None),
    }
}

// What the call of one value answers.
fn of_one(alloc: Global, word: &str, value: &Scalar) -> Result<Option<Scalar>, AllocError> {
    match word {
        "as_number" => Ok(Some(number_or_fault(value.as_number()))),
        "as_truth" => Ok(Some(truth_or_fault(value.as_truth()))),
        "as_text" => Ok(Some(value.as_text(alloc)?)),
        "shown" => Ok(Some(Scalar::Text(value.shown(alloc)?))),
        "copy" => Ok(Some(value.copy(alloc)?)),
        "named" => Ok(named(value)),
        "is_function" => Ok(is_function(value)),
        "today" => today(value),
        _ => Ok(None),
    }
}

// A number, or why there is none.
fn number_or_fault(number: Result<Fixed, FaultKind>) -> Scalar {
    match number {
        Ok(number) => Scalar::Number(number),
        Err(fault) => Scalar::Fault(fault),
    }
}

// A truth value, or why there is none.
fn truth_or_fault(truth: Result<bool, FaultKind>) -> Scalar {
    match truth {
        Ok(truth) => Scalar::Truth(truth),
        Err(fault) => Scalar::Fault(fault),
    }
}

// The fault that a text names, or nothing.
fn named(value: &Scalar) -> Option<Scalar> {
    let Scalar::Text(text) = value else {
        return None;
    };
    match FaultKind::named(text.as_str()) {
        Some(fault) => Some(Scalar::Fault(fault)),
        None => Some(Scalar::Empty),
    }
}

// Whether a text is the word of a function, in capitals.
fn is_function(value: &Scalar) -> Option<Scalar> {
    match value {
        Scalar::Text(word) => Some(Scalar::Truth(DataFn::named(word.as_str()).is_some())),
        _ => None,
    }
}

// What TODAY answers on the day of this serial number, which stands in a text.
fn today(value: &Scalar) -> Result<Option<Scalar>, AllocError> {
    let Scalar::Text(text) = value else {
        return Ok(None);
    };
    match text.as_str().parse::<i32>() {
        Ok(day) => Ok(Some(dates(DateFn::Today, &[], day)?)),
        Err(_) => Ok(None),
    }
}

// How the first value compares with the second, and that the second compares with the first in reverse.
fn compared(alloc: Global, left: &Scalar, right: &Scalar) -> Result<Scalar, AllocError> {
    match (left.compare(right), right.compare(left)) {
        (Ok(order), Ok(reverse)) => Ok(Scalar::Text(Text::from_str(
            alloc,
            order_name(order, reverse),
        )?)),
        (Err(fault), _) => Ok(Scalar::Fault(fault)),
        (Ok(_), Err(fault)) => Ok(Scalar::Fault(fault)),
    }
}

// The name of an order whose reverse is the other one.
fn order_name(order: Ordering, reverse: Ordering) -> &'static str {
    match (order, reverse) {
        (Ordering::Less, Ordering::Greater) => "less",
        (Ordering::Equal, Ordering::Equal) => "equal",
        (Ordering::Greater, Ordering::Less) => "greater",
        _ => "no order",
    }
}
