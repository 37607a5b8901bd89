// Calls of numbers and of their digits.
use cell_addr::Text;
use cell_value::{Arg, Scalar};
use fix_num::{Fixed, NumError};
use std::alloc::{AllocError, Global};

/// The number that a call answers, or as a text why there is none; `None` where it is no call of numbers.
pub(crate) fn number_answer(
    alloc: Global,
    word: &str,
    args: &[Arg],
) -> Result<Option<Scalar>, AllocError> {
    match number_of(word, args) {
        Some(Ok(number)) => Ok(Some(Scalar::Number(number))),
        Some(Err(error)) => Ok(Some(Scalar::Text(Text::from_str(alloc, name_of(error))?))),
        None => Ok(None),
    }
}

// The name of an error.
fn name_of(error: NumError) -> &'static str {
    match error {
        NumError::Range => "Range",
        NumError::ZeroDivisor => "ZeroDivisor",
        NumError::NotANumber => "NotANumber",
    }
}

// The number that the call of the word answers.
fn number_of(word: &str, args: &[Arg]) -> Option<Result<Fixed, NumError>> {
    match args {
        [Arg::One(Scalar::Text(text))] => of_text(word, text.as_str()),
        [Arg::One(Scalar::Number(number))] => of_one(word, *number),
        [
            Arg::One(Scalar::Number(left)),
            Arg::One(Scalar::Number(right)),
        ] => { of_two(word, *left, *right) }
        [
            Arg::One(Scalar::Number(number)),
            Arg::One(Scalar::Text(text)),
        ] => { rounded(word, *number, text.as_str()) }
        _ => None,
    }
}

// The number of a text, or of a text that is a whole number.
fn of_text(word: &str, text: &str) -> Option<Result<Fixed, NumError>> {
    match word {
        "from_text" => Some(Fixed::from_text(text)),
        "from_int" => Some(Fixed::from_int(text.parse::<i64>().ok()?)),
        "from_millionths" => Some(Fixed::from_millionths(text.parse::<i64>().ok()?)),
        _ => None,
    }
}

// A number without its decimals.
fn of_one(word: &str, number: Fixed) -> Option<Result<Fixed, NumError>> {
    match word {
        "floor" => Some(number.floor()),
        "trunc" => Some(Ok(number.trunc())),
        _ => None,
    }
}

// A calculation.
fn of_two(word: &str, left: Fixed, right: Fixed) -> Option<Result<Fixed, NumError>> {
    match word {
        "add" => Some(left.add(right)),
        "sub" => Some(left.sub(right)),
        "mul" => Some(left.mul(right)),
        "div" => Some(left.div(right)),
        "power" => Some(left.power(right)),
        _ => None,
    }
}

// A number rounded to so many places.
fn rounded(word: &str, number: Fixed, places: &str) -> Option<Result<Fixed, NumError>> {
    match word {
        "round_to" => Some(number.round_to(places.parse::<i32>().ok()?)),
        _ => None,
    }
}
