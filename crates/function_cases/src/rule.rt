// Rules of custom functions as they are written, and their values.
use crate::block::value_in;
use crate::call::parts;
use cell_addr::Text;
use cell_value::Scalar;
use custom_fn::Rule;
use fix_num::Fixed;
use std::alloc::{AllocError, Global};

/// The value of a rule such as `=BANDS({0,1.5;2,5.4},1)`, whose pairs are written as a block of two columns
/// and whose number comes after it; the text `no rule` where the pairs make none. `None` where it isn't one
/// that can be read.
pub(crate) fn value_by_rule(alloc: Global, call: &str) -> Result<Option<Scalar>, AllocError> {
    let Some((word, arguments)) = parts(call) else {
        return Ok(None);
    };
    let Some((pairs, number)) = pairs_and_number(arguments) else {
        return Ok(None);
    };
    match value_in(alloc, number)? {
        Some(number) => value_of(alloc, word, pairs, &number),
        None => Ok(None),
    }
}

// The value that the rule of the word and these pairs has of the number.
fn value_of(
    alloc: Global,
    word: &str,
    pairs: &str,
    number: &Scalar,
) -> Result<Option<Scalar>, AllocError> {
    let Some(pairs) = pairs_of(alloc, pairs)? else {
        return Ok(None);
    };
    match rule_of(word, pairs) {
        Some(Some(rule)) => Ok(Some(rule.value_of(number))),
        Some(None) => Ok(Some(Scalar::Text(Text::from_str(alloc, "no rule")?))),
        None => Ok(None),
    }
}

// The rule of the word, or that the pairs make none; `None` where the word is no rule's.
fn rule_of(word: &str, pairs: Vec<(Fixed, Fixed)>) -> Option<Option<Rule>> {
    match word {
        "BANDS" => Some(Rule::bands(pairs)),
        "TIERS" => Some(Rule::tiers(pairs)),
        _ => None,
    }
}

// What stands between the braces of a rule's arguments, and the number behind them.
fn pairs_and_number(arguments: &str) -> Option<(&str, &str)> {
    let (pairs, rest) = arguments.strip_prefix("{")?.split_once('}')?;
    Some((pairs, rest.strip_prefix(",")?))
}

// The pairs of numbers that the text holds, which semicolons part; none where it is empty.
fn pairs_of(alloc: Global, text: &str) -> Result<Option<Vec<(Fixed, Fixed)>>, AllocError> {
    let mut pairs = Vec::new(alloc);
    if text.is_empty() {
        return Ok(Some(pairs));
    }
    'pairs: for written in text.split(';') {
        match pair_of(written) {
            Some(pair) => pairs.push(pair)?,
            None => return Ok(None),
        }
    }
    Ok(Some(pairs))
}

// Two numbers with a comma between.
fn pair_of(text: &str) -> Option<(Fixed, Fixed)> {
    let (first, second) = text.split_once(',')?;
    let first = Fixed::from_text(first).ok()?;
    let second = Fixed::from_text(second).ok()?;
    Some((first, second))
}
