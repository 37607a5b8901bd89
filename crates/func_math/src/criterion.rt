// Criteria, as COUNTIF and SUMIF take.
ghost use Rattle.std.specs.Prelude.{◌≡◌, IfOk};
ghost use Rattle.func_args.specs.Kinds.{order_in_kind};
ghost use Rattle.func_math.specs.Criteria.{criterion_of, is_blank, is_equal, is_fault, matches, operand_of, split};
ghost use Rattle.func_math.specs.internal.Comparisons.{after_greater, after_less};

use cell_addr::{Text, strip_prefix};
use cell_value::Scalar;
use fix_num::Fixed;
use func_args::order_in_kind;
use std::alloc::{AllocError, Global};
use std::cmp::Ordering;

/// How a criterion compares.
#[derive(Clone, Copy, PartialEq, Eq, Debug)]
pub enum Comparison {
    /// `=`
    Equal,
    /// `<>`
    Unequal,
    /// `<`
    Less,
    /// `>`
    Greater,
    /// `<=`
    AtMost,
    /// `>=`
    AtLeast,
}

/// What the values of cells are compared with, and how.
#[derive(Drop, Debug)]
pub struct Criterion {
    comparison: Comparison,
    operand: Scalar,
}

impl Criterion {
    /// The criterion of a value: a text may begin with a comparison, and the rest, read as a number
    /// where it is one, is the operand. Any other value compares by `=`, and nothing is 0.
    pub fn new(alloc: Global, value: &Scalar) -> Result<Criterion, AllocError>
        ensures { IfOk result (λ criterion. criterion ≡ criterion_of value.now) }
    {
        match value {
            Scalar::Empty => Ok(Criterion {
                comparison: Comparison::Equal,
                operand: Scalar::Number(Fixed::ZERO),
            }),
            Scalar::Text(text) => {
                let (comparison, rest) = split(text.as_str());
                Ok(Criterion {
                    comparison,
                    operand: operand_of(alloc, rest)?,
                })
            }
            _ => Ok(Criterion {
                comparison: Comparison::Equal,
                operand: value.copy(alloc)?,
            }),
        }
    }

    /// Whether the value matches. Only values of the operand's kind do, but `<>` matches all that `=`
    /// doesn't, without faults, and the operand of no characters counts as equal to an empty cell.
    pub fn matches(&self, value: &Scalar) -> bool
        ensures { result ≡ matches self.now value.now }
    {
        let order = order_in_kind(value, &self.operand);
        match self.comparison {
            Comparison::Equal => self.is_equal(value, order),
            Comparison::Unequal => !self.is_equal(value, order) && !is_fault(value),
            Comparison::Less => order.is_some_and(|order| order.is_lt()),
            Comparison::Greater => order.is_some_and(|order| order.is_gt()),
            Comparison::AtMost => order.is_some_and(|order| order.is_le()),
            Comparison::AtLeast => order.is_some_and(|order| order.is_ge()),
        }
    }

    // Whether the value, which compares so with the operand, counts as equal to it.
    fn is_equal(&self, value: &Scalar, order: Option<Ordering>) -> bool
        requires { order ≡ order_in_kind value.now self.now.operand }
        ensures { result ≡ is_equal self.now.operand value.now }
    {
        order.is_some_and(|order| order.is_eq()) || (value.is_empty() && is_blank(&self.operand))
    }
}

// Whether the value is a fault.
fn is_fault(value: &Scalar) -> bool
    ensures { result ≡ is_fault value.now }
{
    matches!(value, Scalar::Fault(_))
}

// Whether the operand is the text of no characters.
fn is_blank(operand: &Scalar) -> bool
    ensures { result ≡ is_blank operand.now }
{
    match operand {
        Scalar::Text(text) => text.is_empty(),
        _ => false,
    }
}

// The comparison that a text begins with, the longest, and the text that follows it.
fn split(text: &str) -> (Comparison, &str)
    ensures comparison { result.0 ≡ (split text.now).0 }
    ensures rest { result.1.now ≡ (split text.now).1 }
{
    if let Some(after) = strip_prefix(text, '<') {
        after_less(after)
    } else if let Some(after) = strip_prefix(text, '>') {
        after_greater(after)
    } else if let Some(after) = strip_prefix(text, '=') {
        (Comparison::Equal, after)
    } else {
        (Comparison::Equal, text)
    }
}

// The comparison that begins with `<`, and the text that follows it.
fn after_less(after: &str) -> (Comparison, &str)
    ensures comparison { result.0 ≡ (after_less after.now).0 }
    ensures rest { result.1.now ≡ (after_less after.now).1 }
{
    if let Some(rest) = strip_prefix(after, '=') {
        (Comparison::AtMost, rest)
    } else if let Some(rest) = strip_prefix(after, '>') {
        (Comparison::Unequal, rest)
    } else {
        (Comparison::Less, after)
    }
}

// The comparison that begins with `>`, and the text that follows it.
fn after_greater(after: &str) -> (Comparison, &str)
    ensures comparison { result.0 ≡ (after_greater after.now).0 }
    ensures rest { result.1.now ≡ (after_greater after.now).1 }
{
    if let Some(rest) = strip_prefix(after, '=') {
        (Comparison::AtLeast, rest)
    } else {
        (Comparison::Greater, after)
    }
}

// The operand that a text spells: a number where it can be read as one, else the text.
fn operand_of(alloc: Global, text: &str) -> Result<Scalar, AllocError>
    ensures { IfOk result (λ operand. operand ≡ operand_of text.now) }
{
    match Fixed::from_text(text) {
        Ok(number) => Ok(Scalar::Number(number)),
        Err(_) => Ok(Scalar::Text(Text::from_str(alloc, text)?)),
    }
}
