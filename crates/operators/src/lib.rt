//! What operators make of values: `+ - * / ^`, `&`, comparisons, signs and `%`.
//!
//! [`combined`] is the value of an operator between two values, [`signed`] that of a sign before one
//! and [`percent`] that of a `%` behind one. Of two faults the left one comes first.
#![tactic(auto)]

ghost use Rattle.std.specs.Prelude.{◌≡◌, IfOk};
ghost use Rattle.operators.specs.Operators.{combined, hundredth, joined, signed_value, truth_or_fault};
ghost use Rattle.operators.specs.internal.Arithmetic.{IsArithmetic};

use cell_addr::Text;
use cell_value::{FaultKind, Scalar};
use fix_num::Fixed;
use formula_tree::{Op, Sign};
use std::alloc::{AllocError, Global};

/// The value of a sign and its operand: plus leaves the operand as it is, minus takes it from 0.
///
/// Source: OpenFormula, the prefix operators.
pub fn signed(sign: Sign, operand: Scalar) -> Scalar
    ensures { result ≡ signed_value sign operand }
{
    match sign {
        Sign::Plus => operand,
        Sign::Minus => match operand.as_number() {
            Ok(number) => Fixed::ZERO.sub(number).into(),
            Err(fault) => Scalar::Fault(fault),
        },
    }
}

/// The value of an operand with a percent sign: it is divided by 100. Source: OpenFormula, the postfix operator `%`.
pub fn percent(operand: &Scalar) -> Scalar
    ensures { result ≡ hundredth operand.now }
{
    match (operand.as_number(), Fixed::from_int(100)) {
        (Ok(number), Ok(hundred)) => number.div(hundred).into(),
        (Err(fault), _) => Scalar::Fault(fault),
        (_, Err(error)) => Scalar::Fault(error.into()),
    }
}

/// The value of an operator between two values. Numbers are wanted by `+ - * / ^` and texts by `&`;
/// of two faults the left one comes first. A text of more than 32,768 bytes is `#VALUE!`. Source:
/// OpenFormula, the infix operators.
///
/// Only a joined text takes memory.
pub fn combined(alloc: Global, op: Op, left: &Scalar, right: &Scalar) -> Result<Scalar, AllocError>
    ensures { IfOk result (λ scalar. scalar ≡ combined op left.now right.now) }
{
    match op {
        Op::Add | Op::Sub | Op::Mul | Op::Div | Op::Power => Ok(calculated(op, left, right)),
        Op::Join => joined(alloc, left, right),
        Op::Equal => Ok(compared(left.compare(right).map(|order| order.is_eq()))),
        Op::Unequal => Ok(compared(left.compare(right).map(|order| order.is_ne()))),
        Op::Less => Ok(compared(left.compare(right).map(|order| order.is_lt()))),
        Op::Greater => Ok(compared(left.compare(right).map(|order| order.is_gt()))),
        Op::AtMost => Ok(compared(left.compare(right).map(|order| order.is_le()))),
        Op::AtLeast => Ok(compared(left.compare(right).map(|order| order.is_ge()))),
    }
}

// What an operator of arithmetic makes of two values: the numbers are computed with, and of two
// faults the left one counts.
fn calculated(op: Op, left: &Scalar, right: &Scalar) -> Scalar
    requires { IsArithmetic op }
    ensures { result ≡ combined op left.now right.now }
{
    let (left, right) = match (left.as_number(), right.as_number()) {
        (Ok(left), Ok(right)) => (left, right),
        (Err(fault), _) | (_, Err(fault)) => return Scalar::Fault(fault),
    };
    match op {
        Op::Add => left.add(right).into(),
        Op::Sub => left.sub(right).into(),
        Op::Mul => left.mul(right).into(),
        Op::Div => left.div(right).into(),
        Op::Power => left.power(right).into(),
        _ => unreachable!(),
    }
}

// The answer of a comparison, or the fault that decided it.
fn compared(answer: Result<bool, FaultKind>) -> Scalar
    ensures { result ≡ truth_or_fault answer }
{
    match answer {
        Ok(truth) => Scalar::Truth(truth),
        Err(fault) => Scalar::Fault(fault),
    }
}

// The texts of two values, one after the other, where they have no more than 32,768 bytes.
fn joined(alloc: Global, left: &Scalar, right: &Scalar) -> Result<Scalar, AllocError>
    ensures { IfOk result (λ scalar. scalar ≡ joined left.now right.now) }
{
    match (left, right) {
        (Scalar::Fault(fault), _) => Ok(Scalar::Fault(*fault)),
        (_, Scalar::Fault(fault)) => Ok(Scalar::Fault(*fault)),
        _ => {
            let mut text = String::new(alloc);
            text.push_str(left.shown(alloc)?.as_str())?;
            text.push_str(right.shown(alloc)?.as_str())?;
            Ok(Scalar::made_text(Text::new(text)))
        }
    }
}
