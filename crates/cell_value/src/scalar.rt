// The values of cells, their coercions and their order.
ghost use Rattle.std.specs.Prelude.{◌≡◌, IfOk};
ghost use Rattle.std.specs.Cmp.{partial_equiv_from_equiv};
ghost use Rattle.cell_value.specs.Scalar.{is_empty, made_text, read_truth, same_value, scalar_of, shown_text, to_number, to_text, to_truth, truth_text};
ghost use Rattle.cell_value.specs.internal.Same.{same_value_equiv};

use crate::fault::FaultKind;
use cell_addr::{Text, same_folded};
use fix_num::{Fixed, NumError};
use std::alloc::{AllocError, Global};

/// The most bytes of a text that a formula makes. This project's own limit.
pub const MAX_MADE_TEXT: usize = 32_768;

/// The value of a cell, or of a part of a formula.
#[derive(Drop, Debug)]
pub enum Scalar {
    /// The value of a cell without content.
    Empty,
    /// A number.
    Number(Fixed),
    /// A text.
    Text(Text),
    /// TRUE or FALSE.
    Truth(bool),
    /// No value, and why.
    Fault(FaultKind),
}

impl Scalar {
    /// Whether the value is that of a cell without content.
    pub fn is_empty(&self) -> bool
        ensures { result ≡ is_empty self.now }
    {
        matches!(self, Scalar::Empty)
    }

    /// The value as a number: nothing is 0, TRUE is 1 and FALSE 0, and a text is the number that it
    /// spells.
    ///
    /// A text that spells no number within the limits is `Value`, and a fault is itself.
    /// Source: OpenFormula, conversion to Number; the texts that are numbers are this project's own.
    pub fn as_number(&self) -> Result<Fixed, FaultKind>
        ensures { result ≡ to_number self.now }
    {
        match self {
            Scalar::Empty => Ok(Fixed::ZERO),
            Scalar::Number(number) => Ok(*number),
            Scalar::Text(text) => Fixed::from_text(text.as_str()).map_err(|_| FaultKind::Value),
            Scalar::Truth(true) => Ok(Fixed::ONE),
            Scalar::Truth(false) => Ok(Fixed::ZERO),
            Scalar::Fault(fault) => Err(*fault),
        }
    }

    /// The value as a truth value: nothing is FALSE, each number but 0 is TRUE, and a text is the
    /// truth value that it spells, with letters in any case.
    ///
    /// Any other text is `Value`, and a fault is itself. Source: OpenFormula, conversion to Logical.
    pub fn as_truth(&self) -> Result<bool, FaultKind>
        ensures { result ≡ to_truth self.now }
    {
        match self {
            Scalar::Empty => Ok(false),
            Scalar::Number(number) => Ok(*number != Fixed::ZERO),
            Scalar::Text(text) => read_truth(text.as_str()),
            Scalar::Truth(truth) => Ok(*truth),
            Scalar::Fault(fault) => Err(*fault),
        }
    }

    /// The value as a text: what a person sees of it. A fault is itself.
    pub fn as_text(&self, alloc: Global) -> Result<Scalar, AllocError>
        ensures { IfOk result (λ text. text ≡ to_text self.now) }
    {
        match self {
            Scalar::Fault(_) => self.copy(alloc),
            _ => Ok(Scalar::Text(self.shown(alloc)?)),
        }
    }

    /// What a person sees of the value: of nothing no characters, and of a fault its spelling.
    pub fn shown(&self, alloc: Global) -> Result<Text, AllocError>
        ensures { IfOk result (λ text. text ≡ shown_text self.now) }
    {
        match self {
            Scalar::Empty => Ok(Text::new(String::new(alloc))),
            Scalar::Number(number) => Ok(Text::new(number.text(alloc)?)),
            Scalar::Text(text) => text.copy(alloc),
            Scalar::Truth(truth) => Text::from_str(alloc, truth_text(*truth)),
            Scalar::Fault(fault) => Text::from_str(alloc, fault.text()),
        }
    }

    /// A text that a formula made as a value, or `Value` where it has more than 32,768 bytes.
    pub fn made_text(text: Text) -> Scalar
        ensures { result ≡ made_text text }
    {
        if text.as_bytes().len() <= MAX_MADE_TEXT {
            Scalar::Text(text)
        } else {
            Scalar::Fault(FaultKind::Value)
        }
    }

    /// An equal value.
    pub fn copy(&self, alloc: Global) -> Result<Scalar, AllocError>
        ensures { IfOk result (λ copy. copy ≡ self.now) }
    {
        match self {
            Scalar::Empty => Ok(Scalar::Empty),
            Scalar::Number(number) => Ok(Scalar::Number(*number)),
            Scalar::Text(text) => Ok(Scalar::Text(text.copy(alloc)?)),
            Scalar::Truth(truth) => Ok(Scalar::Truth(*truth)),
            Scalar::Fault(fault) => Ok(Scalar::Fault(*fault)),
        }
    }
}

// How a truth value is spelled.
fn truth_text(truth: bool) -> &'static str
    ensures { result.now ≡ truth_text truth }
{
    if truth { "TRUE" } else { "FALSE" }
}

// The truth value that the text spells, with letters in any case, or else `Value`.
fn read_truth(text: &str) -> Result<bool, FaultKind>
    ensures { result ≡ read_truth text.now }
{
    if same_folded(text, "TRUE") {
        Ok(true)
    } else if same_folded(text, "FALSE") {
        Ok(false)
    } else {
        Err(FaultKind::Value)
    }
}

/// The value of a calculation: its number, or the fault that it failed by.
impl From<Result<Fixed, NumError>> for Scalar {
    ghost from_gives = { λ answer scalar. scalar ≡ scalar_of answer };

    fn from(answer: Result<Fixed, NumError>) -> Scalar {
        match answer {
            Ok(number) => Scalar::Number(number),
            Err(error) => Scalar::Fault(error.into()),
        }
    }
}

impl PartialEq for Scalar {
    ghost eq = { same_value };

    ghost laws = { partial_equiv_from_equiv same_value_equiv };

    fn eq(&self, other: &Scalar) -> bool {
        match (self, other) {
            (Scalar::Empty, Scalar::Empty) => true,
            (Scalar::Number(a), Scalar::Number(b)) => a == b,
            (Scalar::Text(a), Scalar::Text(b)) => a == b,
            (Scalar::Truth(a), Scalar::Truth(b)) => a == b,
            (Scalar::Fault(a), Scalar::Fault(b)) => a == b,
            _ => false,
        }
    }
}

impl Eq for Scalar {
    ghost laws = { same_value_equiv };
}
