// Why there is no number.

use thiserror::Error;

/// Why a text or a calculation gives no number.
#[derive(Clone, Copy, Debug, PartialEq, Eq, Error)]
pub enum NumError {
    /// The number has an absolute value of 10^12 or more, or the exponent is none that powers have.
    #[error("the number is out of range")]
    Range,
    /// The divisor is 0.
    #[error("the divisor is zero")]
    ZeroDivisor,
    /// The text has not the form of a number.
    #[error("the text is not a number")]
    NotANumber,
}
