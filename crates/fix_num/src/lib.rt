//! Numbers with six decimals: whole numbers of millionths of absolute value below 10^18.
//!
//! [`Fixed`] is such a number. Sums and differences are exact; products, quotients and what is
//! read from a text are rounded to a millionth, half away from zero; a result outside is
//! [`NumError::Range`].
//!
//! `Fixed::from_text("2")?.div(Fixed::from_text("3")?)?` is 0.666667.
#![tactic(auto)]

mod arithmetic;
mod error;
pub mod laws;
mod number;
mod printing;
mod reading;
mod rounding;

pub use error::NumError;
pub use number::{Fixed, LIMIT, ONE};
