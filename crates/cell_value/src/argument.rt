// The arguments of functions.

use crate::area::Area;
use crate::scalar::Scalar;

/// An argument of a function.
#[derive(Drop, Debug)]
pub enum Arg {
    /// One value.
    One(Scalar),
    /// The values of a block's cells.
    Many(Area),
}
