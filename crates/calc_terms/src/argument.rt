// Arguments of calls, before their function says what it takes.
ghost use Rattle.std.specs.Prelude.{◌≡◌};
ghost use Rattle.calc_terms.specs.References.{argument_block};

use crate::reference::Reference;
use cell_addr::Block;
use cell_value::{FaultKind, Scalar};

/// An argument of a call, as its function finds it.
#[derive(Drop, Debug)]
pub enum Argument {
    /// The reference that it stands for.
    Reference(Reference),
    /// The value of any other expression.
    Value(Scalar),
}

impl Argument {
    /// The block of the reference. Any other value is its fault, or else `Value`.
    pub fn block(&self) -> Result<Block, FaultKind>
        ensures { result ≡ argument_block self.now }
    {
        match self {
            Argument::Reference(reference) => Ok(reference.block()),
            Argument::Value(Scalar::Fault(fault)) => Err(*fault),
            Argument::Value(_) => Err(FaultKind::Value),
        }
    }
}
