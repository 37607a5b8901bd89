// Values that are copied.
ghost use Rattle.std.specs.Prelude.{◌≡◌, IfOk};

use cell_value::Scalar;
use std::alloc::{AllocError, Global};

/// Values of which an equal one can be made, where there is memory for it.
pub trait Duplicate: Drop {
    /// An equal value.
    fn duplicate(&self, alloc: Global) -> Result<Self, AllocError>
        ensures { IfOk result (λ copy. copy ≡ self.now) };
}

impl Duplicate for Scalar {
    fn duplicate(&self, alloc: Global) -> Result<Scalar, AllocError> {
        self.copy(alloc)
    }
}

/// Where there is a value, an equal one.
impl<V: Duplicate> Duplicate for Option<V> {
    fn duplicate(&self, alloc: Global) -> Result<Option<V>, AllocError> {
        match self {
            Some(value) => Ok(Some(value.duplicate(alloc)?)),
            None => Ok(None),
        }
    }
}
