// Values of one kind beside each other.
ghost use Rattle.std.specs.Prelude.{◌≡◌};
ghost use Rattle.func_args.specs.Kinds.{order_in_kind};

use cell_value::Scalar;
use std::cmp::Ordering;

/// How the first value compares with the second, where both are of one kind and no faults.
pub fn order_in_kind(value: &Scalar, beside: &Scalar) -> Option<Ordering>
    ensures { result ≡ order_in_kind value.now beside.now }
{
    if value.is_same_kind(beside) {
        value.compare(beside).ok()
    } else {
        None
    }
}
