// What rounding, comparing and the texts of numbers promise, each law with its proof.
ghost use Rattle.std.specs.Prelude.{◌≡◌};
ghost use Rattle.std.specs.Ordering.{int_cmp, int_eq};
ghost use Rattle.fix_num.specs.Laws.{NearIsNearest, RoundsAtEnds, FloorIsGreatest, TextReadsBack, TextIsPlain};

use crate::number::Fixed;
use std::cmp::Ordering;

/// Numbers are ordered as their millionths are.
pub fn order_is_of_millionths(a: Fixed, b: Fixed) -> Ordering
    ensures { result ≡ int_cmp a b }
{
    a.cmp(&b)
}

/// Numbers are equal exactly where their millionths are.
pub fn equality_is_of_millionths(a: Fixed, b: Fixed) -> bool
    ensures { result ≡ int_eq a b }
{
    a == b
}

/// A rounded quotient is the nearest whole number, and of two as near the greater.
pub fn rounding_is_to_nearest()
    ensures { NearIsNearest }
{}

/// Rounding to six places or more changes nothing, and below -12 places it gives 0.
pub fn rounding_at_its_ends()
    ensures { RoundsAtEnds }
{}

/// The floor is the greatest whole number that is not above.
pub fn floor_is_greatest()
    ensures { FloorIsGreatest }
{}

/// The text of a number is read back as that number.
pub fn text_is_read_back()
    ensures { TextReadsBack }
{}

/// The text of a number is digits, or digits with a point and digits, with no needless 0; before it
/// a negative number has a minus sign.
pub fn text_is_plain()
    ensures { TextIsPlain }
{}
