// Spots with numbers, in the order of their lines.
ghost use Rattle.std.specs.Prelude.{◌≡◌};

// A spot with the number that is kept there, by one of its lines and then by the other.
#[derive(Clone, Copy, PartialEq, Eq, PartialOrd, Ord, Debug)]
pub(crate) struct Point {
    pub(crate) sheet: u32,
    // The line along the axis by which points are in order.
    pub(crate) line: u64,
    // The line along the other axis.
    pub(crate) across: u64,
    pub(crate) number: usize,
}

impl Point {
    ghost use Rattle.touch_index.specs.internal.Points.{first_point};

    // The first point of a line, from a line of the other axis on.
    pub(crate) fn first_of(sheet: u32, line: u64, across: u64) -> Point
        ensures { result ≡ first_point sheet line across }
    {
        Point {
            sheet,
            line,
            across,
            number: 0,
        }
    }
}
