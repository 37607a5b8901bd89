// Whole ranges by the numbers of their outermost lines.
ghost use Rattle.std.specs.Prelude.{◌≡◌};
ghost use Rattle.place_lines.specs.Spots.{number_of, position_at, table_along};
ghost use Rattle.dep_graph.specs.internal.Keys.{ends_of, whole_at};

use cell_addr::{Axis, Place, Whole};
use place_lines::{LineSpot, PlaceLines};

// A whole range by the numbers of its first and its last line, which stay while operations move these.
#[derive(Clone, Copy, PartialEq, Eq, Debug)]
pub(crate) struct Ends {
    pub(crate) sheet: u32,
    pub(crate) axis: Axis,
    pub(crate) first: u64,
    pub(crate) last: u64,
}

impl Ends {
    // The ends of a whole range.
    pub(crate) fn of(lines: &PlaceLines, whole: Whole) -> Ends
        ensures { result ≡ ends_of lines.now whole }
    {
        Ends {
            sheet: whole.sheet,
            axis: whole.axis,
            first: number(lines, whole.sheet, whole.axis, whole.first),
            last: number(lines, whole.sheet, whole.axis, whole.last),
        }
    }

    // The whole range of these ends; None where one of them stands nowhere.
    pub(crate) fn whole(self, lines: &PlaceLines) -> Option<Whole>
        ensures { result ≡ whole_at lines.now self }
    {
        Some(Whole {
            sheet: self.sheet,
            axis: self.axis,
            first: position(lines, self.sheet, self.axis, self.first)?,
            last: position(lines, self.sheet, self.axis, self.last)?,
        })
    }
}

// The number of a line of a sheet.
fn number(lines: &PlaceLines, sheet: u32, axis: Axis, line: u32) -> u64
    ensures { result ≡ number_of (table_along axis lines.now sheet) line }
{
    let spot = lines.spot(Place {
        sheet,
        row: line,
        col: line,
    });
    match axis {
        Axis::Rows => spot.row,
        Axis::Cols => spot.col,
    }
}

// Where the line of a number stands on a sheet.
fn position(lines: &PlaceLines, sheet: u32, axis: Axis, number: u64) -> Option<u32>
    ensures { result ≡ position_at (table_along axis lines.now sheet) number }
{
    let corner = lines.spot(Place {
        sheet,
        row: 0,
        col: 0,
    });
    match axis {
        Axis::Rows => {
            let place = lines.place(LineSpot {
                row: number,
                ..corner
            })?;
            Some(place.row)
        }
        Axis::Cols => {
            let place = lines.place(LineSpot {
                col: number,
                ..corner
            })?;
            Some(place.col)
        }
    }
}
