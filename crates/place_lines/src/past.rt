// Positions past a sheet's end, where no line is, by numbers that no line has.
ghost use Rattle.std.specs.Prelude.{◌≡◌};
ghost use Rattle.place_lines.specs.Spots.{number_of, position_at};

use stable_lines::LineTable;

// What is added to a position past the end of a sheet, 2 to the 63rd. The lines of sheets have lower numbers.
pub(crate) const PAST: u64 = 9_223_372_036_854_775_808;

// The number of the line at a position.
pub(crate) fn number(table: &LineTable, position: u32) -> u64
    ensures { result ≡ number_of table.now position }
{
    match table.line(position) {
        Some(line) => line,
        None => PAST + position as u64,
    }
}

// Where the line of a number stands.
pub(crate) fn position(table: &LineTable, number: u64) -> Option<u32>
    ensures { result ≡ position_at table.now number }
{
    if number < PAST {
        return table.position(number);
    }
    let past = number - PAST;
    if past < table.limit() as u64 || past > u32::MAX as u64 {
        return None;
    }
    Some(past as u32)
}
