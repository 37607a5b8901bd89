// Places by the numbers of their lines.

/// A place by the numbers of its row and its column, which stay while operations move these.
#[derive(Clone, Copy, PartialEq, Eq, Hash, Debug)]
pub struct LineSpot {
    pub sheet: u32,
    pub row: u64,
    pub col: u64,
}
