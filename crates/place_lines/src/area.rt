// Blocks by the numbers of their outermost lines.
/// A block by the numbers of its first and its last row and column, which stay while operations move these.
#[derive(Clone, Copy, PartialEq, Eq, Hash, Debug)]
pub struct LineArea {
    pub sheet: u32,
    pub top: u64,
    pub left: u64,
    pub bottom: u64,
    pub right: u64,
}
