// What named expressions stand under.
/// What a named expression stands under: its scope, which is a sheet by its number or `None` for the whole workbook, and its word.
/// Those of the whole workbook come first, then those of each sheet, and within a scope they go by their words' numbers.
#[derive(Clone, Copy, PartialEq, Eq, PartialOrd, Ord, Debug)]
pub struct NameKey {
    pub scope: Option<u32>,
    pub word: u64,
}
