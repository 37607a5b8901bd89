// The limits of a workbook. This project's own.

/// How many cells of a workbook may be filled.
pub const MAX_CELLS: u64 = 1_000_000;

/// How many sheet numbers a session gives out; a number is never given out again.
pub const MAX_SHEETS: u32 = 1_024;

/// How many bytes the name of a sheet may have.
pub const MAX_SHEET_NAME: usize = 100;

/// How many bytes the word of a name may have.
pub const MAX_NAME: usize = 255;

/// How many bytes a text given to a cell may have. What rewriting makes of a formula has no limit.
pub const MAX_TEXT: usize = 8_192;

/// How many steps a session can be asked to keep for undo.
pub const MAX_UNDO: u16 = 1_000;
