// What the words of the command line can say.
use cell_addr::Text;

/// How many steps are kept for undo where the words don't say it.
pub const DEFAULT_UNDO: u16 = 20;

/// How many steps can be asked for.
pub const MAX_UNDO: u16 = 1_000;

/// The greatest size of a generated list of commands.
pub const MAX_GENERATE: u32 = 10_000;

/// How many digits the number of steps has at most.
pub const UNDO_DIGITS: usize = 4;

/// How many digits the size of a generated list has at most.
pub const GENERATE_DIGITS: usize = 5;

/// What the words of the command line say.
#[derive(Drop, Debug)]
pub struct Words {
    /// How many steps are kept for undo.
    pub undo_limit: u16,
    /// Whether the run ends at the first command that is refused.
    pub strict: bool,
    /// The name of the script's file.
    pub script: Option<Text>,
    /// The size of the generated list of commands; it stands with neither a script nor a book.
    pub generate: Option<u32>,
    /// The names of the books' files, in order.
    pub books: Vec<Text>,
}
