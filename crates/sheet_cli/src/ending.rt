// How runs end.
ghost use Rattle.std.specs.Prelude.{◌≡◌};

use book_files::WriteError;
use std::alloc::AllocError;

/// All was read and answered.
pub const ANSWERED: u8 = 0;

/// A refusal ended the run, as the words asked for.
pub const REFUSED: u8 = 1;

/// The words are outside their meaning.
pub const WRONG_WORDS: u8 = 2;

/// A record is no command.
pub const NO_COMMAND: u8 = 3;

/// The folder or the source failed.
pub const READ_FAULT: u8 = 5;

/// The sink failed.
pub const WRITE_FAULT: u8 = 6;

/// Memory ran out.
pub const NO_MEMORY: u8 = 7;

/// Why a run ends before its output is whole.
#[derive(Clone, Copy, PartialEq, Eq, Debug)]
pub enum EarlyEnd {
    ReadFault,
    WriteFault,
    NoMemory,
}

impl From<AllocError> for EarlyEnd {
    ghost use Rattle.sheet_cli.specs.declared.ending.EarlyEnd.TheVariants as stop;

    ghost from_gives = { λ _ e. e ≡ stop.NoMemory };

    fn from(_: AllocError) -> EarlyEnd {
        EarlyEnd::NoMemory
    }
}

impl From<WriteError> for EarlyEnd {
    ghost use Rattle.sheet_cli.specs.internal.Answers.{stop_of_write};

    ghost from_gives = { λ e stop. stop ≡ stop_of_write e };

    fn from(error: WriteError) -> EarlyEnd {
        match error {
            WriteError::Failed => EarlyEnd::WriteFault,
            WriteError::NoMemory => EarlyEnd::NoMemory,
        }
    }
}
