// Why a record is no command.
ghost use Rattle.std.specs.Prelude.{◌≡◌};

use std::alloc::AllocError;
use thiserror::Error;

/// Why a record of a script is no command. This project's own.
#[derive(Clone, Copy, PartialEq, Eq, Debug, Error)]
pub enum ScriptError {
    /// The first field is no command's word.
    #[error("unknown command")]
    UnknownCommand,
    /// The command has another number of fields.
    #[error("field count")]
    FieldCount,
    /// The field of this number, counted from 1 behind the word, hasn't its form or isn't UTF-8.
    #[error("bad field {0}")]
    BadField(u8),
    /// There was no memory for the command's fields.
    #[error("out of memory")]
    NoMemory,
}

impl From<AllocError> for ScriptError {
    ghost use Rattle.script_lang.specs.declared.error.ScriptError.TheVariants.{NoMemory};

    ghost from_gives = { λ _ e. e ≡ NoMemory };

    fn from(_: AllocError) -> ScriptError {
        ScriptError::NoMemory
    }
}
