// What goes wrong at a stream.
ghost use Rattle.std.specs.Prelude.{◌≡◌};
ghost use Rattle.book_files.specs.declared.error.LoadError.TheVariants as load;
ghost use Rattle.book_files.specs.declared.error.WriteError.TheVariants as write;

use std::alloc::AllocError;
use thiserror::Error;

/// A stream failed, and counted a fault.
#[derive(Clone, Copy, PartialEq, Eq, Debug, Error)]
#[error("the stream failed")]
pub struct Failed;

/// Why a write was not done.
#[derive(Clone, Copy, PartialEq, Eq, Debug, Error)]
pub enum WriteError {
    /// The stream failed, and counted a fault.
    #[error("the stream failed")]
    Failed,
    /// Memory ran out.
    #[error("out of memory")]
    NoMemory,
}

/// Why bytes could not be loaded.
#[derive(Clone, Copy, PartialEq, Eq, Debug, Error)]
pub enum LoadError {
    /// Nothing has the name that was asked for.
    #[error("there is no such file")]
    Missing,
    /// There are more bytes than the limit.
    #[error("there are too many bytes")]
    TooLong,
    /// The stream failed, and counted a fault.
    #[error("the stream failed")]
    Failed,
    /// Memory ran out.
    #[error("out of memory")]
    NoMemory,
}

impl From<AllocError> for WriteError {
    ghost from_gives = { λ _ e. e ≡ write.NoMemory };

    fn from(_error: AllocError) -> WriteError {
        WriteError::NoMemory
    }
}

impl From<AllocError> for LoadError {
    ghost from_gives = { λ _ e. e ≡ load.NoMemory };

    fn from(_error: AllocError) -> LoadError {
        LoadError::NoMemory
    }
}

impl From<Failed> for LoadError {
    ghost from_gives = { λ _ e. e ≡ load.Failed };

    fn from(_error: Failed) -> LoadError {
        LoadError::Failed
    }
}
