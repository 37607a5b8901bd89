// How runs end before their first reply.
ghost use Rattle.std.specs.Prelude.{◌≡◌};

use std::alloc::AllocError;
use thiserror::Error;

/// The status of a run of which a file is missing, or a book is refused.
pub const NO_BOOK: u8 = 4;

/// The status of a run of which a file or the script has more bytes than a run may be told.
pub const TOO_LONG: u8 = 8;

/// How a run ends before its first reply.
#[derive(Drop, Debug, Error)]
pub enum Ending {
    /// A line says what is wrong, and the run has this status: [`NO_BOOK`] or [`TOO_LONG`].
    #[error("{0}")]
    Says(String, u8),
    /// The folder or the source failed, and counted a fault.
    #[error("read fault")]
    ReadFault,
    /// Memory ran out.
    #[error("out of memory")]
    NoMemory,
}

impl From<AllocError> for Ending {
    ghost use Rattle.run_inputs.specs.declared.ending.Ending.TheVariants as ending;

    ghost from_gives = { λ _ e. e ≡ ending.NoMemory };

    fn from(_: AllocError) -> Ending {
        Ending::NoMemory
    }
}
