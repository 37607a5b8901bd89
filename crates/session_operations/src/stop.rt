// Why a call of an engine stops.
ghost use Rattle.std.specs.Prelude.{◌≡◌};

use book_model::Refusal;
use std::alloc::AllocError;

/// Why a call of an engine stops. In either case the engine is in the session that it was in.
#[derive(Clone, Copy, PartialEq, Eq, Debug)]
pub enum Stop {
    /// The call is refused.
    Refused(Refusal),
    /// There was no memory for the call.
    NoMemory,
}

impl From<AllocError> for Stop {
    ghost use Rattle.session_operations.specs.declared.stop.Stop.TheVariants.{NoMemory};

    ghost from_gives = { λ _ stop. stop ≡ NoMemory };

    fn from(_: AllocError) -> Stop {
        Stop::NoMemory
    }
}

impl From<Refusal> for Stop {
    ghost use Rattle.session_operations.specs.declared.stop.Stop.TheVariants.{Refused};

    ghost from_gives = { λ refusal stop. stop ≡ Refused refusal };

    fn from(refusal: Refusal) -> Stop {
        Stop::Refused(refusal)
    }
}
