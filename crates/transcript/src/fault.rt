//! Why the output stopped.
ghost use Rattle.std.specs.Prelude.{◌≡◌};

use std::alloc::AllocError;
use thiserror::Error;

/// Why the output stopped.
#[derive(Clone, Copy, Debug, PartialEq, Eq, Error)]
pub enum Fault {
    /// Writing failed. The writer has a beginning of the text.
    #[error("writing failed")]
    Io,
    /// The host refused the room for what is held.
    #[error("no memory")]
    NoMemory,
}

impl From<AllocError> for Fault {
    ghost use Rattle.transcript.specs.declared.fault.Fault.{Fault};

    ghost from_gives = { λ _ e. e ≡ Fault.NoMemory };

    fn from(_error: AllocError) -> Fault {
        Fault::NoMemory
    }
}
