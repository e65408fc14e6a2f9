//! Why a script is not read.
ghost use Rattle.std.specs.Prelude.{◌≡◌};

use std::alloc::{AllocError, AllocFailed};
use thiserror::Error;

/// Why a script is not read.
#[derive(Clone, Copy, Debug, PartialEq, Eq, Error)]
pub enum Fault {
    /// The line of that number, counted from 1, breaks the grammar or a limit, or the script asks for no device.
    #[error("line {0}: bad script")]
    BadScript(u32),
    /// Reading failed.
    #[error("reading failed")]
    Io,
    /// A growth of memory was refused.
    #[error("no memory")]
    NoMemory,
}

impl From<AllocError> for Fault {
    ghost use Rattle.script.specs.declared.fault.Fault.{Fault};

    ghost from_gives = { λ _ e. e ≡ Fault.NoMemory };

    fn from(_error: AllocError) -> Fault {
        Fault::NoMemory
    }
}

impl<T: Drop> From<AllocFailed<T>> for Fault {
    ghost use Rattle.script.specs.declared.fault.Fault.{Fault};

    ghost from_gives = { λ _ e. e ≡ Fault.NoMemory };

    fn from(_error: AllocFailed<T>) -> Fault {
        Fault::NoMemory
    }
}

/// Why a line isn't taken.
#[derive(Clone, Copy, Debug, PartialEq, Eq)]
pub(crate) enum Refusal {
    /// The line breaks the grammar or a limit.
    BadLine,
    /// A growth of memory was refused.
    NoMemory,
}

impl From<AllocError> for Refusal {
    ghost use Rattle.script.specs.declared.fault.Refusal.{Refusal};

    ghost from_gives = { λ _ e. e ≡ Refusal.NoMemory };

    fn from(_error: AllocError) -> Refusal {
        Refusal::NoMemory
    }
}

impl<T: Drop> From<AllocFailed<T>> for Refusal {
    ghost use Rattle.script.specs.declared.fault.Refusal.{Refusal};

    ghost from_gives = { λ _ e. e ≡ Refusal.NoMemory };

    fn from(_error: AllocFailed<T>) -> Refusal {
        Refusal::NoMemory
    }
}
