//! Why the program failed.
ghost use Rattle.std.specs.Prelude.{◌≡◌};

use std::alloc::{AllocError, AllocFailed};
use thiserror::Error;

/// Why the program failed. Its text is the line on standard error.
#[derive(Clone, Copy, Debug, PartialEq, Eq, Error)]
pub enum Fault {
    /// The script breaks the grammar at that line, counted from 1.
    #[error("vfdev: line {0}: bad script")]
    BadScript(u32),
    /// The pool that the command line names isn't below the script's number of virtual functions.
    #[error("usage: vfdev run | keep P | lone P | threads")]
    NoSuchVf,
    /// The words of the command line are no mode.
    #[error("usage: vfdev run | keep P | lone P | threads")]
    Usage,
    /// Reading or writing failed.
    #[error("vfdev: input or output failed")]
    Io,
    /// A growth of memory was refused.
    #[error("vfdev: no memory")]
    NoMemory,
    /// The history that is kept has its full length.
    #[error("vfdev: no memory")]
    HistoryFull,
}

impl Fault {
    ghost use Rattle.modes.specs.Faults.{number_of};

    /// The number of the fault, as for the faults of the device: 1, 8, 9, 11 or 12, and 0 for a usage fault.
    pub fn number(self) -> u8
        ensures { result ≡ number_of self }
    {
        match self {
            Fault::BadScript(_) => 11,
            Fault::NoSuchVf => 1,
            Fault::Usage => 0,
            Fault::Io => 12,
            Fault::NoMemory => 9,
            Fault::HistoryFull => 8,
        }
    }
}

impl From<script::Fault> for Fault {
    ghost use Rattle.std.specs.Prelude.{◌≡◌};
    ghost use Rattle.modes.specs.Faults.{of_reading};

    ghost from_gives = { λ fault e. e ≡ of_reading fault };

    fn from(fault: script::Fault) -> Fault {
        match fault {
            script::Fault::BadScript(line) => Fault::BadScript(line),
            script::Fault::Io => Fault::Io,
            script::Fault::NoMemory => Fault::NoMemory,
        }
    }
}

impl From<transcript::Fault> for Fault {
    ghost use Rattle.std.specs.Prelude.{◌≡◌, true};
    ghost use Rattle.modes.specs.Faults.{is_late};

    ghost from_gives = { λ _ e. is_late e ≡ true };

    fn from(fault: transcript::Fault) -> Fault {
        match fault {
            transcript::Fault::Io => Fault::Io,
            transcript::Fault::NoMemory => Fault::NoMemory,
        }
    }
}

impl From<AllocError> for Fault {
    ghost use Rattle.std.specs.Prelude.{◌≡◌, true};
    ghost use Rattle.modes.specs.Faults.{is_late};

    ghost from_gives = { λ _ e. is_late e ≡ true };

    fn from(_error: AllocError) -> Fault {
        Fault::NoMemory
    }
}

impl<T: Drop> From<AllocFailed<T>> for Fault {
    ghost use Rattle.std.specs.Prelude.{◌≡◌, true};
    ghost use Rattle.modes.specs.Faults.{is_late};

    ghost from_gives = { λ _ e. is_late e ≡ true };

    fn from(_error: AllocFailed<T>) -> Fault {
        Fault::NoMemory
    }
}

impl From<wire_frame::Fault> for Fault {
    ghost use Rattle.std.specs.Prelude.{◌≡◌, true};
    ghost use Rattle.modes.specs.Faults.{is_late};

    ghost from_gives = { λ _ e. is_late e ≡ true };

    // The program's makers are given what a script may ask for, and memories of that size: the host's memory is what lacks.
    fn from(_fault: wire_frame::Fault) -> Fault {
        Fault::NoMemory
    }
}
