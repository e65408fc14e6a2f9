//! Why a call was refused.
ghost use Rattle.std.specs.Prelude.{◌≡◌};

use std::alloc::{AllocError, AllocFailed};
use thiserror::Error;

/// Why a call was refused. Every call that is refused leaves things as they were.
#[derive(Clone, Copy, Debug, PartialEq, Eq, Error)]
pub enum Fault {
    /// The device has no virtual function of that number.
    #[error("no such virtual function")]
    NoSuchVf,
    /// The virtual function is closed, or its port has ended.
    #[error("the virtual function is not open")]
    NotOpen,
    /// No register stands at the offset: it is no multiple of 4, or lies past the register space.
    #[error("the register offset is not valid")]
    BadOffset,
    /// The address and the length pass the end of the guest's memory.
    #[error("the range passes the end of the memory")]
    BadRange,
    /// One memory access names more than 2048 bytes.
    #[error("the access is longer than 2048 bytes")]
    TooLong,
    /// The bytes are no frame, or the frame is longer than the device takes.
    #[error("the bytes are no frame")]
    BadFrame,
    /// The virtual function is open already.
    #[error("the virtual function is open already")]
    AlreadyOpen,
    /// The history that is kept has its full length.
    #[error("the history is full")]
    HistoryFull,
    /// A growth of memory was refused.
    #[error("no memory")]
    NoMemory,
    /// A size or a count is outside its limits.
    #[error("a size or a count is outside its limits")]
    BadMake,
}

impl Fault {
    ghost use Rattle.wire_frame.specs.Fault.{number_of};

    /// The number that scripts and replies show, 1 to 10.
    pub fn number(self) -> u8
        ensures { result ≡ number_of self }
    {
        match self {
            Fault::NoSuchVf => 1,
            Fault::NotOpen => 2,
            Fault::BadOffset => 3,
            Fault::BadRange => 4,
            Fault::TooLong => 5,
            Fault::BadFrame => 6,
            Fault::AlreadyOpen => 7,
            Fault::HistoryFull => 8,
            Fault::NoMemory => 9,
            Fault::BadMake => 10,
        }
    }
}

impl From<AllocError> for Fault {
    ghost use Rattle.std.specs.Prelude.{◌≡◌};
    ghost use Rattle.wire_frame.specs.declared.fault.Fault.TheVariants.{NoMemory};

    ghost from_gives = { λ _ fault. fault ≡ NoMemory };

    fn from(_error: AllocError) -> Fault {
        Fault::NoMemory
    }
}

impl<T: Drop> From<AllocFailed<T>> for Fault {
    ghost use Rattle.std.specs.Prelude.{◌≡◌};
    ghost use Rattle.wire_frame.specs.declared.fault.Fault.TheVariants.{NoMemory};

    ghost from_gives = { λ _ fault. fault ≡ NoMemory };

    fn from(_failed: AllocFailed<T>) -> Fault {
        Fault::NoMemory
    }
}
