//! Errors that a reply carries.
ghost use Rattle.std.specs.Prelude.{◌≡◌};
ghost use Rattle.vfio_user.specs.Replies.{errno_number};

use thiserror::Error;

/// Why a request is refused: a UNIX errno, by Linux's number (errno.h).
#[derive(Clone, Copy, Debug, PartialEq, Eq, Error)]
pub enum Errno {
    /// EPERM, 1: the file that came may shrink, or isn't allowed for another reason.
    #[error("not permitted")]
    NotPermitted,
    /// ENOENT, 2: no such range is mapped.
    #[error("there is no such thing")]
    NotFound,
    /// ENOMEM, 12: the host has no memory or no addresses left.
    #[error("the host has no memory left")]
    NoMemory,
    /// EEXIST, 17: the range overlaps one that is mapped.
    #[error("it is there already")]
    Exists,
    /// EINVAL, 22: the request can't be right.
    #[error("the request can't be right")]
    Invalid,
    /// ENOSPC, 28: as many ranges are mapped as can be.
    #[error("there is no room for more")]
    NoRoom,
    /// ENOTSUP, 95: the request is one that is not offered.
    #[error("not supported")]
    NotSupported,
}

impl Errno {
    /// The number that Linux gives it.
    pub fn number(self) -> u32
        ensures { result ≡ errno_number self }
    {
        match self {
            Errno::NotPermitted => 1,
            Errno::NotFound => 2,
            Errno::NoMemory => 12,
            Errno::Exists => 17,
            Errno::Invalid => 22,
            Errno::NoRoom => 28,
            Errno::NotSupported => 95,
        }
    }
}
