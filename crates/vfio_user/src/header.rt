//! The header in front of each message: 16 bytes (section "Header").
ghost use Rattle.std.specs.Prelude.{◌≡◌, ◌≤◌, ℕ, Ok, Err, IfOk};
ghost use Rattle.vfio_user.specs.Header.{header_of};

use crate::fields::{u16_of, u32_of};
use crate::{HEADER, MOST};
use thiserror::Error;

/// What stands in front of a command.
#[derive(Clone, Copy, Debug, PartialEq, Eq)]
pub struct Header {
    /// The number that the reply repeats. It is the client's, and says nothing.
    pub id: u16,
    /// The number of the command.
    pub command: u16,
    /// How many bytes the message has with its header, 16 to 4,128.
    pub size: u32,
    /// Whether the client waits for a reply: No_reply is not set.
    pub wants_reply: bool,
}

/// Why no message can be made out. Where the next one begins can't be known then, so the connection has to end.
#[derive(Clone, Copy, Debug, PartialEq, Eq, Error)]
pub enum Broken {
    /// There are fewer than 16 bytes.
    #[error("a header has 16 bytes")]
    Short,
    /// The size is below 16, or above 4,128.
    #[error("a message has 16 to 4128 bytes")]
    BadSize,
    /// The type is not that of a command.
    #[error("a client sends commands alone")]
    NotACommand,
}

impl Header {
    /// Reads the header at the front of the bytes. What stands behind it is not looked at, so the caller compares the size with what came.
    #[tactic(auto, unfolding(crate::specs::Header::header_of))]
    pub fn decode(bytes: &[u8]) -> Result<Header, Broken>
        ensures header { result ≡ header_of bytes.now }
        ensures least { IfOk result (λ h. 16 ≤ h.size) }
        ensures most { IfOk result (λ h. h.size ≤ 4128) }
    {
        if bytes.len() < HEADER {
            return Err(Broken::Short);
        }
        let (id, rest) = u16_of(bytes);
        let (command, rest) = u16_of(rest);
        let (size, rest) = u32_of(rest);
        let (flags, _) = u32_of(rest);
        if size < HEADER as u32 || size > MOST {
            return Err(Broken::BadSize);
        }
        if flags % 16 != 0 {
            return Err(Broken::NotACommand);
        }
        Ok(Header {
            id,
            command,
            size,
            wants_reply: flags / 16 % 2 == 0,
        })
    }
}
