//! Room for what an event sends and reads.
ghost use Rattle.std.specs.Prelude.{◌≡◌, ◌≤◌, length, option_copied};
ghost use Rattle.device.specs.Outcome.{bytes_told, bytes_read, sent_of, left_of};

use crate::bytes::MOST_BYTES;
use crate::outcome::Outcome;
use crate::response::Response;
use wire_frame::FrameBuf;

/// Room for what is large of what comes of an event: the frame that a service sends, and the bytes that are read from a guest's memory. Who
/// gives events to a device makes it once, and lends it to each. What of it is the last event's, its [`Response`] tells; the rest means
/// nothing.
#[derive(Drop)]
pub struct Room {
    pub(crate) frame: FrameBuf,
    pub(crate) bytes: [u8; MOST_BYTES],
}

impl Room {
    /// Room that nothing was laid into.
    pub fn new() -> Room {
        Room {
            frame: FrameBuf::blank(),
            bytes: [0; MOST_BYTES],
        }
    }

    /// The bytes that the event read; none where it read none.
    #[inline]
    pub fn read(&self, outcome: Outcome) -> &[u8]
        ensures bytes { result.now ≡ bytes_read self.now.bytes outcome }
        ensures len { length result.now ≡ bytes_told outcome }
        ensures most { length result.now ≤ 2048 }
    {
        match outcome {
            Outcome::Bytes(read) => &self.bytes[..read.count()],
            _ => &[],
        }
    }

    /// The frame that the event sent, wherever it went.
    #[inline]
    pub fn sent(&self, response: &Response) -> Option<&FrameBuf>
        ensures { option_copied result ≡ sent_of self.now response.now }
    {
        if response.outcome.is_sent() {
            Some(&self.frame)
        } else {
            None
        }
    }

    /// That frame, where it left for the wire.
    #[inline]
    pub fn left(&self, response: &Response) -> Option<&FrameBuf>
        ensures { option_copied result ≡ left_of self.now response.now }
    {
        if response.left {
            Some(&self.frame)
        } else {
            None
        }
    }
}

impl Default for Room {
    fn default() -> Room {
        Room::new()
    }
}
