//! Where the bytes of one event are laid out.

use crate::chunks::MOST_BYTES;

/// Where the bytes of one request of a [`Script`](crate::Script) are laid out: some 9 KB, to be made once and lent
/// to each request in turn. What it held before is no part of any request.
#[derive(Drop)]
pub struct Scratch {
    pub(crate) bytes: [u8; MOST_BYTES],
}

impl Scratch {
    /// Nothing is laid out yet.
    pub fn new() -> Scratch {
        Scratch {
            bytes: [0; MOST_BYTES],
        }
    }
}
