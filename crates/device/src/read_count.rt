//! How many bytes were read.
ghost use Rattle.std.specs.Prelude.{◌≡◌, ◌≤◌};

use crate::bytes::MOST_BYTES;

/// How many bytes of a guest's memory were read, at most 2048.
#[derive(Clone, Copy, Debug, PartialEq, Eq)]
pub struct ReadCount {
    count: u16,
    ghost short: { count ≤ 2048 },
}

impl ReadCount {
    // So many bytes, at most 2048.
    #[inline]
    pub(crate) fn new(count: u16) -> ReadCount
        requires { count ≤ 2048 }
        ensures { result.count ≡ count }
    {
        ReadCount { count }
    }

    /// The number, at most 2048.
    #[inline]
    pub fn count(self) -> usize
        ensures value { result ≡ self.count }
        ensures most { result ≤ 2048 }
    {
        prove!(usize::from(self.count) <= MOST_BYTES);
        usize::from(self.count)
    }
}
