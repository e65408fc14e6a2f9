//! Words among bytes, the highest byte first.
ghost use Rattle.std.specs.Prelude.{◌≡◌, ◌+◌, ◌≤◌, length};
ghost use Rattle.internet_checksum.specs.Sum.{word_at};

/// The word whose first byte stands at a place.
#[inline]
pub(crate) fn word_at(bytes: &[u8], place: usize) -> u16
    requires { place + 2 ≤ length bytes.now }
    ensures { result ≡ word_at place bytes.now }
{
    u16::from(bytes[place]) * 256 + u16::from(bytes[place + 1])
}
