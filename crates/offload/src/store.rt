//! Words that are written among bytes, the highest byte first.
ghost use Rattle.std.specs.Prelude.{◌≡◌, ◌+◌, ◌≤◌, length};
ghost use Rattle.internet_checksum.specs.Sum.{word_at, with_word};

use byteorder::{BigEndian, ByteOrder};

/// The word whose first byte stands at a place.
#[inline]
pub(crate) fn load_word(bytes: &[u8], place: usize) -> u16
    requires { place + 2 ≤ length bytes.now }
    ensures { result ≡ word_at place bytes.now }
{
    BigEndian::read_u16(&bytes[place..])
}

/// Writes a word over the two bytes at a place.
#[inline]
pub(crate) fn store_word(bytes: &mut [u8], place: usize, word: u16)
    requires { place + 2 ≤ length bytes.old }
    ensures bytes { bytes.new ≡ with_word place word bytes.old }
{
    BigEndian::write_u16(&mut bytes[place..place + 2], word);
}
