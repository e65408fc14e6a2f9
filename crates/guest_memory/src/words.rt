//! Words as bytes, lowest byte first.
ghost use Rattle.std.specs.Prelude.{◌≡◌, ℕ, length};
ghost use Rattle.guest_memory.specs.Memory.{word_at, word_bytes, two_words};

use byteorder::{ByteOrder, LittleEndian};

// Makes eight bytes those of a word.
#[inline]
#[tactic(auto, unfolding(crate::specs::Memory::word_bytes))]
pub(crate) fn put_word(bytes: &mut [u8], word: u64)
    requires { length bytes.old ≡ 8 }
    ensures value { bytes.new ≡ word_bytes word }
    ensures len { length bytes.new ≡ 8 }
{
    LittleEndian::write_u64(bytes, word);
}

// Makes sixteen bytes those of two words.
#[inline]
#[tactic(auto, unfolding(crate::specs::Memory::two_words))]
pub(crate) fn put_words(bytes: &mut [u8], low: u64, high: u64)
    requires { length bytes.old ≡ 16 }
    ensures value { bytes.new ≡ two_words low high }
    ensures len { length bytes.new ≡ 16 }
{
    LittleEndian::write_u64(&mut bytes[..8], low);
    LittleEndian::write_u64(&mut bytes[8..], high);
}

// The bytes of a word.
#[inline]
pub(crate) fn bytes_of(word: u64) -> [u8; 8]
    ensures value { result ≡ word_bytes word }
    ensures len { length result ≡ 8 }
{
    let mut bytes = [0u8; 8];
    put_word(&mut bytes, word);
    bytes
}

// The bytes of two words.
#[inline]
pub(crate) fn bytes_of_two(low: u64, high: u64) -> [u8; 16]
    ensures value { result ≡ two_words low high }
    ensures len { length result ≡ 16 }
{
    let mut bytes = [0u8; 16];
    put_words(&mut bytes, low, high);
    bytes
}

// The word of eight bytes.
#[inline]
#[tactic(auto, using(crate::proofs::EightBytes::word_back), unfolding(crate::specs::Memory::word_at))]
pub(crate) fn word_of(bytes: &[u8]) -> u64
    requires { length bytes.now ≡ 8 }
    ensures value { result ≡ word_at 0 bytes.now }
    ensures spelled { word_bytes result ≡ bytes.now }
{
    LittleEndian::read_u64(bytes)
}

// The two words of sixteen bytes.
#[inline]
#[tactic(auto, using(crate::proofs::EightBytes::words_back), unfolding(crate::specs::Memory::word_at))]
pub(crate) fn words_of(bytes: &[u8]) -> (u64, u64)
    requires { length bytes.now ≡ 16 }
    ensures low { result.0 ≡ word_at 0 bytes.now }
    ensures high { result.1 ≡ word_at 8 bytes.now }
    ensures both { two_words result.0 result.1 ≡ bytes.now }
{
    let (low, high) = bytes.split_at(8);
    (LittleEndian::read_u64(low), LittleEndian::read_u64(high))
}
