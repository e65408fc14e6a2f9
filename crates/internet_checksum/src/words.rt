//! The sum of bytes.
ghost use Rattle.std.specs.Prelude.{◌≡◌, ◌+◌, ◌*◌, ◌<◌, ◌≤◌, ◌^◌, ℕ, List, drop, length};
ghost use Rattle.byteorder.specs.Endian.{little_number};
ghost use Rattle.internet_checksum.specs.Sum.{word_sum, folded, checksum, never_zero};

use byteorder::{BigEndian, ByteOrder, LittleEndian};

/// How many bytes are summed at once, as long as there are so many.
const BLOCK: usize = 64;

/// The ones' complement sum of the bytes as 16-bit words, the highest byte first, and of `start`: 0 where all of these are 0, else 1 to
/// 0xFFFF. An odd last byte counts as the highest byte of a word. `start` is the sum of what is summed with them and doesn't stand
/// among them, as a pseudo header; it is 0 where there is nothing.
#[inline]
pub fn sum(bytes: &[u8], start: u16) -> u16
    ensures { result ≡ folded (start + word_sum bytes.now) }
{
    let (mut first, mut rest) = sum_blocks(bytes);
    let mut second = 0u128;
    while rest.len() >= 16 {
        first += u128::from(LittleEndian::read_u64(rest));
        second += u128::from(LittleEndian::read_u64(&rest[8..]));
        rest = &rest[16..];
    }
    if rest.len() >= 8 {
        first += u128::from(LittleEndian::read_u64(rest));
        rest = &rest[8..];
    }
    folded(narrow(first + second) * 256 + u64::from(start) + short_sum(rest))
}

/// The checksum of the bytes, as it stands in a header: their sum with each bit turned over.
#[inline]
pub fn checksum(bytes: &[u8]) -> u16
    ensures { result ≡ checksum bytes.now }
{
    u16::MAX - sum(bytes, 0)
}

/// The checksum as UDP sends it: 0xFFFF in the place of 0, which would say that there is no checksum (RFC 768). Both verify alike.
#[inline]
pub fn never_zero(checksum: u16) -> u16
    ensures { result ≡ never_zero checksum }
{
    if checksum == 0 { u16::MAX } else { checksum }
}

// The blocks that there are, as a number that 256 times has the sum of their words; and the bytes behind them.
//
// Eight bytes are one number, its lowest byte first. 256 times the sum of such numbers is the sum of their words with the highest byte
// first, since 65536 counts as 1. Four sums beside each other, and one test a block, let a processor add as fast as it can carry.
#[inline]
fn sum_blocks(bytes: &[u8]) -> (u128, &[u8])
    ensures sum { (n : ℕ) → folded (256 * result.0 + (n + word_sum result.1.now)) ≡ folded (n + word_sum bytes.now) }
    ensures few { 8 * result.0 + 2 ^ 64 * length result.1.now ≤ 2 ^ 64 * length bytes.now }
{
    let mut rest = bytes;
    let mut first = 0u128;
    let mut second = 0u128;
    let mut third = 0u128;
    let mut fourth = 0u128;
    while rest.len() >= BLOCK {
        first += number_at(rest, 0) + number_at(rest, 32);
        second += number_at(rest, 8) + number_at(rest, 40);
        third += number_at(rest, 16) + number_at(rest, 48);
        fourth += number_at(rest, 24) + number_at(rest, 56);
        rest = &rest[BLOCK..];
    }
    (first + second + third + fourth, rest)
}

// The eight bytes from a place on as a number, its lowest byte first.
#[inline]
fn number_at(bytes: &[u8], place: usize) -> u128
    requires { place + 8 ≤ length bytes.now }
    ensures number { result ≡ little_number 8 (drop place bytes.now) }
    ensures most { result < 2 ^ 64 }
{
    u128::from(LittleEndian::read_u64(&bytes[place..]))
}

// The words of fewer than eight bytes, as a number that has the same sum.
#[inline]
fn short_sum(bytes: &[u8]) -> u64
    requires { length bytes.now < 8 }
    ensures sum { (n : ℕ) → folded (n + result) ≡ folded (n + word_sum bytes.now) }
    ensures most { result < 2 ^ 33 }
{
    if bytes.len() >= 4 {
        u64::from(BigEndian::read_u32(bytes)) + u64::from(shorter_sum(&bytes[4..]))
    } else {
        u64::from(shorter_sum(bytes))
    }
}

// The words of fewer than four bytes.
#[inline]
fn shorter_sum(bytes: &[u8]) -> u32
    requires { length bytes.now < 4 }
    ensures sum { result ≡ word_sum bytes.now }
    ensures most { result < 2 ^ 17 }
{
    if bytes.len() >= 2 {
        u32::from(BigEndian::read_u16(bytes)) + last_sum(&bytes[2..])
    } else {
        last_sum(bytes)
    }
}

// A last byte, if there is one.
#[inline]
fn last_sum(bytes: &[u8]) -> u32
    requires { length bytes.now < 2 }
    ensures sum { result ≡ word_sum bytes.now }
    ensures most { result < 2 ^ 16 }
{
    if bytes.len() == 1 {
        u32::from(bytes[0]) * 256
    } else {
        0
    }
}

// A number below 2 to the 34th that has the same sum. Each step adds the upper half to the lower one.
#[inline]
fn narrow(total: u128) -> u64
    ensures sum { folded result ≡ folded total }
    ensures most { result < 2 ^ 34 }
{
    let total = total % 0x1_0000_0000_0000_0000 + total / 0x1_0000_0000_0000_0000;
    (total % 0x1_0000_0000 + total / 0x1_0000_0000) as u64
}

/// A number as a sum of 16 bits in ones' complement: what goes beyond the highest bit is added at the lowest. 0 comes from 0 alone. It makes
/// the sum of words that a caller has added up itself, as where it knows what is to stand in a header.
#[inline]
pub fn folded(total: u64) -> u16
    ensures { result ≡ folded total }
{
    let total = total % 0x1_0000_0000 + total / 0x1_0000_0000;
    let total = (total % 0x1_0000 + total / 0x1_0000) as u32;
    let total = total % 0x1_0000 + total / 0x1_0000;
    (total % 0x1_0000 + total / 0x1_0000) as u16
}
