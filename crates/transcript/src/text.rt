//! Texts in a room, from an index on. Each call answers the index behind its text; the bytes from there on are no text, and
//! may be written too as far as the call's premise reaches.
ghost use Rattle.std.specs.Prelude.{◌≡◌, ◌+◌, ◌*◌, ◌<◌, ◌≤◌, ◌++◌, codes, length, slice_range, take, decimal};
ghost use Rattle.std.specs.Int.{to_be_bytes, w32};
ghost use Rattle.hex.specs.Hex.{encode_lower};
ghost use Rattle.device.specs.declared.event.Reply.{Reply};
ghost use Rattle.device.specs.Outcome.{reply_of};
ghost use Rattle.transcript.specs.Text.{digits_or_none, mark_text, marks_text, reply_text};

use crate::digits::{encode, encode_word};
use device::{Outcome, Room};
use irq_causes::{Messages, Vectors};
use wire_frame::PoolId;

/// How many bytes one access to a guest's memory reads at most.
pub const MOST_READ: usize = 2048;

/// How many bytes the words of a reply have at most: those of one of bytes.
pub const MOST_REPLY: usize = 7 + 2 * MOST_READ;

/// How many bytes a mark has at most.
pub const MOST_MARK: usize = 6;

/// How many bytes the marks of 64 pools have at most, and room for one to spare.
pub const MOST_MARKS: usize = 65 * MOST_MARK;

// The number of each pool and a colon, in four bytes.
static POOLS: [u8; 256] =
    *b"0:  1:  2:  3:  4:  5:  6:  7:  8:  9:  10: 11: 12: 13: 14: 15: 16: 17: 18: 19: 20: 21: 22: 23: 24: 25: 26: 27: 28: 29: 30: 31: 32: 33: 34: 35: 36: 37: 38: 39: 40: 41: 42: 43: 44: 45: 46: 47: 48: 49: 50: 51: 52: 53: 54: 55: 56: 57: 58: 59: 60: 61: 62: 63: ";

/// Some bytes as they are.
#[inline]
pub fn put(room: &mut [u8], at: usize, bytes: &[u8]) -> usize
    requires { at + length bytes.now ≤ length room.old }
    ensures end { result ≡ at + length bytes.now }
    ensures text { take result room.new ≡ take at room.old ++ bytes.now }
{
    room[at..at + bytes.len()].copy_from_slice(bytes);
    at + bytes.len()
}

/// A word as it is. It comes by value, since what lies in no other memory is written by plain stores.
#[inline]
pub fn put_word<const N: usize>(room: &mut [u8], at: usize, word: [u8; N]) -> usize
    requires { at + N ≤ length room.old }
    ensures end { result ≡ at + N }
    ensures text { take result room.new ≡ take at room.old ++ word.entry }
{
    put(room, at, &word)
}

/// The first bytes of a word. All of it is written.
#[inline]
pub fn put_front<const N: usize>(room: &mut [u8], at: usize, word: [u8; N], count: usize) -> usize
    requires some { count ≤ N }
    requires fits { at + N ≤ length room.old }
    ensures end { result ≡ at + count }
    ensures text { take result room.new ≡ take at room.old ++ take count word.entry }
{
    put_word(room, at, word);
    at + count
}

/// The word that stands at an index.
#[inline]
pub fn word_at<const N: usize>(bytes: &[u8], at: usize) -> [u8; N]
    requires { at + N ≤ length bytes.now }
    ensures { result ≡ slice_range bytes.now at (at + N) }
{
    let mut word = [0; N];
    word.copy_from_slice(&bytes[at..at + N]);
    word
}

// A number below 100 in decimal digits.
#[inline]
#[tactic(auto, using(std::proofs::lemmas::Fmt::decimal_digit, itoa::proofs::Decimal::decimal_two))]
fn put_small(room: &mut [u8], at: usize, number: u8) -> usize
    requires small { number < 100 }
    requires fits { at + 2 ≤ length room.old }
    ensures end { result ≤ at + 2 }
    ensures text { take result room.new ≡ take at room.old ++ decimal number }
{
    if number < 10 {
        return put_word(room, at, [b'0' + number]);
    }
    put_word(room, at, [b'0' + number / 10, b'0' + number % 10])
}

// A value after its sign, in eight lower-case digits.
#[inline]
fn put_value(room: &mut [u8], at: usize, value: u32) -> usize
    requires { at + 13 ≤ length room.old }
    ensures end { result ≡ at + 13 }
    ensures text { take result room.new
        ≡ take at room.old ++ (codes " = 0x" ++ encode_lower (to_be_bytes w32 value)) }
{
    let at = put_word(room, at, *b" = 0x");
    put_word(room, at, encode_word(value))
}

/// Two lower-case digits for each byte.
pub fn put_digits(room: &mut [u8], at: usize, bytes: &[u8]) -> usize
    requires { at + 2 * length bytes.now ≤ length room.old }
    ensures end { result ≡ at + 2 * length bytes.now }
    ensures text { take result room.new ≡ take at room.old ++ encode_lower bytes.now }
{
    let end = at + 2 * bytes.len();
    encode(bytes, &mut room[at..end]);
    end
}

// The words of a reply of bytes: their digits, or `-` where there are none.
#[tactic(auto, unfolding(crate::specs::Text::reply_text))]
fn put_bytes_reply(room: &mut [u8], at: usize, bytes: &[u8]) -> usize
    requires few { length bytes.now ≤ MOST_READ }
    requires fits { at + MOST_REPLY ≤ length room.old }
    ensures end { result ≤ at + MOST_REPLY }
    ensures text { take result room.new ≡ take at room.old ++ reply_text (Reply.Bytes bytes.now) }
{
    let at = put_word(room, at, *b" bytes ");
    if bytes.is_empty() {
        put_word(room, at, *b"-")
    } else {
        put_digits(room, at, bytes)
    }
}

/// The words of a reply, each after a space. Bytes that were read stand first in the room that was lent.
#[inline]
#[tactic(auto, unfolding(crate::specs::Text::reply_text))]
pub fn put_reply(room: &mut [u8], at: usize, outcome: Outcome, lent: &Room) -> usize
    requires { at + MOST_REPLY ≤ length room.old }
    ensures end { result ≤ at + MOST_REPLY }
    ensures text { take result room.new
        ≡ take at room.old ++ reply_text (reply_of lent.now.bytes outcome) }
{
    match outcome {
        Outcome::Done => put_word(room, at, *b" ok"),
        Outcome::Value(value) => put_value(room, at, value),
        Outcome::Bytes(_) => put_bytes_reply(room, at, lent.read(outcome)),
        Outcome::Idle => put_word(room, at, *b" idle"),
        Outcome::More => put_word(room, at, *b" more"),
        Outcome::Sent => put_word(room, at, *b" sent"),
        Outcome::Dropped => put_word(room, at, *b" dropped"),
        Outcome::Faulted => put_word(room, at, *b" faulted"),
        Outcome::Refused(fault) => {
            let at = put_word(room, at, *b" refused ");
            put_small(room, at, fault.number())
        }
    }
}

/// A mark for each pool that got a message, in rising order of the pools.
pub fn put_marks(room: &mut [u8], at: usize, messages: &Messages) -> usize
    requires { at + MOST_MARKS ≤ length room.old }
    ensures end { result ≤ at + MOST_MARKS }
    ensures text { take result room.new ≡ take at room.old ++ marks_text 0 messages.now }
{
    messages.masks_are_small();
    let mut end = at;
    for pool in messages.pools() {
        end = put_mark(room, end, pool, messages.to(pool));
    }
    end
}

/// A pool's mark, unless it got no message. Sets of vectors have one digit.
#[inline]
#[tactic(auto, unfolding(crate::specs::Text::mark_text))]
pub fn put_mark(room: &mut [u8], at: usize, pool: PoolId, vectors: Vectors) -> usize
    requires { at + MOST_MARK ≤ length room.old }
    ensures end { result ≤ at + MOST_MARK }
    ensures text { take result room.new ≡ take at room.old ++ mark_text pool vectors }
{
    if vectors.is_empty() {
        return at;
    }
    let at = put_word(room, at, *b" !");
    let at = put_pool(room, at, pool);
    put_word(room, at, [b'0' + vectors.bits()])
}

// The number of a pool and a colon.
#[inline]
fn put_pool(room: &mut [u8], at: usize, pool: PoolId) -> usize
    requires { at + 4 ≤ length room.old }
    ensures end { result ≤ at + 3 }
    ensures text { take result room.new ≡ take at room.old ++ (decimal pool ++ codes ":") }
{
    let number = usize::from(pool.get());
    let count = if number < 10 { 2 } else { 3 };
    put_front::<4>(room, at, word_at(&POOLS, 4 * number), count)
}
