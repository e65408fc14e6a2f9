//! The bytes that words write, laid out.
ghost use Rattle.std.specs.Prelude.{◌≡◌, ◌≤◌, ◌+◌, ◌++◌, ℕ, length, take, replicate};
ghost use Rattle.script.specs.Text.{parts};
ghost use Rattle.script.specs.Bytes.{bytes_of, chunk_of, chunks_of, has_count};
ghost use Rattle.script.specs.Laid.{Laid, LaidAt};

use crate::hexadecimal::{byte, decode};
use crate::numbers::decimal;
use crate::text::cut;

/// How many bytes one word of a script may have: those of the longest frame.
pub const MOST_BYTES: usize = 9018;

// How many bytes are looked at one by one for the end of a chunk: up to the `.` behind one byte, or behind one that is repeated up to nine
// times; and all of them where few are left.
const NEAR: usize = 5;

const SHORT: usize = 12;

/// Lays the bytes that a word writes from the start of `room`, and tells how many they are. The word is `-`, or chunks
/// joined by `.`. A chunk is an even, nonzero number of hexadecimal digits, or two of them, `*` and a decimal count from 1
/// to 9018. None where it is none of these, or there is no room for so many bytes.
#[tactic(auto, unfolding(crate::specs::Bytes::bytes_of))]
pub fn lay_word(word: &[u8], room: &mut [u8]) -> Option<usize>
    ensures bytes { Laid (bytes_of word.now) result (length room.old) room.new }
    ensures len { length room.new ≡ length room.old }
{
    if word == b"-".as_slice() {
        return Some(0);
    }
    lay_chunks(word, room)
}

// Lays the bytes of chunks.
fn lay_chunks(word: &[u8], room: &mut [u8]) -> Option<usize>
    ensures bytes { Laid (chunks_of (parts 46 word.now)) result (length room.old) room.new }
    ensures len { length room.new ≡ length room.old }
{
    let mut end = 0;
    let mut rest = word;
    loop {
        let few = if rest.len() < SHORT { SHORT } else { NEAR };
        let (chunk, after) = cut(few, b'.', rest);
        end = lay_chunk(chunk, end, room)?;
        match after {
            Some(after) => rest = after,
            None => return Some(end),
        }
    }
}

// Lays the bytes of a chunk from a place on, and tells where they end.
#[tactic(auto, unfolding(crate::specs::Bytes::chunk_of))]
fn lay_chunk(chunk: &[u8], at: usize, room: &mut [u8]) -> Option<usize>
    requires { at ≤ length room.old }
    ensures bytes { LaidAt (chunk_of chunk.now) at result room.old room.new }
    ensures len { length room.new ≡ length room.old }
{
    let left = room.len() - at;
    if has_count(chunk) {
        let byte = byte(chunk[0], chunk[1])?;
        let count = decimal(&chunk[3..])?;
        if count < 1 || count > left as u64 || count > MOST_BYTES as u64 {
            return None;
        }
        return Some(fill(byte, count as usize, at, room));
    }
    let count = chunk.len() / 2;
    if count < 1 || count > left || chunk.len() % 2 != 0 {
        return None;
    }
    let end = at + count;
    if !decode(chunk, &mut room[at..end]) {
        return None;
    }
    Some(end)
}

// Whether a chunk is two digits, `*` and a count.
#[inline]
fn has_count(chunk: &[u8]) -> bool
    ensures { result ≡ has_count chunk.now }
{
    chunk.len() >= 3 && chunk[2] == b'*'
}

// Lays a byte so many times from a place on, and tells where they end.
#[inline]
fn fill(byte: u8, count: usize, at: usize, room: &mut [u8]) -> usize
    requires { at + count ≤ length room.old }
    ensures bytes { take result room.new ≡ take at room.old ++ replicate {A = ℕ} count byte }
    ensures end { result ≡ at + count }
    ensures len { length room.new ≡ length room.old }
{
    let end = at + count;
    room[at..end].fill(byte);
    end
}
