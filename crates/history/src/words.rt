//! The messages of an answer as words in a store of bytes, without the words that are 0.
ghost use Rattle.std.specs.Prelude.{◌≡◌, ◌≤◌, ◌<◌, ◌+◌, ◌*◌, ◌++◌, length, not, ◌==◌, IsTrue, ◌↔◌, vec_len, vec_capacity};
ghost use Rattle.std.specs.Int.{bit_at};
ghost use Rattle.wire_frame.specs.Bits.{has_bit};
ghost use Rattle.irq_causes.specs.Messages.{masks_of};
ghost use Rattle.history.specs.Heads.{word_bytes, word_of, rest_of, words_len, packed, messages_with};

use crate::bytes::append;
use byteorder::{ByteOrder, LittleEndian};
use irq_causes::{Messages, Vectors};
use wire_frame::has_bit;

// Adds a word that is not 0, and tells whether it is one.
#[inline]
#[tactic(auto, unfolding(crate::specs::Heads::word_bytes))]
fn append_word(store: &mut Vec<u8>, word: u64) -> bool
    requires { vec_len store.old + 8 ≤ vec_capacity store.old }
    ensures items { store.new.items ≡ store.old.items ++ word_bytes word }
    ensures kept { result ≡ not (word == 0) }
    ensures len { vec_len store.new ≡ vec_len store.old + length (word_bytes word) }
    ensures most { length (word_bytes word) ≤ 8 }
    ensures capacity { vec_capacity store.old ≤ vec_capacity store.new }
{
    if word == 0 {
        return false;
    }
    let mut bytes = [0; 8];
    LittleEndian::write_u64(&mut bytes, word);
    append(store, &bytes);
    true
}

// A set of vectors.
#[inline]
#[tactic(auto, using(crate::proofs::WordLemmas::bit_first, crate::proofs::WordLemmas::bit_second, crate::proofs::WordLemmas::bit_third))]
fn vectors_of(first: bool, second: bool, third: bool) -> Vectors
    ensures first { has_bit result 0 ≡ first }
    ensures second { has_bit result 1 ≡ second }
    ensures third { has_bit result 2 ≡ third }
{
    Vectors::from_bits(u8::from(first) + 2 * u8::from(second) + 4 * u8::from(third))
}

/// Adds the words of messages that are not 0, and tells the vectors that they are of. It is inlined, since every event comes by.
#[inline(always)]
#[tactic(auto, using(crate::proofs::WordLemmas::unpacked, crate::proofs::WordLemmas::packed_len))]
pub fn append_words(store: &mut Vec<u8>, words: [u64; 3]) -> Vectors
    requires { vec_len store.old + 24 ≤ vec_capacity store.old }
    ensures items { store.new.items ≡ store.old.items ++ packed words }
    ensures kept { messages_with result (packed words) ≡ masks_of words }
    ensures count { length (packed words) ≡ words_len result }
    ensures most { length (packed words) ≤ 24 }
    ensures len { vec_len store.new ≡ vec_len store.old + length (packed words) }
    ensures capacity { vec_capacity store.old ≤ vec_capacity store.new }
{
    let first = append_word(store, words[0]);
    let second = append_word(store, words[1]);
    let third = append_word(store, words[2]);
    vectors_of(first, second, third)
}

// The first word of bytes, where that of the vector is kept, and the bytes after it.
#[inline]
#[tactic(auto, unfolding(crate::specs::Heads::word_of, crate::specs::Heads::rest_of, wire_frame::specs::Bits::has_bit))]
fn take_word(vectors: Vectors, v: u32, bytes: &[u8]) -> (u64, &[u8])
    requires below { v < 3 }
    requires room { 8 * bit_at vectors v ≤ length bytes.now }
    ensures word { result.0 ≡ word_of (has_bit vectors v) bytes.now }
    ensures rest { result.1.now ≡ rest_of (has_bit vectors v) bytes.now }
    ensures len { length result.1.now + 8 * bit_at vectors v ≡ length bytes.now }
{
    if has_bit(u64::from(vectors.bits()), v) {
        (LittleEndian::read_u64(bytes), &bytes[8..])
    } else {
        (0, bytes)
    }
}

/// How many bytes the words of these vectors take.
#[inline]
pub fn words_len(vectors: Vectors) -> usize
    ensures len { result ≡ words_len vectors }
    ensures most { result ≤ 24 }
{
    let bits = vectors.bits();
    8 * usize::from(bits % 2 + bits / 2 % 2 + bits / 4)
}

// The messages, of which the words of these vectors are kept.
#[inline]
#[tactic(auto, unfolding(crate::specs::Heads::messages_with))]
fn messages_with(vectors: Vectors, bytes: &[u8]) -> Messages
    requires { length bytes.now ≡ words_len vectors }
    ensures { result ≡ messages_with vectors bytes.now }
{
    let (first, bytes) = take_word(vectors, 0, bytes);
    let (second, bytes) = take_word(vectors, 1, bytes);
    let (third, _) = take_word(vectors, 2, bytes);
    Messages::from_words([first, second, third])
}

/// Whether these are the messages, of which the words of these vectors are kept.
#[inline]
pub fn are_messages(messages: Messages, vectors: Vectors, bytes: &[u8]) -> bool
    requires { length bytes.now ≡ words_len vectors }
    ensures { IsTrue result ↔ (messages ≡ messages_with vectors bytes.now) }
{
    messages == messages_with(vectors, bytes)
}
