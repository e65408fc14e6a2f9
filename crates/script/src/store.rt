//! The bytes of a script's frames and memory writes, kept together and not much longer than the script writes them.
//!
//! A word's bytes stand in a pool behind those of the word before it. Where they are many more than the word has, as those
//! of a byte that is repeated, the word itself stands there, and is read again where its bytes are asked for.
ghost use Rattle.std.specs.Prelude.{◌≡◌, ◌+◌, ◌≤◌, [], length, Some, IfOk, IfErr};
ghost use Rattle.script.specs.Bytes.{bytes_of};
ghost use Rattle.script.specs.Store.{Grows, Lies, bytes_at, part};

use crate::chunks::{MOST_BYTES, lay_word};
use crate::fault::Refusal;
use std::alloc::Global;
use std::marker::Model;

// How many times as long as the word that writes them bytes are kept as they are.
const MOST_TIMES: usize = 2;

/// Where a word's bytes are in the pool, or the word.
#[derive(Clone, Copy)]
pub struct Stored {
    at: u32,
    count: u16,
    is_word: bool,
}

/// The bytes of words.
#[derive(Drop)]
pub struct Store {
    pool: Vec<u8>,
}

impl Model for Store {
    ghost use Rattle.std.specs.Prelude.{List, ℕ};

    ghost Value = { List ℕ };

    ghost view = { λ s. s.pool.items };
}

impl Store {
    /// No bytes.
    pub fn new(alloc: Global) -> Store
        ensures { result ≡ [] }
    {
        Store {
            pool: Vec::new(alloc),
        }
    }

    /// Keeps the bytes that a word writes, at most 9018.
    pub fn keep(&mut self, word: &[u8], bytes: &[u8]) -> Result<Stored, Refusal>
        requires written { bytes_of word.now ≡ Some bytes.now }
        requires few { length bytes.now ≤ 9018 }
        ensures bytes { IfOk result (λ span. bytes_at self.new span ≡ bytes.now) }
        ensures lies { IfOk result (λ span. Lies self.new span) }
        ensures why { IfErr result (λ e. e ≡ Refusal.NoMemory) }
        ensures grown { Grows self.old self.new }
    {
        if bytes.len() > MOST_TIMES * word.len() {
            return self.put(word, true);
        }
        self.put(bytes, false)
    }

    // Keeps bytes behind the others, which are a word or not. A pool of 4 GiB has no room for more; those of a script, of
    // at most 60,000 events, have less.
    fn put(&mut self, bytes: &[u8], is_word: bool) -> Result<Stored, Refusal>
        requires few { length bytes.now ≤ 9018 }
        ensures part { IfOk result (λ span. part self.new span ≡ bytes.now) }
        ensures inside { IfOk result (λ span. span.at + span.count ≤ length self.new) }
        ensures word { IfOk result (λ span. span.is_word ≡ is_word) }
        ensures why { IfErr result (λ e. e ≡ Refusal.NoMemory) }
        ensures grown { Grows self.old self.new }
    {
        let Ok(at) = u32::try_from(self.pool.len()) else {
            return Err(Refusal::NoMemory);
        };
        self.pool.extend_from_slice(bytes)?;
        Ok(Stored {
            at,
            count: bytes.len() as u16,
            is_word,
        })
    }

    /// The bytes of a span. Those that are kept as they are are lent where they stand, and others are laid out in `room`.
    #[inline]
    pub fn bytes<'a>(&'a self, span: Stored, room: &'a mut [u8; MOST_BYTES]) -> &'a [u8]
        requires lies { Lies self.now span }
        requires few { length (bytes_at self.now span) ≤ 9018 }
        ensures { result.now ≡ bytes_at self.now span }
    {
        let start = span.at as usize;
        let kept = &self.pool[start..start + usize::from(span.count)];
        if !span.is_word {
            return kept;
        }
        match lay_word(kept, room) {
            Some(count) => &room[..count],
            None => unreachable!(),
        }
    }
}
