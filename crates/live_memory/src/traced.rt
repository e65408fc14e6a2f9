//! A memory with the accesses that were made to it.
ghost use Rattle.std.specs.Prelude.{◌≡◌, ℕ, ◌+◌, ◌^◌, ◌<◌, ◌≤◌, [], ◌∷◌, ◌++◌, length, replicate, slice_range};
ghost use Rattle.guest_memory.specs.Memory.{overwrite, word_at, word_bytes, two_words};
ghost use Rattle.live_memory.specs.Clearing.{clearing, with_clearing};
ghost use Rattle.live_memory.specs.Trace.{Read, Wrote, HasRead, with_access};

use crate::dma::{Alone, Dma};
use crate::step::Step;
use crate::trace::Trace;
use crate::words::{bytes_of, bytes_of_two};
use guest_memory::GuestMem;
use std::marker::{Model, PhantomData};

/// A memory with all accesses that were made to it. Its methods alone make accesses, and each adds the one that it made. Nothing
/// else makes or changes the list, and nothing empties it: what a call did with the memory is what the list grew by.
#[derive(Drop)]
pub struct Traced<D: Dma<K>, K> {
    memory: D,
    size: u64,
    trace: Trace,
    kind: PhantomData<K>,
}

impl<D: Dma<K>, K> Model for Traced<D, K> {
    ghost use Rattle.std.specs.Prelude.{◌≡◌, length};
    ghost use Rattle.live_memory.specs.Trace.{Accessed};

    ghost Value = { Accessed D };

    ghost view = { λ t. record { memory = t.memory; accesses = t.trace.accesses } };

    ghost invariant = { λ t. t.size ≡ length (D.seen t.memory) };
}

impl<D: Dma<K>, K> Traced<D, K> {
    /// The memory, with the accesses that it noted itself: none where it is new, or isn't shared.
    pub fn new(memory: D) -> Traced<D, K>
        ensures memory { result.memory ≡ memory }
        ensures noted { result.accesses ≡ D.noted memory }
    {
        let size = memory.extent();
        let trace = memory.notes();
        Traced {
            memory,
            size,
            trace,
            kind: PhantomData,
        }
    }

    /// The memory by itself again.
    pub fn into_memory(self) -> D
        ensures { result ≡ self.memory }
    {
        self.memory
    }

    /// The number of bytes.
    #[inline]
    pub fn size(&self) -> u64
        ensures { result ≡ length (D.seen self.now.memory) }
    {
        self.size
    }

    /// Copies the bytes from `addr` on into `out`, whatever they are by then.
    #[inline]
    pub fn load(&mut self, addr: u64, out: &mut [u8])
        requires { addr + length out.old ≤ length (D.seen self.old.memory) }
        ensures out { out.new ≡ slice_range (D.seen self.new.memory) addr (addr + length out.old) }
        ensures answer { out.new ≡ D.answer self.old.memory addr (length out.old) }
        ensures seen { D.seen self.new.memory ≡ overwrite addr out.new (D.seen self.old.memory) }
        ensures read { HasRead D.shared (D.seen self.old.memory) (D.seen self.new.memory)
            self.old.accesses self.new.accesses }
        ensures listed { self.new.accesses ≡ self.old.accesses ++ Read addr out.new ∷ [] }
        ensures noted { D.noted self.new.memory
            ≡ with_access D.shared (D.noted self.old.memory) (Read addr out.new) }
    {
        self.memory.load(addr, out);
        self.trace = Step::Reads(&self.trace, addr, out).trace();
    }

    /// The word at `addr`, lowest byte first, read by one access.
    #[inline]
    pub fn load_word(&mut self, addr: u64) -> u64
        requires { addr + 8 ≤ length (D.seen self.old.memory) }
        ensures value { result ≡ word_at addr (D.seen self.new.memory) }
        ensures seen { D.seen self.new.memory
            ≡ overwrite addr (word_bytes result) (D.seen self.old.memory) }
        ensures read { HasRead D.shared (D.seen self.old.memory) (D.seen self.new.memory)
            self.old.accesses self.new.accesses }
        ensures listed { self.new.accesses
            ≡ self.old.accesses ++ Read addr (word_bytes result) ∷ [] }
        ensures answer { word_bytes result ≡ D.answer self.old.memory addr 8 }
        ensures noted { D.noted self.new.memory
            ≡ with_access D.shared (D.noted self.old.memory) (Read addr (word_bytes result)) }
    {
        let word = self.memory.load_word(addr);
        self.trace = Step::Reads(&self.trace, addr, &bytes_of(word)).trace();
        word
    }

    /// The two words from `addr` on, as of a descriptor of 16 bytes, read by one access.
    #[inline]
    pub fn load_words(&mut self, addr: u64) -> (u64, u64)
        requires { addr + 16 ≤ length (D.seen self.old.memory) }
        ensures low { result.0 ≡ word_at addr (D.seen self.new.memory) }
        ensures high { result.1 ≡ word_at (addr + 8) (D.seen self.new.memory) }
        ensures both { two_words result.0 result.1
            ≡ slice_range (D.seen self.new.memory) addr (addr + 16) }
        ensures seen { D.seen self.new.memory
            ≡ overwrite addr (two_words result.0 result.1) (D.seen self.old.memory) }
        ensures answer { two_words result.0 result.1 ≡ D.answer self.old.memory addr 16 }
        ensures read { HasRead D.shared (D.seen self.old.memory) (D.seen self.new.memory)
            self.old.accesses self.new.accesses }
        ensures listed { self.new.accesses ≡ self.old.accesses
            ++ Read addr (two_words result.0 result.1) ∷ [] }
        ensures noted { D.noted self.new.memory
            ≡ with_access D.shared (D.noted self.old.memory)
            (Read addr (two_words result.0 result.1)) }
    {
        let (low, high) = self.memory.load_words(addr);
        self.trace = Step::Reads(&self.trace, addr, &bytes_of_two(low, high)).trace();
        (low, high)
    }

    /// Writes `source` over the bytes from `addr` on.
    #[inline]
    pub fn store(&mut self, addr: u64, source: &[u8])
        requires { addr + length source.now ≤ length (D.seen self.old.memory) }
        ensures seen { D.seen self.new.memory ≡ overwrite addr source.now (D.seen self.old.memory) }
        ensures size { length (D.seen self.new.memory) ≡ length (D.seen self.old.memory) }
        ensures listed { self.new.accesses ≡ self.old.accesses ++ Wrote addr source.now ∷ [] }
        ensures noted { D.noted self.new.memory
            ≡ with_access D.shared (D.noted self.old.memory) (Wrote addr source.now) }
    {
        self.memory.store(addr, source);
        self.trace = Step::Writes(&self.trace, addr, source).trace();
    }

    /// Writes bytes that stand in two parts over those from `addr` on, one part behind the other. Each byte is written once.
    pub fn store_parts(&mut self, addr: u64, front: &[u8], back: &[u8])
        requires inside { addr + (length front.now + length back.now)
            ≤ length (D.seen self.old.memory) }
        requires fits { addr + (length front.now + length back.now) < 2 ^ 64 }
        ensures seen { D.seen self.new.memory
            ≡ overwrite addr (front.now ++ back.now) (D.seen self.old.memory) }
        ensures size { length (D.seen self.new.memory) ≡ length (D.seen self.old.memory) }
        ensures listed { self.new.accesses
            ≡ self.old.accesses ++ Wrote addr (front.now ++ back.now) ∷ [] }
        ensures noted { D.noted self.new.memory
            ≡ with_access D.shared
            (with_access D.shared (D.noted self.old.memory) (Wrote addr front.now))
            (Wrote (addr + length front.now) back.now) }
    {
        self.memory.store(addr, front);
        self.memory.store(addr + front.len() as u64, back);
        self.trace = Step::WritesBoth(&self.trace, addr, front, back).trace();
    }

    /// Writes a word at `addr`, lowest byte first, by one access.
    #[inline]
    pub fn store_word(&mut self, addr: u64, word: u64)
        requires { addr + 8 ≤ length (D.seen self.old.memory) }
        ensures seen { D.seen self.new.memory
            ≡ overwrite addr (word_bytes word) (D.seen self.old.memory) }
        ensures size { length (D.seen self.new.memory) ≡ length (D.seen self.old.memory) }
        ensures listed { self.new.accesses
            ≡ self.old.accesses ++ Wrote addr (word_bytes word) ∷ [] }
        ensures noted { D.noted self.new.memory
            ≡ with_access D.shared (D.noted self.old.memory) (Wrote addr (word_bytes word)) }
    {
        self.memory.store_word(addr, word);
        self.trace = Step::Writes(&self.trace, addr, &bytes_of(word)).trace();
    }

    /// Writes two words from `addr` on, by one access.
    #[inline]
    pub fn store_words(&mut self, addr: u64, low: u64, high: u64)
        requires { addr + 16 ≤ length (D.seen self.old.memory) }
        ensures seen { D.seen self.new.memory
            ≡ overwrite addr (two_words low high) (D.seen self.old.memory) }
        ensures size { length (D.seen self.new.memory) ≡ length (D.seen self.old.memory) }
        ensures listed { self.new.accesses
            ≡ self.old.accesses ++ Wrote addr (two_words low high) ∷ [] }
        ensures noted { D.noted self.new.memory
            ≡ with_access D.shared (D.noted self.old.memory) (Wrote addr (two_words low high)) }
    {
        self.memory.store_words(addr, low, high);
        self.trace = Step::Writes(&self.trace, addr, &bytes_of_two(low, high)).trace();
    }

    /// Writes zero over every byte, as where a function is opened.
    pub fn erase(&mut self)
        ensures seen { D.seen self.new.memory
            ≡ replicate (length (D.seen self.old.memory)) 0 }
        ensures size { length (D.seen self.new.memory) ≡ length (D.seen self.old.memory) }
        ensures listed { self.new.accesses
            ≡ self.old.accesses ++ clearing (length (D.seen self.old.memory)) }
        ensures noted { D.noted self.new.memory
            ≡ with_clearing D.shared (D.noted self.old.memory) (length (D.seen self.old.memory)) }
    {
        self.memory.erase();
        self.trace = Step::Clears(&self.trace, self.size).trace();
    }
}

impl<M: GuestMem> Traced<M, Alone> {
    /// Copies bytes of a memory that nobody else writes into `out`. It is the host's look at them, and no access of a device.
    #[inline]
    pub fn look_at(&self, addr: u64, out: &mut [u8])
        requires { addr + length out.old ≤ length (M.bytes self.now.memory) }
        ensures { out.new
            ≡ slice_range (M.bytes self.now.memory) addr (addr + length out.old) }
    {
        self.memory.read_at(addr, out);
    }
}
