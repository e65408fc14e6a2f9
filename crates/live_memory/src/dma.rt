//! The interface of a memory that others may write too.
ghost use Rattle.std.specs.Prelude.{◌≡◌, ℕ, ◌+◌, ◌≤◌, Bool, false, List, length, replicate, slice_range};
ghost use Rattle.guest_memory.specs.Memory.{overwrite, word_at, word_bytes, two_words};
ghost use Rattle.live_memory.specs.Clearing.{with_clearing};
ghost use Rattle.live_memory.specs.Trace.{Access, Read, Wrote, with_access};

use crate::trace::Trace;
use crate::words::{bytes_of, bytes_of_two, word_of, words_of};

/// The kind of a memory that nobody writes while a device works on it, as every [`GuestMem`](guest_memory::GuestMem) is.
#[derive(Drop)]
pub struct Alone;

/// The kind of a memory that others may write while a device works on it, as a guest's processors do.
#[derive(Drop)]
pub struct Shared;

/// A guest's memory, by a device's accesses to it. An access lies inside the memory, and no call takes memory of the host. The
/// number of bytes never changes.
///
/// `shared` says whether others write the memory while a device works on it. `answer` is what the memory answers to a read of so
/// many bytes from an address on. Where the memory is shared nothing is said of it: it may be another one at each read. `seen`
/// is the memory as the device knows it: each access puts its bytes there, a read those that it was answered. A memory that is
/// shared also notes each access, in `noted`, and forgets none. [`Traced`](crate::Traced) lists the accesses to any memory.
///
/// `K` is the kind of the memory, [`Alone`] or [`Shared`], so that a type of either kind has one implementation.
///
/// The accesses of words have bodies here, over those of bytes, which may be written anew for a memory that has a shorter way to
/// a word.
pub trait Dma<K>: Drop {
    ghost shared: { Bool };

    ghost seen: { Self → List ℕ };

    ghost answer: { Self → ℕ → ℕ → List ℕ };

    ghost noted: { Self → List Access };

    ghost whole: { (memory : Self) (at count : ℕ) → at + count ≤ length (seen memory) → length (answer memory at count) ≡ count };

    ghost steady: { (memory : Self) (at count : ℕ) → shared ≡ false → answer memory at count ≡ slice_range (seen memory) at (at + count) };

    /// The number of bytes.
    fn extent(&self) -> u64
        ensures { result ≡ length (seen self.now) };

    /// What it noted up to now.
    fn notes(&self) -> Trace
        ensures { result.accesses ≡ noted self.now };

    /// Copies the bytes from `addr` on into `out`, whatever they are by then.
    fn load(&mut self, addr: u64, out: &mut [u8])
        requires { addr + length out.old ≤ length (seen self.old) }
        ensures out { out.new ≡ answer self.old addr (length out.old) }
        ensures seen { seen self.new ≡ overwrite addr (answer self.old addr (length out.old)) (seen self.old) }
        ensures size { length (seen self.new) ≡ length (seen self.old) }
        ensures noted { noted self.new ≡ with_access shared (noted self.old) (Read addr (answer self.old addr (length out.old))) };

    /// Writes `source` over the bytes from `addr` on.
    fn store(&mut self, addr: u64, source: &[u8])
        requires { addr + length source.now ≤ length (seen self.old) }
        ensures seen { seen self.new ≡ overwrite addr source.now (seen self.old) }
        ensures size { length (seen self.new) ≡ length (seen self.old) }
        ensures noted { noted self.new ≡ with_access shared (noted self.old) (Wrote addr source.now) };

    /// The word at `addr`, lowest byte first.
    #[inline]
    #[tactic(auto, using(crate::proofs::Written::word_there, crate::proofs::Written::written_there))]
    fn load_word(&mut self, addr: u64) -> u64
        requires { addr + 8 ≤ length (seen self.old) }
        ensures value { result ≡ word_at addr (seen self.new) }
        ensures spelled { word_bytes result ≡ slice_range (seen self.new) addr (addr + 8) }
        ensures seen { seen self.new ≡ overwrite addr (answer self.old addr 8) (seen self.old) }
        ensures size { length (seen self.new) ≡ length (seen self.old) }
        ensures noted { noted self.new ≡ with_access shared (noted self.old) (Read addr (answer self.old addr 8)) }
    {
        let mut word = [0u8; 8];
        self.load(addr, &mut word);
        word_of(&word)
    }

    /// The two words from `addr` on, as of a descriptor of 16 bytes, read by one access.
    #[inline]
    #[tactic(auto, using(crate::proofs::Written::low_there, crate::proofs::Written::high_there, crate::proofs::Written::written_there))]
    fn load_words(&mut self, addr: u64) -> (u64, u64)
        requires { addr + 16 ≤ length (seen self.old) }
        ensures low { result.0 ≡ word_at addr (seen self.new) }
        ensures high { result.1 ≡ word_at (addr + 8) (seen self.new) }
        ensures both { two_words result.0 result.1 ≡ slice_range (seen self.new) addr (addr + 16) }
        ensures seen { seen self.new ≡ overwrite addr (answer self.old addr 16) (seen self.old) }
        ensures size { length (seen self.new) ≡ length (seen self.old) }
        ensures noted { noted self.new ≡ with_access shared (noted self.old) (Read addr (answer self.old addr 16)) }
    {
        let mut words = [0u8; 16];
        self.load(addr, &mut words);
        words_of(&words)
    }

    /// Writes a word at `addr`, lowest byte first, by one access.
    #[inline]
    fn store_word(&mut self, addr: u64, word: u64)
        requires { addr + 8 ≤ length (seen self.old) }
        ensures seen { seen self.new ≡ overwrite addr (word_bytes word) (seen self.old) }
        ensures size { length (seen self.new) ≡ length (seen self.old) }
        ensures noted { noted self.new ≡ with_access shared (noted self.old) (Wrote addr (word_bytes word)) }
    {
        self.store(addr, &bytes_of(word));
    }

    /// Writes two words from `addr` on, by one access.
    #[inline]
    fn store_words(&mut self, addr: u64, low: u64, high: u64)
        requires { addr + 16 ≤ length (seen self.old) }
        ensures seen { seen self.new ≡ overwrite addr (two_words low high) (seen self.old) }
        ensures size { length (seen self.new) ≡ length (seen self.old) }
        ensures noted { noted self.new ≡ with_access shared (noted self.old) (Wrote addr (two_words low high)) }
    {
        self.store(addr, &bytes_of_two(low, high));
    }

    /// Writes zero over every byte, as where a function is opened.
    fn erase(&mut self)
        ensures seen { seen self.new ≡ replicate (length (seen self.old)) 0 }
        ensures size { length (seen self.new) ≡ length (seen self.old) }
        ensures noted { noted self.new ≡ with_clearing shared (noted self.old) (length (seen self.old)) };
}
