//! A memory that nobody else writes, among those that others may write.
ghost use Rattle.std.specs.Prelude.{◌≡◌, ℕ, ◌+◌, ◌≤◌, Bool, false, List, [], length, replicate, slice_range};
ghost use Rattle.std.specs.Prelude.{refl};
ghost use Rattle.guest_memory.specs.Memory.{overwrite, word_at, word_bytes, two_words};
ghost use Rattle.live_memory.specs.Clearing.{with_clearing};
ghost use Rattle.live_memory.specs.Trace.{Access, Read, Wrote, with_access};
ghost use Rattle.live_memory.specs.Ranges.{range_whole};

use crate::dma::{Alone, Dma};
use crate::step::Step;
use crate::trace::Trace;
use guest_memory::GuestMem;

// What a memory that events alone touch answers is what stands there, and it notes no access.
impl<M: GuestMem> Dma<Alone> for M {
    ghost shared = { false };

    ghost seen = { λ m. M.bytes m };

    ghost answer = { λ m at count. slice_range (M.bytes m) at (at + count) };

    ghost noted = { λ m. [] };

    ghost whole = { λ m at count fits. range_whole at count (M.bytes m) fits };

    ghost steady = { λ m at count not. refl };

    #[inline]
    fn extent(&self) -> u64 {
        self.size()
    }

    #[inline]
    fn notes(&self) -> Trace {
        Step::Begin.trace()
    }

    #[inline]
    fn load(&mut self, addr: u64, out: &mut [u8]) {
        self.read_at(addr, out);
    }

    #[inline]
    fn store(&mut self, addr: u64, source: &[u8]) {
        self.write_at(addr, source);
    }

    #[inline]
    #[tactic(auto, using(crate::proofs::Written::same_written))]
    fn load_word(&mut self, addr: u64) -> u64 {
        self.read_word(addr)
    }

    #[inline]
    #[tactic(auto, using(crate::proofs::Written::same_written))]
    fn load_words(&mut self, addr: u64) -> (u64, u64) {
        self.read_words(addr)
    }

    #[inline]
    fn store_word(&mut self, addr: u64, word: u64) {
        self.write_word(addr, word);
    }

    #[inline]
    fn store_words(&mut self, addr: u64, low: u64, high: u64) {
        self.write_words(addr, low, high);
    }

    #[inline]
    fn erase(&mut self) {
        self.clear();
    }
}
