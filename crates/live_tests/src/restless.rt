//! A memory whose bytes are others at every read.
ghost use Rattle.std.specs.Prelude.{◌≡◌, ◌≤◌, ◌++◌, [], ◌∷◌, true, length, replicate};
ghost use Rattle.std.proofs.lemmas.List.{length-replicate};
ghost use Rattle.std.proofs.lemmas.Bool.{true≢false};
ghost use Rattle.guest_memory.specs.Memory.{word_bytes, two_words};
ghost use Rattle.live_memory.specs.Clearing.{clearing};
ghost use Rattle.live_memory.specs.Trace.{Read, Wrote};

use crate::compare::assert_equal;
use live_memory::{Dma, Shared, Step, Trace, Traced};
use std::process::Abort;

/// All 4096 bytes are one more at every read, whatever is written.
#[derive(Drop)]
pub struct Restless {
    next: u8,
    known: [u8; 4096],
    noted: Trace,
}

impl Restless {
    /// A memory whose first read gives ones.
    pub fn new() -> Restless {
        Restless {
            next: 1,
            known: [0; 4096],
            noted: Step::Begin.trace(),
        }
    }
}

impl Dma<Shared> for Restless {
    ghost shared = { true };

    ghost seen = { λ m. m.known };

    ghost answer = { λ m at count. replicate count m.next };

    ghost noted = { λ m. m.noted.accesses };

    ghost whole = { λ m at count fits. length-replicate count m.next };

    ghost steady = { λ m at count not. absurd (true≢false not) };

    fn extent(&self) -> u64 {
        self.known.len() as u64
    }

    fn notes(&self) -> Trace {
        Step::Rests(&self.noted).trace()
    }

    fn load(&mut self, addr: u64, out: &mut [u8]) {
        out.fill(self.next);
        self.next = self.next.wrapping_add(1);
        let start = addr as usize;
        let end = start + out.len();
        self.known[start..end].copy_from_slice(out);
        self.noted = Step::Reads(&self.noted, addr, out).trace();
    }

    fn store(&mut self, addr: u64, source: &[u8]) {
        let start = addr as usize;
        let end = start + source.len();
        self.known[start..end].copy_from_slice(source);
        self.noted = Step::Writes(&self.noted, addr, source).trace();
    }

    fn erase(&mut self) {
        let size = self.extent();
        self.noted = Step::Clears(&self.noted, size).trace();
        self.known.fill(0);
    }
}

// One write of each kind: each is one access, also where its bytes stand in two parts. To clear the memory is one.
fn each_write<D: Dma<K>, K>(memory: &mut Traced<D, K>)
    requires { 64 ≤ length (D.seen memory.old.memory) }
    ensures listed { memory.new.accesses ≡ ((((memory.old.accesses
        ++ clearing (length (D.seen memory.old.memory)))
        ++ Wrote 8 (word_bytes 5) ∷ []) ++ Wrote 16 (two_words 6 7) ∷ [])
        ++ Wrote 62 (8 ∷ 9 ∷ []) ∷ []) ++ Wrote 32 (1 ∷ 2 ∷ 3 ∷ []) ∷ [] }
    ensures size { length (D.seen memory.new.memory) ≡ length (D.seen memory.old.memory) }
{
    memory.erase();
    memory.store_word(8, 5);
    memory.store_words(16, 6, 7);
    memory.store(62, &[8, 9]);
    memory.store_parts(32, &[1, 2], &[3]);
}

// What one read of each kind gives: each is one access, with the bytes that it gave.
fn each_read<D: Dma<K>, K>(memory: &mut Traced<D, K>) -> ([u8; 2], u64, (u64, u64))
    requires { 64 ≤ length (D.seen memory.old.memory) }
    ensures listed { memory.new.accesses ≡ ((memory.old.accesses
        ++ Read 62 result.0 ∷ []) ++ Read 8 (word_bytes result.1) ∷ [])
        ++ Read 16 (two_words result.2.0 result.2.1) ∷ [] }
    ensures size { length (D.seen memory.new.memory) ≡ length (D.seen memory.old.memory) }
{
    let mut bytes = [0u8; 2];
    memory.load(62, &mut bytes);
    let word = memory.load_word(8);
    let words = memory.load_words(16);
    (bytes, word, words)
}

// What one of each call gives, of whatever memory: no access is left out between the writes and the reads.
fn each_call<D: Dma<K>, K>(memory: &mut Traced<D, K>) -> ([u8; 2], u64, (u64, u64))
    requires { 64 ≤ length (D.seen memory.old.memory) }
    ensures listed { memory.new.accesses ≡ (((((((memory.old.accesses
        ++ clearing (length (D.seen memory.old.memory)))
        ++ Wrote 8 (word_bytes 5) ∷ []) ++ Wrote 16 (two_words 6 7) ∷ [])
        ++ Wrote 62 (8 ∷ 9 ∷ []) ∷ []) ++ Wrote 32 (1 ∷ 2 ∷ 3 ∷ []) ∷ [])
        ++ Read 62 result.0 ∷ []) ++ Read 8 (word_bytes result.1) ∷ [])
        ++ Read 16 (two_words result.2.0 result.2.1) ∷ [] }
    ensures size { length (D.seen memory.new.memory) ≡ length (D.seen memory.old.memory) }
{
    each_write(memory);
    each_read(memory)
}

#[test]
fn gives_what_stands_there_at_each_read(rt: HostRuntime) {
    let mut memory = Traced::new(Restless::new());
    let ones = 0x0202_0202_0202_0202;
    let twos = 0x0303_0303_0303_0303;
    let due = ([1, 1], ones, (twos, twos));
    assert_equal(&rt, each_call(&mut memory), due);
}
