//! A memory that changes after each access, and keeps in a log what was read and written.
ghost use Rattle.std.specs.Prelude.{◌≡◌, ◌+◌, true, length, slice_range};
ghost use Rattle.std.proofs.lemmas.Bool.{true≢false};
ghost use Rattle.live_tests.specs.Watched.{length_standing};

use super::log::Log;
use live_memory::{Dma, Shared, Step, Trace};
use std::alloc::{AllocError, Global};
use std::cell::RefCell;
use std::rc::Rc;

// What a guest does to its memory.
pub trait Guest: Drop {
    // It writes what it likes, between two accesses of a device.
    fn write(&mut self, cells: &mut [u8]);

    // It sees bytes that a device wrote from an address on.
    fn see(&mut self, at: usize, bytes: &[u8]);

    // It sees zero at every byte.
    fn see_zeros(&mut self);
}

// A memory whose guest writes it after each access. So a read gives what the guest left there.
#[derive(Drop)]
pub struct Watched<G: Guest> {
    standing: Vec<u8>,
    known: Vec<u8>,
    guest: G,
    log: Rc<RefCell<Log>>,
    noted: Trace,
    ghost long: { length standing.items ≡ length known.items },
}

impl<G: Guest> Watched<G> {
    // A memory of so many zero bytes.
    pub fn new(
        alloc: Global,
        size: usize,
        guest: G,
        log: Rc<RefCell<Log>>,
    ) -> Result<Watched<G>, AllocError> {
        let (mut standing, mut known) = (Vec::new(alloc), Vec::new(alloc));
        standing.resize(size, 0)?;
        known.resize(size, 0)?;
        Ok(Watched {
            standing,
            known,
            guest,
            log,
            noted: Step::Begin.trace(),
        })
    }
}

// Notes an access, unless the log is lent.
fn note(log: &Rc<RefCell<Log>>, is_read: bool, at: u64, bytes: &[u8]) {
    if let Ok(mut log) = log.try_borrow_mut() {
        log.add(is_read, at, bytes);
    }
}

impl<G: Guest> Dma<Shared> for Watched<G> {
    ghost shared = { true };

    ghost seen = { λ m. m.known.items };

    ghost answer = { λ m at count. slice_range m.standing.items at (at + count) };

    ghost noted = { λ m. m.noted.accesses };

    ghost whole = { λ m at count fits. length_standing at count m.standing.items m.known.items m.long fits };

    ghost steady = { λ m at count not. absurd (true≢false not) };

    fn extent(&self) -> u64 {
        self.known.len() as u64
    }

    fn notes(&self) -> Trace {
        Step::Rests(&self.noted).trace()
    }

    fn load(&mut self, addr: u64, out: &mut [u8]) {
        let start = addr as usize;
        let end = start + out.len();
        out.copy_from_slice(&self.standing.as_slice()[start..end]);
        self.known.as_mut_slice()[start..end].copy_from_slice(out);
        note(&self.log, true, addr, out);
        self.guest.write(self.standing.as_mut_slice());
        self.noted = Step::Reads(&self.noted, addr, out).trace();
    }

    fn store(&mut self, addr: u64, source: &[u8]) {
        let start = addr as usize;
        let end = start + source.len();
        self.standing.as_mut_slice()[start..end].copy_from_slice(source);
        self.known.as_mut_slice()[start..end].copy_from_slice(source);
        note(&self.log, false, addr, source);
        self.guest.see(start, source);
        self.guest.write(self.standing.as_mut_slice());
        self.noted = Step::Writes(&self.noted, addr, source).trace();
    }

    fn erase(&mut self) {
        self.standing.as_mut_slice().fill(0);
        self.known.as_mut_slice().fill(0);
        note(&self.log, false, 0, self.standing.as_slice());
        self.noted = Step::Clears(&self.noted, self.known.len() as u64).trace();
        self.guest.see_zeros();
    }
}
