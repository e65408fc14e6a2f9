//! A receive and a transmit queue, as their registers see them.
ghost use Rattle.std.specs.Prelude.{◌≡◌, ℕ, Bool, ◌+◌, ◌^◌, ◌++◌, length, IfOk, if◌then◌else◌};
ghost use Rattle.live_memory.specs.Trace.{met, IsTraced};
ghost use Rattle.tx_desc.specs.Offloaded.{fetch_with};
ghost use Rattle.tx_desc.specs.OffloadedAccesses.{fetch_with_accesses};
ghost use Rattle.tx_desc.specs.Misuses.{misuse_at};
ghost use Rattle.tx_desc.specs.Serves.{Serves};
ghost use Rattle.rings.specs.Ring.{LiesInside, ring_written};
ghost use Rattle.vf_unit.specs.Words.{VME};
ghost use Rattle.vf_unit.specs.Function.{initial_receive, initial_transmit, is_legacy as is_legacy_of, has_size as has_size_of, IsReceiving};
ghost use Rattle.vf_unit.specs.Access.{enable_word, buffers_written, receive_switched, transmit_switched};

use crate::offsets::{
    ADVANCED, BUFFER_SIZES, DESCTYPE, ENABLE, LEAST_BUFFER, LEGACY, MOST_BUFFER, SRRCTL_KEPT, VME,
};
use live_memory::{Dma, Traced};
use rings::{Ring, RingRegister};
use std::alloc::{AllocError, Global};
use tx_desc::{Sending, Terms, Turn, fetch_with_offloads};
use wire_frame::{FrameBuf, has_bit};

/// What RXDCTL and TXDCTL read where the queue is on.
const ENABLED: u32 = 1 << ENABLE;
/// What RXDCTL reads where tags are stripped.
const STRIPPING: u32 = 1 << VME;
/// SRRCTL divided by this is the descriptor type.
const TYPE: u32 = 1 << DESCTYPE;

/// A receive queue.
#[derive(Drop)]
pub struct ReceiveQueue {
    /// Its ring.
    pub ring: Ring,
    /// What SRRCTL keeps: the buffer size in KiB in bits 4:0, the descriptor type in bits 27:25.
    pub buffers: u32,
    /// Whether VLAN tags are stripped.
    pub strips_tag: bool,
}

/// A transmit queue.
#[derive(Drop)]
pub struct TransmitQueue {
    /// Its ring.
    pub ring: Ring,
    /// What is being sent, and the contexts that its driver set.
    pub sending: Sending,
}

impl ReceiveQueue {
    /// A queue that is off, with nothing set.
    pub fn new() -> ReceiveQueue
        ensures { result ≡ initial_receive }
    {
        ReceiveQueue {
            ring: Ring::new(),
            buffers: 0,
            strips_tag: false,
        }
    }

    /// Turns the queue off and forgets what is set.
    pub fn reset(&mut self)
        ensures { self.new ≡ initial_receive }
    {
        self.ring = Ring::new();
        self.buffers = 0;
        self.strips_tag = false;
    }

    /// What RXDCTL reads.
    pub fn read_control(&self) -> u32
        ensures { result ≡ enable_word self.now.ring + (if self.now.strips_tag then 2 ^ VME else 0) }
    {
        let on = if self.ring.is_enabled() { ENABLED } else { 0 };
        let strips = if self.strips_tag { STRIPPING } else { 0 };
        on + strips
    }

    /// Whether its descriptors are legacy ones, where these are `taken`.
    #[inline]
    pub fn is_legacy(&self, taken: bool) -> bool
        ensures { result ≡ is_legacy_of taken self.now }
    {
        taken && self.buffers / TYPE == LEGACY
    }

    /// Whether its buffers have 1 to 16 KiB.
    #[inline]
    pub fn has_size(&self) -> bool
        ensures { result ≡ has_size_of self.now }
    {
        let size = self.buffers % BUFFER_SIZES;
        LEAST_BUFFER <= size && size <= MOST_BUFFER
    }

    /// Writes a register of the ring.
    pub fn write_ring(&mut self, register: RingRegister, x: u32)
        ensures value { self.new
            ≡ record self.old { ring = ring_written self.old.ring register x } }
        ensures kept { (legacy : Bool) (n : ℕ) → IsReceiving legacy n self.old
            → IsReceiving legacy n self.new }
    {
        self.ring.write(register, x);
    }

    /// Writes SRRCTL. A queue that is on ignores it, but where its descriptors are legacy ones and stay so: `legacy` is whether these are
    /// taken.
    pub fn write_buffers(&mut self, x: u32, legacy: bool)
        ensures value { self.new ≡ buffers_written legacy self.old x }
        ensures kept { (n : ℕ) → IsReceiving legacy n self.old → IsReceiving legacy n self.new }
    {
        let kept = x & SRRCTL_KEPT;
        let stays_legacy = self.is_legacy(legacy) && kept / TYPE == LEGACY;
        if !self.ring.is_enabled() || stays_legacy {
            self.buffers = kept;
        }
    }

    /// Writes RXDCTL, of a function with a memory of `memory_size` bytes. The queue goes on only where its ring can be on, and its
    /// descriptors are legacy ones, where these are taken (`legacy`), or advanced ones with buffers of 1 to 16 KiB.
    pub fn write_control(&mut self, x: u32, legacy: bool, memory_size: u64)
        ensures value { self.new ≡ receive_switched legacy memory_size self.old x }
        ensures kept { IsReceiving legacy memory_size self.old
            → IsReceiving legacy memory_size self.new }
    {
        let is_advanced = self.buffers / TYPE == ADVANCED;
        let may = self.is_legacy(legacy) || is_advanced && self.has_size();
        self.ring
            .switch(has_bit(u64::from(x), ENABLE), may, memory_size);
        self.strips_tag = has_bit(u64::from(x), VME);
    }
}

impl TransmitQueue {
    /// A queue that is off, with nothing set, and room for the frame that is being sent.
    pub fn new(alloc: Global) -> Result<TransmitQueue, AllocError>
        ensures { IfOk result (λ q. q ≡ initial_transmit) }
    {
        let sending = Sending::new(alloc)?;
        Ok(TransmitQueue {
            ring: Ring::new(),
            sending,
        })
    }

    /// Turns the queue off and forgets what is set and gathered.
    pub fn reset(&mut self)
        ensures { self.new ≡ initial_transmit }
    {
        self.ring = Ring::new();
        self.sending.clear();
    }

    /// What TXDCTL reads.
    pub fn read_control(&self) -> u32
        ensures { result ≡ enable_word self.now.ring }
    {
        if self.ring.is_enabled() { ENABLED } else { 0 }
    }

    /// Writes TXDCTL, of a function with a memory of `memory_size` bytes. A queue that goes off loses all that was being sent, and its contexts.
    pub fn write_control(&mut self, x: u32, memory_size: u64)
        ensures value { self.new ≡ transmit_switched memory_size self.old x }
        ensures inside { LiesInside memory_size self.old.ring
            → LiesInside memory_size self.new.ring }
    {
        let on = has_bit(u64::from(x), ENABLE);
        self.ring.switch(on, true, memory_size);
        if !on {
            self.sending.clear();
        }
    }

    /// Takes the descriptor at the head, or sends the next segment of the frame that ends with it.
    #[inline(always)]
    pub fn fetch<D: Dma<K>, K>(
        &mut self,
        memory: &mut Traced<D, K>,
        frame: &mut FrameBuf,
        terms: &Terms,
    ) -> Turn
        requires inside { LiesInside (length (D.seen memory.old.memory)) self.old.ring }
        ensures serves { Serves
            (fetch_with terms.now
            (met memory.old.accesses memory.new.accesses (D.seen memory.old.memory)) self.old.ring self.old.sending)
            result (D.seen memory.new.memory) self.new.ring self.new.sending frame.old frame.new }
        ensures misuse { result.misuse ≡ misuse_at terms.now
            (met memory.old.accesses memory.new.accesses (D.seen memory.old.memory)) self.old.ring self.old.sending }
        ensures listed { memory.new.accesses ≡ memory.old.accesses
            ++ fetch_with_accesses terms.now
            (met memory.old.accesses memory.new.accesses (D.seen memory.old.memory)) self.old.ring self.old.sending }
        ensures traced { IsTraced D.shared (D.seen memory.old.memory)
            memory.old.accesses memory.new.accesses }
        ensures size { length (D.seen memory.new.memory) ≡ length (D.seen memory.old.memory) }
        ensures inside { LiesInside (length (D.seen memory.new.memory)) self.new.ring }
    {
        fetch_with_offloads(memory, &mut self.ring, &mut self.sending, frame, terms)
    }
}
