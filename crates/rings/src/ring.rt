//! The ring and its registers.
ghost use Rattle.std.specs.Prelude.{◌≡◌, ℕ, ◌+◌, ◌*◌, ◌%◌, ◌^◌, ◌<◌, ◌≤◌, true, false, length, slice_index, IfSome, IfNone};
ghost use Rattle.rings.specs.Ring.{no_ring, owned, head_slot, head_after, enabled_in, turned, ring_word, tail_written, ring_written, IsRing, LiesInside};

use std::marker::Model;

/// The bits of a low base that a write keeps: a ring begins at a multiple of 128 bytes.
const BASE_LOW_KEPT: u32 = 0xFFFF_FF80;
/// The bits of a length in bytes that a write keeps: whole descriptors, eight at a time.
const LENGTH_KEPT: u32 = 0x000F_FF80;

/// A register of a ring (82599 datasheet, RDBAL, RDBAH, RDLEN, RDH and RDT, and the same of transmit rings).
#[derive(Clone, Copy, Debug, PartialEq, Eq)]
pub enum RingRegister {
    /// The low half of the address where the descriptors begin.
    BaseLow,
    /// The high half of it.
    BaseHigh,
    /// The length of the ring in bytes.
    Length,
    /// The descriptor that the device takes next.
    Head,
    /// The first descriptor that the device does not own.
    Tail,
}

/// A ring of descriptors. One that is on is valid.
#[derive(Debug, Drop)]
pub struct Ring {
    base: u64,
    count: u16,
    head: u32,
    tail: u32,
    enabled: bool,
}

impl Model for Ring {
    ghost use Rattle.rings.specs.Ring.{RingState, IsRing};

    ghost Value = { RingState };

    ghost view = { λ r. record {
      base = r.base;
      count = r.count;
      head = r.head;
      tail = r.tail;
      enabled = r.enabled;
    } };

    ghost invariant = { λ r. IsRing
        (record {
          base = r.base;
          count = r.count;
          head = r.head;
          tail = r.tail;
          enabled = r.enabled;
        }) };
}

impl Default for Ring {
    ghost is_default = { λ r. r ≡ no_ring };

    /// A ring that is off, with nothing set.
    fn default() -> Ring {
        Ring::new()
    }
}

impl Ring {
    /// A ring that is off, with nothing set.
    pub fn new() -> Ring
        ensures { result ≡ no_ring }
    {
        Ring {
            base: 0,
            count: 0,
            head: 0,
            tail: 0,
            enabled: false,
        }
    }

    /// Whether the ring is on.
    #[inline]
    pub fn is_enabled(&self) -> bool
        ensures value { result ≡ self.now.enabled }
        ensures valid { IsRing self.now }
    {
        self.enabled
    }

    /// How many descriptors the device owns, 0 while off.
    #[inline]
    pub fn available(&self) -> u32
        ensures { result ≡ length (owned self.now) }
    {
        if !self.enabled {
            return 0;
        }
        wrap(
            self.tail + u32::from(self.count) - self.head,
            u32::from(self.count),
        )
    }

    /// The address of the owned descriptor at `i`.
    #[inline]
    pub fn slot(&self, i: u32) -> u64
        requires { i < length (owned self.now) }
        ensures value { result ≡ self.now.base + 16 * slice_index (owned self.now) i }
        ensures on { self.now.enabled ≡ true }
        ensures inside { result + 16 ≤ self.now.base + 16 * self.now.count }
    {
        let place = wrap(self.head + i, u32::from(self.count));
        self.base + 16 * u64::from(place)
    }

    /// The address of the descriptor at the head, where the device owns it.
    #[inline]
    pub fn head_slot(&self) -> Option<u64>
        ensures value { result ≡ head_slot self.now }
        ensures inside { IfSome result (λ a. a + 16 ≤ self.now.base + 16 * self.now.count) }
        ensures fits { IfSome result (λ a. a + 16 < 2 ^ 64) }
        ensures on { IfSome result (λ a. self.now.enabled ≡ true) }
        ensures owned { IfSome result (λ a. 1 ≤ length (owned self.now)) }
        ensures first { IfSome result
            (λ a. a ≡ self.now.base + 16 * slice_index (owned self.now) 0) }
        ensures none { IfNone result (length (owned self.now) ≡ 0) }
    {
        if !self.enabled || self.head == self.tail {
            return None;
        }
        Some(self.base + 16 * u64::from(self.head))
    }

    /// Gives the first `k` owned descriptors back to the guest.
    #[inline]
    pub fn advance(&mut self, k: u32)
        requires { k ≤ length (owned self.old) }
        ensures { self.new ≡ record self.old { head = head_after k self.old } }
    {
        if self.enabled {
            self.head = wrap(self.head + k, u32::from(self.count));
        }
    }

    /// Turns the ring on where it can be on in a memory of `memory_size` bytes, and tells whether it is on.
    pub fn try_enable(&mut self, memory_size: u64) -> bool
        ensures after { self.new ≡ enabled_in memory_size self.old }
        ensures value { result ≡ self.new.enabled }
    {
        if !self.enabled {
            self.enabled = self.count >= 8
                && self.count <= 4096
                && self.head < u32::from(self.count)
                && self.tail < u32::from(self.count)
                && self.base <= memory_size
                && 16 * u64::from(self.count) <= memory_size - self.base;
        }
        self.enabled
    }

    /// Turns the ring off. Head and tail stay.
    pub fn disable(&mut self)
        ensures { self.new ≡ record self.old { enabled = false } }
    {
        self.enabled = false;
    }

    /// Turns the ring on or off. One that is off goes on only where it `may`, and can be on in a memory of
    /// `memory_size` bytes.
    pub fn switch(&mut self, on: bool, may: bool, memory_size: u64)
        ensures value { self.new ≡ turned on may memory_size self.old }
        ensures inside { LiesInside memory_size self.old → LiesInside memory_size self.new }
    {
        if !on {
            self.disable();
        } else if may {
            self.try_enable(memory_size);
        }
    }

    /// What a register of the ring reads.
    pub fn read(&self, register: RingRegister) -> u32
        ensures { result ≡ ring_word self.now register }
    {
        match register {
            RingRegister::BaseLow => (self.base % 4_294_967_296) as u32,
            RingRegister::BaseHigh => (self.base / 4_294_967_296) as u32,
            RingRegister::Length => 16 * u32::from(self.count),
            RingRegister::Head => self.head,
            RingRegister::Tail => self.tail,
        }
    }

    /// Writes the tail. While the ring is on, only the number of one of its descriptors is taken.
    #[inline]
    pub fn set_tail(&mut self, x: u32)
        ensures { self.new ≡ tail_written self.old x }
    {
        let tail = x % 65_536;
        if !self.enabled || tail < u32::from(self.count) {
            self.tail = tail;
        }
    }

    /// Writes a register of the ring. While the ring is on, all but the tail stay.
    #[tactic(auto, unfolding(crate::specs::Ring::ring_written))]
    pub fn write(&mut self, register: RingRegister, x: u32)
        ensures value { self.new ≡ ring_written self.old register x }
        ensures inside { (n : ℕ) → LiesInside n self.old → LiesInside n self.new }
        ensures same { self.new.enabled ≡ self.old.enabled }
    {
        if register == RingRegister::Tail {
            self.set_tail(x);
        } else if !self.enabled {
            self.write_while_off(register, x);
        }
    }

    // Writes a register of a ring that is off.
    #[tactic(auto, unfolding(crate::specs::Ring::ring_written))]
    fn write_while_off(&mut self, register: RingRegister, x: u32)
        requires { self.old.enabled ≡ false }
        ensures value { self.new ≡ ring_written self.old register x }
        ensures off { self.new.enabled ≡ false }
    {
        match register {
            RingRegister::BaseLow => {
                self.base = self.base / 4_294_967_296 * 4_294_967_296
                    + u64::from(x & BASE_LOW_KEPT);
            }
            RingRegister::BaseHigh => {
                self.base = u64::from(x) * 4_294_967_296 + self.base % 4_294_967_296;
            }
            RingRegister::Length => self.count = ((x & LENGTH_KEPT) / 16) as u16,
            RingRegister::Head => self.head = x % 65_536,
            RingRegister::Tail => self.tail = x % 65_536,
        }
    }
}

// A place of a ring of `count`, for a number less than one round past its end.
#[inline]
fn wrap(place: u32, count: u32) -> u32
    requires { place < count + count }
    ensures { result ≡ place % count }
{
    if place >= count { place - count } else { place }
}
