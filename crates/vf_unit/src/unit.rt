//! A virtual function, closed or open.
ghost use Rattle.std.specs.Prelude.{◌≡◌, ℕ, [], ◌++◌, length, Some, None, IfOk, if◌then◌else◌};
ghost use Rattle.std.specs.Option.{option_map};
ghost use Rattle.tx_desc.specs.Lent.{fetched_in};
ghost use Rattle.vf_unit.specs.Guests.{over, moved_to, IsFormer};
ghost use Rattle.vf_unit.specs.Unit.{Closed, IsMet, IsCounted, met_function, size_of, counts_of, is_open, other_raised, interval_of, opened, opening_accesses, ended, reset, read_of, after_read_of, written, given, serviced, service_outcome, lent_to, one_more_sent, one_more_refused, has_range, bytes_at, memory_written, given_accesses, service_accesses, load_accesses, store_accesses};

use crate::counts::Counts;
use crate::intervals::Vector;
use crate::open::{OpenVf, Service};
use crate::registers::Queue;
use guest_memory::GuestMem;
use irq_causes::Vectors;
use live_memory::{Alone, Dma, Traced};
use offload::Offloads;
use std::alloc::{AllocError, Global};
use std::marker::Model;
use wire_frame::{Frame, FrameBuf, FrameLimit, PortVlan};

/// A virtual function, closed or open. Each call says what it does to one that is open; a closed one stays as it is.
#[derive(Drop)]
pub struct VfUnit<D: Dma<K>, K = Alone> {
    is_open: bool,
    inner: OpenVf<D, K>,
}

impl<D: Dma<K>, K> Model for VfUnit<D, K> {
    ghost use Rattle.std.specs.Prelude.{length, if◌then◌else◌};
    ghost use Rattle.vf_unit.specs.Unit.{TracedFunction, Closed, Open};

    ghost Value = { TracedFunction };

    ghost view = { λ u. record {
      function = if u.is_open then Open u.inner.state else Closed (length u.inner.state.memory);
      accesses = u.inner.accesses;
    } };
}

impl<D: Dma<K>, K> VfUnit<D, K> {
    /// A closed function over this memory, with the room that its frames are gathered in. The memory isn't touched: the accesses are
    /// those that it noted itself, none where it is new.
    pub fn new(alloc: Global, memory: D) -> Result<VfUnit<D, K>, AllocError>
        ensures { IfOk result
            (λ u. u ≡ record { function = Closed (length (D.seen memory)); accesses = D.noted memory }) }
    {
        let inner = OpenVf::new(alloc, memory)?;
        Ok(VfUnit {
            is_open: false,
            inner,
        })
    }

    /// Whether it is open.
    #[inline]
    pub fn is_open(&self) -> bool
        ensures { result ≡ is_open self.now.function }
    {
        self.is_open
    }

    /// All that it has counted since it was opened, its guest came or it was reset; nothing of a closed one.
    pub fn counts(&self) -> Counts
        ensures { result ≡ counts_of self.now.function }
    {
        if self.is_open {
            self.inner.counts()
        } else {
            Counts::none()
        }
    }

    /// The size of its memory, in bytes.
    #[inline]
    pub fn memory_size(&self) -> u64
        ensures { result ≡ size_of self.now.function }
    {
        self.inner.memory_size()
    }

    /// Opens it: every register is initial and every byte of the memory zero, whatever it was. It has no offloads.
    pub fn open(&mut self)
        ensures function { self.new.function ≡ opened self.old.function }
        ensures size { size_of self.new.function ≡ size_of self.old.function }
        ensures listed { self.new.accesses ≡ self.old.accesses ++ opening_accesses self.old.function }
    {
        self.inner.reopen();
        self.is_open = true;
    }

    /// Closes it.
    pub fn end(&mut self)
        ensures function { self.new.function ≡ ended self.old.function }
        ensures size { size_of self.new.function ≡ size_of self.old.function }
        ensures accesses { self.new.accesses ≡ self.old.accesses }
    {
        self.is_open = false;
    }

    /// Takes another memory in place of its own, which it hands out with its list. It is closed then, or open with every register initial
    /// and the offloads of `opening`. Neither memory is accessed.
    pub fn exchange(&mut self, memory: D, opening: Option<Offloads>) -> Traced<D, K>
        ensures function { self.new.function ≡ over opening (D.seen memory) }
        ensures accesses { self.new.accesses ≡ D.noted memory }
        ensures former { IsFormer self.old.function (D.seen result.memory) }
        ensures size { length (D.seen result.memory) ≡ size_of self.old.function }
        ensures listed { result.accesses ≡ self.old.accesses }
    {
        self.is_open = opening.is_some();
        self.inner
            .exchange(memory, opening.unwrap_or(Offloads::none()))
    }

    /// Takes another memory of as many bytes in place of its own, which it hands out with its list. Nothing else changes, and neither
    /// memory is accessed.
    pub fn replace_memory(&mut self, memory: D) -> Traced<D, K>
        requires { length (D.seen memory) ≡ size_of self.old.function }
        ensures function { self.new.function ≡ moved_to self.old.function (D.seen memory) }
        ensures accesses { self.new.accesses ≡ D.noted memory }
        ensures former { IsFormer self.old.function (D.seen result.memory) }
        ensures size { length (D.seen result.memory) ≡ size_of self.old.function }
        ensures listed { result.accesses ≡ self.old.accesses }
    {
        self.inner.replace_memory(memory)
    }

    /// Makes every register initial (SR-IOV 1.1, function-level reset). The memory and the offloads stay.
    pub fn reset(&mut self)
        ensures function { self.new.function ≡ reset self.old.function }
        ensures size { size_of self.new.function ≡ size_of self.old.function }
        ensures accesses { self.new.accesses ≡ self.old.accesses }
    {
        if self.is_open {
            self.inner.reset();
        }
    }

    /// Reads the register at an offset. An offset outside the map reads 0.
    #[tactic(auto, unfolding(crate::specs::Unit::read_of, crate::specs::Unit::after_read_of))]
    pub fn reg_read(&mut self, offset: u32) -> Option<u32>
        ensures value { result ≡ read_of self.old.function offset }
        ensures function { self.new.function ≡ after_read_of self.old.function offset }
        ensures size { size_of self.new.function ≡ size_of self.old.function }
        ensures accesses { self.new.accesses ≡ self.old.accesses }
    {
        if self.is_open {
            Some(self.inner.reg_read(offset))
        } else {
            None
        }
    }

    /// Writes the register at an offset; the messages that this issues. A write to an offset outside the map is ignored.
    pub fn reg_write(&mut self, offset: u32, x: u32) -> Option<Vectors>
        ensures function { self.new.function ≡ (written self.old.function offset x).state }
        ensures messages { result
            ≡ (if is_open self.old.function then Some (written self.old.function offset x).messages else None) }
        ensures size { size_of self.new.function ≡ size_of self.old.function }
        ensures accesses { self.new.accesses ≡ self.old.accesses }
    {
        if self.is_open {
            Some(self.inner.reg_write(offset, x))
        } else {
            None
        }
    }

    /// Raises the cause "other", by which a host tells the driver that there is something to look at; the messages that this issues
    /// (82599 datasheet, VTIVAR_MISC).
    pub fn raise_other(&mut self) -> Vectors
        ensures function { self.new.function ≡ (other_raised self.old.function).state }
        ensures messages { result ≡ (other_raised self.old.function).messages }
        ensures size { size_of self.new.function ≡ size_of self.old.function }
        ensures accesses { self.new.accesses ≡ self.old.accesses }
    {
        if self.is_open {
            self.inner.raise_other()
        } else {
            Vectors::none()
        }
    }

    /// How many microseconds apart the messages of a vector are to be at least, 0 to 1022; 0 of a closed one.
    #[inline]
    pub fn interval(&self, vector: Vector) -> u16
        ensures { result ≡ interval_of self.now.function vector }
    {
        if self.is_open {
            self.inner.interval(vector)
        } else {
            0
        }
    }

    /// Places a frame in receive queue 0; the messages that this issues. `loopback` says that another pool sent it. Others may
    /// write the memory meanwhile: it is done to the function that was met.
    #[inline]
    #[tactic(auto, unfolding(crate::specs::Unit::told_of))]
    pub fn deliver_live(&mut self, frame: Frame<'_>, loopback: bool) -> Vectors
        ensures function { self.new.function
            ≡ (given loopback frame.entry.bytes.now
            (met_function self.old self.new)).state }
        ensures messages { result
            ≡ (given loopback frame.entry.bytes.now
            (met_function self.old self.new)).messages }
        ensures size { size_of self.new.function ≡ size_of self.old.function }
        ensures counted { IsCounted self.old.function self.new.function }
        ensures listed { self.new.accesses ≡ self.old.accesses
            ++ given_accesses loopback frame.entry.bytes.now (met_function self.old self.new) }
        ensures met { IsMet D.shared self.old.function self.old.accesses self.new.accesses }
    {
        if self.is_open {
            self.inner.deliver(frame, loopback)
        } else {
            Vectors::none()
        }
    }

    /// Takes the descriptor at the head of a transmit queue, under the port's VLAN rule and the limit on frames. A frame
    /// that ends with it is left in `frame`, which else stays as it was. Others may write the memory meanwhile: it is done to the
    /// function that was met.
    #[tactic(auto, unfolding(crate::specs::Unit::told_of))]
    pub fn serve_live(
        &mut self,
        queue: Queue,
        frame: &mut FrameBuf,
        rule: PortVlan,
        limit: FrameLimit,
    ) -> Option<Service>
        ensures function { self.new.function
            ≡ (serviced limit rule
            (met_function self.old self.new) queue).state }
        ensures outcome { option_map (λ s. fetched_in s.outcome frame.new) result
            ≡ service_outcome limit rule
            (met_function self.old self.new) queue }
        ensures frame { frame.new
            ≡ lent_to
            (service_outcome limit rule
            (met_function self.old self.new) queue) frame.old }
        ensures messages { option_map (λ s. s.messages) result
            ≡ (if is_open self.old.function then Some
            (serviced limit rule
            (met_function self.old self.new) queue).messages
            else None) }
        ensures size { size_of self.new.function ≡ size_of self.old.function }
        ensures listed { self.new.accesses ≡ self.old.accesses
            ++ service_accesses limit rule (met_function self.old self.new) queue }
        ensures met { IsMet D.shared self.old.function self.old.accesses self.new.accesses }
    {
        if self.is_open {
            Some(self.inner.serve(queue, frame, rule, limit))
        } else {
            None
        }
    }

    /// Counts one more frame sent, modulo 2^32.
    pub fn sent(&mut self)
        ensures function { self.new.function ≡ one_more_sent self.old.function }
        ensures size { size_of self.new.function ≡ size_of self.old.function }
        ensures accesses { self.new.accesses ≡ self.old.accesses }
    {
        if self.is_open {
            self.inner.sent();
        }
    }

    /// Counts one more frame that the sender's check refused, modulo 2^32.
    pub fn refused(&mut self)
        ensures function { self.new.function ≡ one_more_refused self.old.function }
        ensures size { size_of self.new.function ≡ size_of self.old.function }
        ensures accesses { self.new.accesses ≡ self.old.accesses }
    {
        if self.is_open {
            self.inner.refused();
        }
    }

    /// Reads bytes of the memory into `out`, where it is open and they lie inside; tells whether it did. Others may
    /// write the memory meanwhile.
    #[tactic(auto, unfolding(crate::specs::Unit::bytes_at, crate::specs::Unit::told_of), using(crate::proofs::Told::told_still))]
    pub fn mem_load(&mut self, at: u64, out: &mut [u8]) -> bool
        ensures done { result ≡ has_range self.old.function at (length out.old) }
        ensures function { self.new.function ≡ met_function self.old self.new }
        ensures bytes { out.new ≡ bytes_at self.new.function at out.old }
        ensures listed { self.new.accesses ≡ self.old.accesses
            ++ load_accesses (met_function self.old self.new) at (length out.old) }
        ensures met { IsMet D.shared self.old.function self.old.accesses self.new.accesses }
    {
        let len = out.len() as u64;
        let size = self.inner.memory_size();
        if !self.is_open || len > size || at > size - len {
            return false;
        }
        self.inner.mem_load(at, out);
        true
    }

    /// Writes bytes of the memory, where it is open and they lie inside; tells whether it did.
    #[tactic(auto, unfolding(crate::specs::Unit::memory_written))]
    pub fn mem_write(&mut self, at: u64, source: &[u8]) -> bool
        ensures done { result ≡ has_range self.old.function at (length source.now) }
        ensures function { self.new.function ≡ memory_written self.old.function at source.now }
        ensures listed { self.new.accesses ≡ self.old.accesses
            ++ store_accesses self.old.function at source.now }
        ensures size { size_of self.new.function ≡ size_of self.old.function }
    {
        let len = source.len() as u64;
        let size = self.inner.memory_size();
        if !self.is_open || len > size || at > size - len {
            return false;
        }
        self.inner.mem_write(at, source);
        true
    }
}

impl<M: GuestMem> VfUnit<M> {
    /// Places a frame in receive queue 0; the messages that this issues. `loopback` says that another pool sent it.
    #[inline]
    #[tactic(auto, using(crate::proofs::Told::met_alone))]
    pub fn deliver_frame(&mut self, frame: Frame<'_>, loopback: bool) -> Vectors
        ensures function { self.new.function
            ≡ (given loopback frame.entry.bytes.now self.old.function).state }
        ensures messages { result ≡ (given loopback frame.entry.bytes.now self.old.function).messages }
        ensures counted { IsCounted self.old.function self.new.function }
        ensures size { size_of self.new.function ≡ size_of self.old.function }
    {
        self.deliver_live(frame, loopback)
    }

    /// The same of a frame that holds its bytes itself.
    #[inline]
    pub fn deliver(&mut self, frame: &FrameBuf, loopback: bool) -> Vectors
        ensures function { self.new.function ≡ (given loopback frame.now self.old.function).state }
        ensures messages { result ≡ (given loopback frame.now self.old.function).messages }
        ensures counted { IsCounted self.old.function self.new.function }
        ensures size { size_of self.new.function ≡ size_of self.old.function }
    {
        self.deliver_frame(frame.as_frame(), loopback)
    }

    /// Takes the descriptor at the head of a transmit queue, under the port's VLAN rule and the limit on frames. A frame
    /// that ends with it is left in `frame`, which else stays as it was.
    #[tactic(auto, using(crate::proofs::Told::met_alone))]
    pub fn serve(
        &mut self,
        queue: Queue,
        frame: &mut FrameBuf,
        rule: PortVlan,
        limit: FrameLimit,
    ) -> Option<Service>
        ensures function { self.new.function ≡ (serviced limit rule self.old.function queue).state }
        ensures outcome { option_map (λ s. fetched_in s.outcome frame.new) result
            ≡ service_outcome limit rule self.old.function queue }
        ensures frame { frame.new ≡ lent_to (service_outcome limit rule self.old.function queue) frame.old }
        ensures messages { option_map (λ s. s.messages) result
            ≡ (if is_open self.old.function then Some (serviced limit rule self.old.function queue).messages
            else None) }
        ensures size { size_of self.new.function ≡ size_of self.old.function }
    {
        self.serve_live(queue, frame, rule, limit)
    }

    /// Copies bytes of the memory into `out`, where it is open and they lie inside; tells whether it did.
    #[tactic(auto, unfolding(crate::specs::Unit::bytes_at))]
    pub fn mem_read(&self, at: u64, out: &mut [u8]) -> bool
        ensures done { result ≡ has_range self.now.function at (length out.old) }
        ensures bytes { out.new ≡ bytes_at self.now.function at out.old }
    {
        let len = out.len() as u64;
        let size = self.inner.memory_size();
        if !self.is_open || len > size || at > size - len {
            return false;
        }
        self.inner.mem_read(at, out);
        true
    }
}
