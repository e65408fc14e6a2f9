//! An open virtual function.
ghost use Rattle.std.specs.Prelude.{◌≡◌, ℕ, ◌+◌, ◌≤◌, ◌<◌, ◌^◌, ◌%◌, [], ◌∷◌, ◌++◌, length, slice_range, replicate, IfOk};
ghost use Rattle.wire_frame.specs.Bits.{field};
ghost use Rattle.guest_memory.specs.Memory.{overwrite};
ghost use Rattle.live_memory.specs.Clearing.{clearing};
ghost use Rattle.live_memory.specs.Trace.{Read, Wrote, IsTraced};
ghost use Rattle.rings.specs.Ring.{ring_written};
ghost use Rattle.tx_desc.specs.Lent.{fetched_in, lent_after};
ghost use Rattle.vf_unit.specs.Function.{State, initial, initial_with, receive_of, transmit_of, with_receive, with_transmit, with_fetching, misused_from, fetched_from, fetched_accesses, after_fetching, delivered, delivered_accesses, other_raised_in, told};
ghost use Rattle.vf_unit.specs.Counts.{sender_refused, lost_placing};
ghost use Rattle.vf_unit.specs.Intervals.{word_for, microseconds};
ghost use Rattle.vf_unit.specs.Unit.{Open, counts_of};
ghost use Rattle.vf_unit.specs.Access.{word, after_read, buffers_written, receive_switched, transmit_switched, interval_written, register_written, word_at_offset, after_read_at, written_at};

use crate::counts::{Counts, Losses, QueueFault};
use crate::intervals::{Intervals, Vector};
use crate::offsets::{
    BUFFER_SIZES, DROP_EN, LINK_UP, OTHER_VECTOR, RECEIVE_VECTOR_0, RST, TRANSMIT_VECTOR_0,
    TRANSMIT_VECTOR_1, VECTOR_SIZE, VTEITR_KEPT, VTIVAR_KEPT, VTIVAR_MISC_KEPT,
};
use crate::queues::{ReceiveQueue, TransmitQueue};
use crate::registers::{Queue, Register, register_of};
use guest_memory::GuestMem;
use irq_causes::{Causes, Vectors};
use live_memory::{Alone, Dma, Traced};
use offload::Offloads;
use rings::RingRegister;
use rx_desc::{Placed, RxConfig, RxFormat, place_in};
use std::alloc::{AllocError, Global};
use std::marker::Model;
use std::mem::replace;
use tx_desc::{Progress, Terms, Turn};
use wire_frame::{Frame, FrameBuf, FrameLimit, PortVlan, field, has_bit};

/// What SRRCTL always reads, beside what is kept of it.
const DROPS: u32 = 1 << DROP_EN;

/// What a service gave: what came of it, and the messages that it issued.
#[derive(Clone, Copy, Debug, PartialEq, Eq)]
pub struct Service {
    /// What came of it.
    pub outcome: Progress,
    /// The vectors whose messages were issued.
    pub messages: Vectors,
}

/// A virtual function that is open, over its memory.
#[derive(Drop)]
pub struct OpenVf<D: Dma<K>, K = Alone> {
    // what a frame that comes concerns stands side by side
    memory: Traced<D, K>,
    receive_0: ReceiveQueue,
    causes: Causes,
    queue_vectors: u32,
    frames_received: u32,
    frames_sent: u32,
    other_vector: u32,
    intervals: Intervals,
    receive_1: ReceiveQueue,
    transmit_0: TransmitQueue,
    transmit_1: TransmitQueue,
    // what the device does for its driver; no register changes it
    offloads: Offloads,
    shortfalls: u32,
    losses: Losses,
}

impl<D: Dma<K>, K> Model for OpenVf<D, K> {
    ghost use Rattle.vf_unit.specs.Function.{State, TracedState, IsTied};

    ghost Value = { TracedState };

    ghost view = { λ f. record {
      state = record {
        memory = D.seen f.memory.memory;
        receive_0 = f.receive_0;
        receive_1 = f.receive_1;
        transmit_0 = f.transmit_0;
        transmit_1 = f.transmit_1;
        causes = f.causes;
        queue_vectors = f.queue_vectors;
        other_vector = f.other_vector;
        intervals = f.intervals;
        frames_received = f.frames_received;
        frames_sent = f.frames_sent;
        offloads = f.offloads;
        shortfalls = f.shortfalls;
        losses = f.losses;
      };
      accesses = f.memory.accesses;
    } };

    ghost invariant = { λ f. IsTied
        (record {
          memory = D.seen f.memory.memory;
          receive_0 = f.receive_0;
          receive_1 = f.receive_1;
          transmit_0 = f.transmit_0;
          transmit_1 = f.transmit_1;
          causes = f.causes;
          queue_vectors = f.queue_vectors;
          other_vector = f.other_vector;
          intervals = f.intervals;
          frames_received = f.frames_received;
          frames_sent = f.frames_sent;
          offloads = f.offloads;
          shortfalls = f.shortfalls;
          losses = f.losses;
        }) };
}

impl<D: Dma<K>, K> OpenVf<D, K> {
    /// A function over this memory, with every register initial and no offloads.
    pub fn new(alloc: Global, memory: D) -> Result<OpenVf<D, K>, AllocError>
        ensures state { IfOk result (λ f. f.state ≡ initial (D.seen memory)) }
        ensures noted { IfOk result (λ f. f.accesses ≡ D.noted memory) }
    {
        let transmit_0 = TransmitQueue::new(alloc)?;
        let transmit_1 = TransmitQueue::new(alloc)?;
        Ok(OpenVf {
            memory: Traced::new(memory),
            receive_0: ReceiveQueue::new(),
            receive_1: ReceiveQueue::new(),
            transmit_0,
            transmit_1,
            causes: Causes::new(),
            queue_vectors: 0,
            other_vector: 0,
            intervals: Intervals::none(),
            frames_received: 0,
            frames_sent: 0,
            offloads: Offloads::none(),
            shortfalls: 0,
            losses: Losses::none(),
        })
    }

    /// Makes every register initial. The memory and the offloads stay.
    pub fn reset(&mut self)
        ensures state { self.new.state ≡ initial_with self.old.state.offloads self.old.state.memory }
        ensures size { length self.new.state.memory ≡ length self.old.state.memory }
        ensures accesses { self.new.accesses ≡ self.old.accesses }
    {
        self.receive_0.reset();
        self.receive_1.reset();
        self.transmit_0.reset();
        self.transmit_1.reset();
        self.causes = Causes::new();
        self.queue_vectors = 0;
        self.other_vector = 0;
        self.intervals = Intervals::none();
        self.frames_received = 0;
        self.frames_sent = 0;
        self.shortfalls = 0;
        self.losses = Losses::none();
    }

    /// Makes every register initial and every byte of the memory zero. It has no offloads then.
    pub fn reopen(&mut self)
        ensures state { self.new.state ≡ initial (replicate (length self.old.state.memory) 0) }
        ensures size { length self.new.state.memory ≡ length self.old.state.memory }
        ensures listed { self.new.accesses
            ≡ self.old.accesses ++ clearing (length self.old.state.memory) }
    {
        self.reset();
        self.offloads = Offloads::none();
        self.memory.erase();
    }

    /// Takes another memory in place of its own, which it hands out with its list, makes every register initial, and has these offloads
    /// from now on. Neither memory is accessed.
    pub fn exchange(&mut self, memory: D, offloads: Offloads) -> Traced<D, K>
        ensures state { self.new.state ≡ initial_with offloads (D.seen memory) }
        ensures accesses { self.new.accesses ≡ D.noted memory }
        ensures former { D.seen result.memory ≡ self.old.state.memory }
        ensures listed { result.accesses ≡ self.old.accesses }
    {
        OpenVf::reset(self);
        self.offloads = offloads;
        replace(&mut self.memory, Traced::new(memory))
    }

    /// Takes another memory of as many bytes in place of its own, which it hands out with its list. No register changes and no
    /// offload, and neither memory is accessed.
    pub fn replace_memory(&mut self, memory: D) -> Traced<D, K>
        requires { length (D.seen memory) ≡ length self.old.state.memory }
        ensures state { self.new.state ≡ record self.old.state { memory = D.seen memory } }
        ensures accesses { self.new.accesses ≡ D.noted memory }
        ensures former { D.seen result.memory ≡ self.old.state.memory }
        ensures listed { result.accesses ≡ self.old.accesses }
    {
        replace(&mut self.memory, Traced::new(memory))
    }

    /// Reads the register at an offset.
    pub fn reg_read(&mut self, offset: u32) -> u32
        ensures value { result ≡ word_at_offset self.old.state offset }
        ensures state { self.new.state ≡ after_read_at self.old.state offset }
        ensures size { length self.new.state.memory ≡ length self.old.state.memory }
        ensures accesses { self.new.accesses ≡ self.old.accesses }
    {
        self.read(register_of(offset))
    }

    /// Writes the register at an offset; the messages that this issues.
    pub fn reg_write(&mut self, offset: u32, x: u32) -> Vectors
        ensures state { self.new.state ≡ (written_at self.old.state offset x).state }
        ensures messages { result ≡ (written_at self.old.state offset x).messages }
        ensures size { length self.new.state.memory ≡ length self.old.state.memory }
        ensures accesses { self.new.accesses ≡ self.old.accesses }
    {
        self.write(register_of(offset), x)
    }

    // Reads a register.
    #[tactic(auto, unfolding(crate::specs::Access::word, crate::specs::Access::after_read))]
    fn read(&mut self, register: Register) -> u32
        ensures value { result ≡ word self.old.state register }
        ensures state { self.new.state ≡ after_read self.old.state register }
        ensures size { length self.new.state.memory ≡ length self.old.state.memory }
        ensures accesses { self.new.accesses ≡ self.old.accesses }
    {
        match register {
            Register::Links => LINK_UP,
            Register::CauseRead => u32::from(self.causes.read_icr().bits()),
            Register::MaskSet => u32::from(self.causes.mask().bits()),
            Register::AutoClear => u32::from(self.causes.auto_clear().bits()),
            Register::AutoMask => u32::from(self.causes.auto_mask().bits()),
            Register::QueueVectors => self.queue_vectors,
            Register::OtherVector => self.other_vector,
            Register::Interval(vector) => self.intervals.word(vector),
            Register::Receive(Queue::Q0, register) => self.receive_0.ring.read(register),
            Register::Receive(Queue::Q1, register) => self.receive_1.ring.read(register),
            Register::ReceiveBuffers(Queue::Q0) => self.receive_0.buffers | DROPS,
            Register::ReceiveBuffers(Queue::Q1) => self.receive_1.buffers | DROPS,
            Register::ReceiveControl(Queue::Q0) => self.receive_0.read_control(),
            Register::ReceiveControl(Queue::Q1) => self.receive_1.read_control(),
            Register::Transmit(Queue::Q0, register) => self.transmit_0.ring.read(register),
            Register::Transmit(Queue::Q1, register) => self.transmit_1.ring.read(register),
            Register::TransmitControl(Queue::Q0) => self.transmit_0.read_control(),
            Register::TransmitControl(Queue::Q1) => self.transmit_1.read_control(),
            Register::FramesReceived => self.frames_received,
            Register::FramesSent => self.frames_sent,
            Register::Nowhere | Register::Control | Register::CauseSet | Register::MaskClear => 0,
        }
    }

    // Writes a register; the messages that this issues.
    #[tactic(auto, unfolding(crate::specs::Access::register_written))]
    fn write(&mut self, register: Register, x: u32) -> Vectors
        ensures state { self.new.state ≡ (register_written self.old.state register x).state }
        ensures messages { result ≡ (register_written self.old.state register x).messages }
        ensures size { length self.new.state.memory ≡ length self.old.state.memory }
        ensures accesses { self.new.accesses ≡ self.old.accesses }
    {
        match register {
            Register::CauseSet => return self.causes.ics(x),
            Register::MaskSet => return self.causes.ims(x),
            Register::Control => {
                if has_bit(u64::from(x), RST) {
                    self.reset();
                }
            }
            Register::CauseRead => self.causes.write_icr(x),
            Register::MaskClear => self.causes.imc(x),
            Register::AutoClear => self.causes.iac(x),
            Register::AutoMask => {
                if self.offloads.auto_mask {
                    self.causes.iam(x);
                }
            }
            Register::QueueVectors => self.queue_vectors = x & VTIVAR_KEPT,
            Register::OtherVector => self.other_vector = x & VTIVAR_MISC_KEPT,
            Register::Interval(vector) => self.write_interval(vector, x),
            Register::Receive(queue, register) => self.write_receive(queue, register, x),
            Register::ReceiveBuffers(queue) => self.write_receive_buffers(queue, x),
            Register::ReceiveControl(queue) => self.write_receive_control(queue, x),
            Register::Transmit(queue, register) => self.write_transmit(queue, register, x),
            Register::TransmitControl(queue) => self.write_transmit_control(queue, x),
            Register::Nowhere | Register::Links | Register::FramesReceived | Register::FramesSent =>
                {}
        }
        Vectors::none()
    }

    // Writes VTEITR.
    fn write_interval(&mut self, vector: Vector, x: u32)
        ensures state { self.new.state ≡ interval_written self.old.state vector x }
        ensures size { length self.new.state.memory ≡ length self.old.state.memory }
        ensures accesses { self.new.accesses ≡ self.old.accesses }
    {
        if self.offloads.throttle {
            self.intervals = self.intervals.with(vector, x & VTEITR_KEPT);
        }
    }

    // Writes a register of a receive ring.
    fn write_receive(&mut self, queue: Queue, register: RingRegister, x: u32)
        ensures state { self.new.state
            ≡ with_receive self.old.state queue
            (record
            (receive_of self.old.state queue) {
              ring = ring_written
                  (receive_of self.old.state queue).ring register x;
            }) }
        ensures size { length self.new.state.memory ≡ length self.old.state.memory }
        ensures accesses { self.new.accesses ≡ self.old.accesses }
    {
        match queue {
            Queue::Q0 => self.receive_0.write_ring(register, x),
            Queue::Q1 => self.receive_1.write_ring(register, x),
        }
    }

    // Writes SRRCTL.
    fn write_receive_buffers(&mut self, queue: Queue, x: u32)
        ensures state { self.new.state
            ≡ with_receive self.old.state queue
            (buffers_written self.old.state.offloads.legacy_receive
            (receive_of self.old.state queue) x) }
        ensures size { length self.new.state.memory ≡ length self.old.state.memory }
        ensures accesses { self.new.accesses ≡ self.old.accesses }
    {
        let legacy = self.offloads.legacy_receive;
        match queue {
            Queue::Q0 => self.receive_0.write_buffers(x, legacy),
            Queue::Q1 => self.receive_1.write_buffers(x, legacy),
        }
    }

    // Writes RXDCTL.
    fn write_receive_control(&mut self, queue: Queue, x: u32)
        ensures state { self.new.state
            ≡ with_receive self.old.state queue
            (receive_switched self.old.state.offloads.legacy_receive
            (length self.old.state.memory) (receive_of self.old.state queue) x) }
        ensures size { length self.new.state.memory ≡ length self.old.state.memory }
        ensures accesses { self.new.accesses ≡ self.old.accesses }
    {
        let memory_size = self.memory.size();
        let legacy = self.offloads.legacy_receive;
        match queue {
            Queue::Q0 => self.receive_0.write_control(x, legacy, memory_size),
            Queue::Q1 => self.receive_1.write_control(x, legacy, memory_size),
        }
    }

    // Writes a register of a transmit ring.
    fn write_transmit(&mut self, queue: Queue, register: RingRegister, x: u32)
        ensures state { self.new.state
            ≡ with_transmit self.old.state queue
            (record
            (transmit_of self.old.state queue) {
              ring = ring_written
                  (transmit_of self.old.state queue).ring register x;
            }) }
        ensures size { length self.new.state.memory ≡ length self.old.state.memory }
        ensures accesses { self.new.accesses ≡ self.old.accesses }
    {
        match queue {
            Queue::Q0 => self.transmit_0.ring.write(register, x),
            Queue::Q1 => self.transmit_1.ring.write(register, x),
        }
    }

    // Writes TXDCTL.
    fn write_transmit_control(&mut self, queue: Queue, x: u32)
        ensures state { self.new.state
            ≡ with_transmit self.old.state queue
            (transmit_switched (length self.old.state.memory) (transmit_of self.old.state queue) x) }
        ensures size { length self.new.state.memory ≡ length self.old.state.memory }
        ensures accesses { self.new.accesses ≡ self.old.accesses }
    {
        let memory_size = self.memory.size();
        match queue {
            Queue::Q0 => self.transmit_0.write_control(x, memory_size),
            Queue::Q1 => self.transmit_1.write_control(x, memory_size),
        }
    }

    /// Places a frame in receive queue 0; the messages that this issues. `loopback` says that another pool sent it.
    #[inline]
    #[tactic(auto, using(crate::proofs::Told::state_told), unfolding(crate::specs::Function::delivered))]
    pub fn deliver(&mut self, frame: Frame<'_>, loopback: bool) -> Vectors
        ensures state { self.new.state
            ≡ (delivered loopback frame.entry.bytes.now
            (told self.old.accesses self.new.accesses self.old.state)).state }
        ensures messages { result
            ≡ (delivered loopback frame.entry.bytes.now
            (told self.old.accesses self.new.accesses self.old.state)).messages }
        ensures size { length self.new.state.memory ≡ length self.old.state.memory }
        ensures listed { self.new.accesses ≡ self.old.accesses
            ++ delivered_accesses loopback frame.entry.bytes.now
            (told self.old.accesses self.new.accesses self.old.state) }
        ensures traced { IsTraced D.shared self.old.state.memory self.old.accesses self.new.accesses }
    {
        let is_legacy = self.receive_0.is_legacy(self.offloads.legacy_receive);
        if is_legacy && !self.receive_0.has_size() {
            self.losses.turn_away();
            return Vectors::none();
        }
        let config = RxConfig {
            buffer_size: 1024 * (self.receive_0.buffers % BUFFER_SIZES) as usize,
            strip_tag: self.receive_0.strips_tag,
            format: if is_legacy {
                RxFormat::Legacy
            } else {
                RxFormat::Advanced
            },
            check_sums: self.offloads.receive_checksum,
        };
        let placed = place_in(
            &mut self.memory,
            &mut self.receive_0.ring,
            &config,
            frame,
            loopback,
        );
        if placed != Placed::Put {
            self.lose(placed);
            return Vectors::none();
        }
        self.frames_received = self.frames_received.wrapping_add(1);
        self.causes
            .raise_by(vector_at(self.queue_vectors, RECEIVE_VECTOR_0))
    }

    // Counts a frame that came, where it was not placed.
    fn lose(&mut self, placed: Placed)
        ensures state { self.new.state
            ≡ record self.old.state { losses = lost_placing placed self.old.state.losses } }
        ensures accesses { self.new.accesses ≡ self.old.accesses }
    {
        match placed {
            Placed::Put => {}
            Placed::NoRoom => self.losses.turn_away(),
            Placed::Faulted => self.losses.stop(QueueFault::Receive),
        }
    }

    /// Takes the descriptor at the head of a transmit queue, or sends the next segment of the frame that ends with it. What leaves is left in
    /// `frame`, which else stays as it was.
    #[tactic(auto, unfolding(crate::specs::Function::after_fetching))]
    pub fn serve(
        &mut self,
        queue: Queue,
        frame: &mut FrameBuf,
        rule: PortVlan,
        limit: FrameLimit,
    ) -> Service
        ensures state { self.new.state
            ≡ (after_fetching limit rule
            (told self.old.accesses self.new.accesses self.old.state) queue).state }
        ensures messages { result.messages
            ≡ (after_fetching limit rule
            (told self.old.accesses self.new.accesses self.old.state) queue).messages }
        ensures outcome { fetched_in result.outcome frame.new
            ≡ (fetched_from limit rule
            (told self.old.accesses self.new.accesses self.old.state) queue).outcome }
        ensures frame { frame.new
            ≡ lent_after
            (fetched_from limit rule
            (told self.old.accesses self.new.accesses self.old.state) queue).outcome frame.old }
        ensures size { length self.new.state.memory ≡ length self.old.state.memory }
        ensures listed { self.new.accesses ≡ self.old.accesses
            ++ fetched_accesses limit rule
            (told self.old.accesses self.new.accesses self.old.state) queue }
        ensures traced { IsTraced D.shared self.old.state.memory self.old.accesses self.new.accesses }
    {
        let turn = self.fetch_from(queue, frame, rule, limit);
        let messages = if turn.reported {
            let vector = match queue {
                Queue::Q0 => vector_at(self.queue_vectors, TRANSMIT_VECTOR_0),
                Queue::Q1 => vector_at(self.queue_vectors, TRANSMIT_VECTOR_1),
            };
            self.causes.raise_by(vector)
        } else {
            Vectors::none()
        };
        Service {
            outcome: turn.outcome,
            messages,
        }
    }

    // Takes the descriptor at the head of a transmit queue, and raises nothing.
    fn fetch_from(
        &mut self,
        queue: Queue,
        frame: &mut FrameBuf,
        rule: PortVlan,
        limit: FrameLimit,
    ) -> Turn
        ensures state { self.new.state
            ≡ with_fetching
            (told self.old.accesses self.new.accesses self.old.state) queue
            (fetched_from limit rule
            (told self.old.accesses self.new.accesses self.old.state) queue)
            (misused_from limit rule
            (told self.old.accesses self.new.accesses self.old.state) queue) }
        ensures reported { result.reported
            ≡ (fetched_from limit rule
            (told self.old.accesses self.new.accesses self.old.state) queue).reported }
        ensures outcome { fetched_in result.outcome frame.new
            ≡ (fetched_from limit rule
            (told self.old.accesses self.new.accesses self.old.state) queue).outcome }
        ensures frame { frame.new
            ≡ lent_after
            (fetched_from limit rule
            (told self.old.accesses self.new.accesses self.old.state) queue).outcome frame.old }
        ensures size { length self.new.state.memory ≡ length self.old.state.memory }
        ensures listed { self.new.accesses ≡ self.old.accesses
            ++ fetched_accesses limit rule
            (told self.old.accesses self.new.accesses self.old.state) queue }
        ensures traced { IsTraced D.shared self.old.state.memory self.old.accesses self.new.accesses }
    {
        let terms = Terms {
            rule,
            limit,
            offloads: self.offloads,
        };
        let turn = match queue {
            Queue::Q0 => self.transmit_0.fetch(&mut self.memory, frame, &terms),
            Queue::Q1 => self.transmit_1.fetch(&mut self.memory, frame, &terms),
        };
        if turn.falls_short {
            self.shortfalls = self.shortfalls.wrapping_add(1);
        }
        if let Some(why) = turn.misuse {
            self.losses.stop(QueueFault::Transmit(queue, why));
        }
        turn
    }

    /// Counts one more frame sent, modulo 2^32.
    pub fn sent(&mut self)
        ensures state { self.new.state
            ≡ record self.old.state { frames_sent = (self.old.state.frames_sent + 1) % 2 ^ 32 } }
        ensures size { length self.new.state.memory ≡ length self.old.state.memory }
        ensures accesses { self.new.accesses ≡ self.old.accesses }
    {
        self.frames_sent = self.frames_sent.wrapping_add(1);
    }

    /// Counts one more frame that the sender's check refused, modulo 2^32.
    pub fn refused(&mut self)
        ensures state { self.new.state
            ≡ record self.old.state { losses = sender_refused self.old.state.losses } }
        ensures size { length self.new.state.memory ≡ length self.old.state.memory }
        ensures accesses { self.new.accesses ≡ self.old.accesses }
    {
        self.losses.refuse();
    }

    /// Raises the cause "other", by the vector that VTIVAR_MISC names; the messages that this issues.
    #[tactic(auto, unfolding(crate::specs::Function::other_raised_in))]
    pub fn raise_other(&mut self) -> Vectors
        ensures state { self.new.state ≡ (other_raised_in self.old.state).state }
        ensures messages { result ≡ (other_raised_in self.old.state).messages }
        ensures size { length self.new.state.memory ≡ length self.old.state.memory }
        ensures accesses { self.new.accesses ≡ self.old.accesses }
    {
        self.causes
            .raise_by(vector_at(self.other_vector, OTHER_VECTOR))
    }

    /// How many microseconds apart the messages of a vector are to be at least, 0 to 1022.
    #[inline]
    pub fn interval(&self, vector: Vector) -> u16
        ensures { result ≡ microseconds (word_for self.now.state.intervals vector) }
    {
        self.intervals.microseconds(vector)
    }

    /// All that was counted.
    pub fn counts(&self) -> Counts
        ensures { result ≡ counts_of (Open self.now.state) }
    {
        Counts {
            received: self.frames_received,
            sent: self.frames_sent,
            no_room: self.losses.no_room,
            refused: self.losses.refused,
            faults: self.losses.faults,
            last_fault: self.losses.last_fault,
            shortfalls: self.shortfalls,
        }
    }

    /// The size of the memory, in bytes.
    #[inline]
    pub fn memory_size(&self) -> u64
        ensures { result ≡ length self.now.state.memory }
    {
        self.memory.size()
    }

    /// Reads bytes of the memory.
    pub fn mem_load(&mut self, at: u64, out: &mut [u8])
        requires { at + length out.old ≤ length self.old.state.memory }
        ensures state { self.new.state ≡ told self.old.accesses self.new.accesses self.old.state }
        ensures bytes { out.new ≡ slice_range self.new.state.memory at (at + length out.old) }
        ensures size { length self.new.state.memory ≡ length self.old.state.memory }
        ensures listed { self.new.accesses ≡ self.old.accesses ++ Read at out.new ∷ [] }
        ensures traced { IsTraced D.shared self.old.state.memory self.old.accesses self.new.accesses }
    {
        self.memory.load(at, out);
    }

    /// Writes bytes of the memory.
    pub fn mem_write(&mut self, at: u64, source: &[u8])
        requires { at + length source.now ≤ length self.old.state.memory }
        ensures state { self.new.state
            ≡ record self.old.state { memory = overwrite at source.now self.old.state.memory } }
        ensures listed { self.new.accesses ≡ self.old.accesses ++ Wrote at source.now ∷ [] }
        ensures size { length self.new.state.memory ≡ length self.old.state.memory }
    {
        self.memory.store(at, source);
    }
}

impl<M: GuestMem> OpenVf<M> {
    /// Copies bytes of the memory.
    pub fn mem_read(&self, at: u64, out: &mut [u8])
        requires { at + length out.old ≤ length self.now.state.memory }
        ensures { out.new ≡ slice_range self.now.state.memory at (at + length out.old) }
    {
        self.memory.look_at(at, out);
    }
}

// A vector, by the lowest bit of its byte in VTIVAR or VTIVAR_MISC.
#[inline]
fn vector_at(vectors: u32, low: u32) -> u8
    requires { low < 64 }
    ensures { result ≡ field vectors low 8 }
{
    field(u64::from(vectors), low, VECTOR_SIZE) as u8
}
