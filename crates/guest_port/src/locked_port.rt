//! A port with the device behind it.
ghost use Rattle.std.specs.Prelude.{◌≡◌, ℕ, List, [], ◌<◌, ◌≤◌, true, false, Err, IfOk, IfErr, IfSome, IfNone, OnErr, MatchOption, length};
ghost use Rattle.wire_frame.specs.declared.fault.Fault.{Fault};
ghost use Rattle.device.specs.declared.event.Event.{Event};
ghost use Rattle.device.specs.Request.{event_of};
ghost use Rattle.device.specs.Outcome.{reply_of, bytes_read, done_or_refused, value_or_refused, bytes_or_refused};
ghost use Rattle.history.specs.declared.caller.Caller.TheVariants.{Port};
ghost use Rattle.recorder.specs.Callers.{may};
ghost use Rattle.recorder.specs.Held.{having_calls};
ghost use Rattle.irq_line.specs.Line.{StandsIn};
ghost use Rattle.guest_port.specs.Port.{having_taken, having_peeked, ended, closed};
ghost use Rattle.guest_port.specs.Calls.{HasCalled, is_full, read_or_refused, IsDone, IsValue, IsRead};

use crate::port::{GuestPort, Tokens};
use device::bytes::MOST_BYTES;
use device::{MemBytes, MemSlice, Outcome, Request, Room};
use device_lock::{Caller, LockedDevice, Share, WhenFull};
use guest_memory::GuestMem;
use shadow::Shadow;
use std::marker::Model;
use std::sync::ledger::Ledger;
use std::sync::{Arc, Wait};
use wire_frame::{Fault, PoolId};

/// A port with the device behind it: what a guest has of its virtual function. The calls that take a handle wait for the
/// device's lock. Each of them is one event of the port's own pool, which the device keeps with its answer and which counts
/// as a call made, also where it is refused: what the call answers is the reply that is kept. They are refused, and nothing
/// is kept, as [`Fault::NotOpen`] once the port has ended, and as [`Fault::HistoryFull`] where the device can keep no more.
///
/// Contracts see the port, its share as it was when the port was made, its calls since, each with its event and its answer, and
/// the cells that the bytes which its last call read stand first in. No call takes memory.
#[derive(Drop)]
pub struct LockedPort<M: GuestMem, L: Ledger, P: GuestPort> {
    device: Arc<LockedDevice<M, L>>,
    // none once the port is closed
    share: Option<Share<L>>,
    inner: P,
    // lent to each call, for the bytes that it reads
    room: Room,
    first: Shadow<Share<L>>,
    last: Shadow<Share<L>>,
}

impl<M: GuestMem, L: Ledger, P: GuestPort> Model for LockedPort<M, L, P> {
    ghost use Rattle.guest_port.specs.Calls.{CallingPort};

    ghost Value = { CallingPort };

    ghost use Rattle.std.specs.Prelude.{◌≡◌, true, false, MatchOption};
    ghost use Rattle.history.specs.declared.caller.Caller.TheVariants.{Port};
    ghost use Rattle.recorder.specs.Held.{having_calls};
    ghost use Rattle.guest_port.specs.Calls.{asked_since};

    ghost view = { λ s. record {
      port = P.meaning s.inner;
      made = s.first.value;
      calls = asked_since s.first.value s.last.value;
      cells = s.room.bytes;
    } };

    ghost invariant = { λ s.
        (s.last.value ≡ having_calls (asked_since s.first.value s.last.value) s.first.value)
        × (s.first.value.line ≡ (P.meaning s.inner).seat.line)
        × MatchOption s.share ((P.meaning s.inner).is_closed ≡ true)
        (λ share. ((P.meaning s.inner).is_closed ≡ false)
        × (share.caller ≡ Port (P.meaning s.inner).pool)
        × (share ≡ s.last.value)) };
}

impl<M: GuestMem, L: Ledger, P: GuestPort> LockedPort<M, L, P> {
    /// The port with the device, of one pool with the share, and with a seat of the line that the share's device raises messages in. It
    /// has made no call.
    ///
    /// ```
    /// let (inner, _note) = IrqPort::new(alloc, 3, seat)?;
    /// let share = shares.port(3).ok_or("it was handed out")?;
    /// let mut port = LockedPort::new(device, share, inner);
    /// port.reg_write(rt, VTEIMS, 5)?;
    /// let enabled = port.reg_read(rt, VTEIMS)?;
    /// port.mem_write(rt, 0, &[7, 0])?;
    /// let mut bytes = [1; 2];
    /// port.mem_read_into(rt, 0, &mut bytes)?;
    /// ```
    pub fn new(device: Arc<LockedDevice<M, L>>, share: Share<L>, inner: P) -> LockedPort<M, L, P>
        requires pool { share.caller ≡ Port (P.meaning inner).pool }
        requires line { share.line ≡ (P.meaning inner).seat.line }
        requires closed { (P.meaning inner).is_closed ≡ false }
        ensures { result
            ≡ record { port = P.meaning inner; made = share; calls = []; cells = result.cells } }
    {
        let first = Shadow::of(&share);
        let last = Shadow::of(&share);
        LockedPort {
            device,
            share: Some(share),
            inner,
            room: Room::new(),
            first,
            last,
        }
    }

    /// The pool, 0 to 63.
    pub fn pool(&self) -> u8
        ensures pool { result ≡ self.now.port.pool }
        ensures below { result < 64 }
    {
        self.inner.pool()
    }

    /// The caller that it is.
    pub fn caller(&self) -> Caller
        ensures { result ≡ Port self.now.port.pool }
    {
        match PoolId::new(self.inner.pool()) {
            Some(pool) => Caller::Port(pool),
            None => unreachable!(),
        }
    }

    /// Whether it has not ended.
    pub fn is_open(&self) -> bool
        ensures { result ≡ self.now.port.is_open }
    {
        self.inner.is_open()
    }

    /// Reads the register of the pool's function at an offset in bytes.
    ///
    /// [`Fault::NotOpen`], then [`Fault::BadOffset`] where the offset is no multiple of 4 or not below 0x4000.
    pub fn reg_read<R: Wait>(&mut self, rt: &R, offset: u32) -> Result<u32, Fault>
        ensures ended { self.old.port.is_open ≡ false →
            (result ≡ Err Fault.NotOpen) × (self.new ≡ self.old) }
        ensures full { is_full result ≡ true → self.new ≡ self.old }
        ensures kept { self.old.port.is_open ≡ true → is_full result ≡ false →
            HasCalled (Event.VfRead self.old.port.pool offset) (value_or_refused result) self.old self.new }
    {
        let pool = self.inner.pool();
        match self.ask(rt, Request::VfRead(pool, offset), WhenFull::Refuse) {
            Ok(outcome) => value_of(outcome),
            Err(fault) => Err(fault),
        }
    }

    /// Writes a value to the register of the pool's function at an offset in bytes. A write to an offset that no register
    /// has does nothing.
    ///
    /// Refused as [`reg_read`](LockedPort::reg_read) is.
    pub fn reg_write<R: Wait>(&mut self, rt: &R, offset: u32, value: u32) -> Result<(), Fault>
        ensures ended { self.old.port.is_open ≡ false →
            (result ≡ Err Fault.NotOpen) × (self.new ≡ self.old) }
        ensures full { is_full result ≡ true → self.new ≡ self.old }
        ensures kept { self.old.port.is_open ≡ true → is_full result ≡ false →
            HasCalled (Event.VfWrite self.old.port.pool offset value) (done_or_refused result) self.old self.new }
    {
        let pool = self.inner.pool();
        match self.ask(rt, Request::VfWrite(pool, offset, value), WhenFull::Refuse) {
            Ok(outcome) => done_of(outcome),
            Err(fault) => Err(fault),
        }
    }

    /// The bytes of the guest's memory from an address on, at most 2048.
    ///
    /// [`Fault::NotOpen`], then [`Fault::TooLong`] for more than 2048 bytes, then [`Fault::BadRange`] where they pass the end
    /// of the memory.
    pub fn mem_read<R: Wait>(&mut self, rt: &R, addr: u64, len: u16) -> Result<MemBytes, Fault>
        ensures ended { self.old.port.is_open ≡ false →
            (result ≡ Err Fault.NotOpen) × (self.new ≡ self.old) }
        ensures full { is_full result ≡ true → self.new ≡ self.old }
        ensures kept { self.old.port.is_open ≡ true → is_full result ≡ false →
            HasCalled (Event.MemRead self.old.port.pool addr len) (read_or_refused result) self.old self.new }
    {
        let pool = self.inner.pool();
        match self.ask(rt, Request::MemRead(pool, addr, len), WhenFull::Refuse) {
            Ok(outcome) => bytes_of(&self.room, outcome),
            Err(fault) => Err(fault),
        }
    }

    /// Fills `out` with the bytes of the guest's memory from an address on.
    ///
    /// [`Fault::NotOpen`], then [`Fault::TooLong`] for more than 2048 bytes, which is no call made; then [`Fault::BadRange`]
    /// where they pass the end of the memory. Where it is refused, `out` is as it was.
    pub fn mem_read_into<R: Wait>(&mut self, rt: &R, addr: u64, out: &mut [u8]) -> Result<(), Fault>
        ensures ended { self.old.port.is_open ≡ false →
            (result ≡ Err Fault.NotOpen) × (self.new ≡ self.old) }
        ensures too_long { self.old.port.is_open ≡ true → 2048 < length out.old →
            (result ≡ Err Fault.TooLong) × (self.new ≡ self.old) }
        ensures full { is_full result ≡ true → self.new ≡ self.old }
        ensures kept { self.old.port.is_open ≡ true → length out.old ≤ 2048
            → is_full result ≡ false →
            HasCalled (Event.MemRead self.old.port.pool addr (length out.old)) (bytes_or_refused result out.new) self.old self.new }
        ensures unread { OnErr result (out.new ≡ out.old) }
    {
        if !self.inner.is_open() {
            return Err(Fault::NotOpen);
        }
        if out.len() > MOST_BYTES {
            return Err(Fault::TooLong);
        }
        let pool = self.inner.pool();
        let request = Request::MemRead(pool, addr, out.len() as u16);
        match self.ask(rt, request, WhenFull::Refuse) {
            Ok(outcome) => fill(&self.room, outcome, out),
            Err(fault) => Err(fault),
        }
    }

    /// Writes bytes of the guest's memory from an address on.
    ///
    /// [`Fault::NotOpen`], then [`Fault::TooLong`] for more than 2048 bytes, which is no call made; then [`Fault::BadRange`]
    /// where they pass the end of the memory.
    pub fn mem_write<R: Wait>(&mut self, rt: &R, addr: u64, bytes: &[u8]) -> Result<(), Fault>
        ensures ended { self.old.port.is_open ≡ false →
            (result ≡ Err Fault.NotOpen) × (self.new ≡ self.old) }
        ensures too_long { self.old.port.is_open ≡ true → 2048 < length bytes.now →
            (result ≡ Err Fault.TooLong) × (self.new ≡ self.old) }
        ensures full { is_full result ≡ true → self.new ≡ self.old }
        ensures kept { self.old.port.is_open ≡ true → length bytes.now ≤ 2048
            → is_full result ≡ false →
            HasCalled (Event.MemWrite self.old.port.pool addr bytes.now) (done_or_refused result) self.old self.new }
    {
        if !self.inner.is_open() {
            return Err(Fault::NotOpen);
        }
        let Ok(written) = MemSlice::new(bytes) else {
            return Err(Fault::TooLong);
        };
        let pool = self.inner.pool();
        match self.ask(rt, Request::MemWrite(pool, addr, written), WhenFull::Refuse) {
            Ok(outcome) => done_of(outcome),
            Err(fault) => Err(fault),
        }
    }

    /// Resets the pool's function (SR-IOV 1.1, function-level reset): its registers become initial. Its memory stays.
    ///
    /// [`Fault::NotOpen`].
    pub fn flr<R: Wait>(&mut self, rt: &R) -> Result<(), Fault>
        ensures ended { self.old.port.is_open ≡ false →
            (result ≡ Err Fault.NotOpen) × (self.new ≡ self.old) }
        ensures full { is_full result ≡ true → self.new ≡ self.old }
        ensures kept { self.old.port.is_open ≡ true → is_full result ≡ false →
            HasCalled (Event.Flr self.old.port.pool) (done_or_refused result) self.old self.new }
    {
        let pool = self.inner.pool();
        match self.ask(rt, Request::Flr(pool), WhenFull::Refuse) {
            Ok(outcome) => done_of(outcome),
            Err(fault) => Err(fault),
        }
    }

    /// Takes the interrupt messages that stand for the pool, those that were peeked among them: bit v for vector v, and none
    /// stands any more. One step, which waits for nobody; 0 once the port was closed.
    #[tactic(auto, using(crate::proofs::Called::taken_line))]
    pub fn take_irqs(&mut self) -> u8
        ensures taken { self.new ≡ record self.old { port = having_taken self.old.port result } }
        ensures closed { self.old.port.is_closed ≡ true → result ≡ 0 }
        ensures stood { self.old.port.is_closed ≡ false → StandsIn self.old.port.peeked result }
    {
        self.inner.take_irqs()
    }

    /// The interrupt messages that stand for the pool, bit v for vector v; they stand on. One step, which waits for nobody; 0
    /// once the port was closed.
    #[tactic(auto, using(crate::proofs::Called::peeked_line))]
    pub fn peek_irqs(&mut self) -> u8
        ensures peeked { self.new ≡ record self.old { port = having_peeked self.old.port result } }
        ensures closed { self.old.port.is_closed ≡ true → result ≡ 0 }
        ensures stood { self.old.port.is_closed ≡ false → StandsIn self.old.port.peeked result }
    {
        self.inner.peek_irqs()
    }

    /// Ends the port: its notes can find the end from now on, and its own knows it. Again, it does nothing.
    pub fn end(&mut self)
        ensures { self.new ≡ record self.old { port = ended self.old.port } }
    {
        self.inner.end();
    }

    /// Ends the port and hands back its share and its tokens, once.
    pub fn close(&mut self) -> Option<(Share<L>, Tokens)>
        ensures closed { self.new ≡ record self.old { port = closed self.old.port } }
        ensures back { MatchOption result (self.old.port.is_closed ≡ true)
            (λ r. (self.old.port.is_closed ≡ false) × (r.0.caller ≡ Port self.old.port.pool)
            × (r.1.seat ≡ self.old.port.seat) × (r.1.seat.view.pool ≡ self.old.port.pool)
            × (r.0.line ≡ r.1.seat.line)
            × (r.1.note ≡ self.new.port.note)) }
        ensures share { IfSome result (λ r. r.0 ≡ having_calls self.old.calls self.old.made) }
    {
        let tokens = self.inner.close();
        let share = self.share.take();
        Some((share?, tokens?))
    }

    /// Makes the call that an event of the port's own pool asks for: the calls by name do it so. Where the device can keep no more
    /// calls, `when_full` says what comes of it. The bytes that it read are those of [`read`](LockedPort::read).
    ///
    /// [`Fault::NotOpen`] once the port has ended; then [`Fault::HistoryFull`] where the call was not made. What the call itself was
    /// refused for is the outcome.
    #[tactic(auto, using(crate::proofs::Called::still_since))]
    pub fn ask<R: Wait>(
        &mut self,
        rt: &R,
        request: Request<'_>,
        when_full: WhenFull,
    ) -> Result<Outcome, Fault>
        requires may { may (Port self.old.port.pool) (event_of request) ≡ true }
        ensures ended { self.old.port.is_open ≡ false → result ≡ Err Fault.NotOpen }
        ensures full { self.old.port.is_open ≡ true
            → IfErr result (λ e. e ≡ Fault.HistoryFull) }
        ensures kept { IfOk result (λ outcome.
            HasCalled (event_of request.entry) (reply_of self.new.cells outcome) self.old self.new) }
        ensures unchanged { OnErr result (self.new ≡ self.old) }
    {
        if !self.inner.is_open() {
            return Err(Fault::NotOpen);
        }
        let Some(share) = &mut self.share else {
            unreachable!();
        };
        let made = self
            .device
            .act_request(rt, share, request, &mut self.room, when_full);
        self.last = Shadow::of(share);
        let Some(response) = made else {
            return Err(Fault::HistoryFull);
        };
        Ok(response.outcome)
    }

    /// The bytes that the last call by [`ask`](LockedPort::ask) read, which had this outcome; none where it read none.
    pub fn read(&self, outcome: Outcome) -> &[u8]
        ensures { result.now ≡ bytes_read self.now.cells outcome }
    {
        self.room.read(outcome)
    }
}

// The value that was read, or why none was.
#[inline]
fn value_of(outcome: Outcome) -> Result<u32, Fault>
    requires { (cells : List ℕ) × IsValue (reply_of cells outcome) }
    ensures reply { (cells : List ℕ) → value_or_refused result ≡ reply_of cells outcome }
    ensures kept { is_full result ≡ false }
{
    match outcome {
        Outcome::Value(value) => Ok(value),
        Outcome::Refused(fault) => Err(fault),
        _ => unreachable!(),
    }
}

// That it was done, or why it was not.
#[inline]
fn done_of(outcome: Outcome) -> Result<(), Fault>
    requires { (cells : List ℕ) × IsDone (reply_of cells outcome) }
    ensures reply { (cells : List ℕ) → done_or_refused result ≡ reply_of cells outcome }
    ensures kept { is_full result ≡ false }
{
    match outcome {
        Outcome::Done => Ok(()),
        Outcome::Refused(fault) => Err(fault),
        _ => unreachable!(),
    }
}

// The bytes that were read, which stand first in the room, or why none were.
fn bytes_of(room: &Room, outcome: Outcome) -> Result<MemBytes, Fault>
    requires { (count : ℕ) × IsRead count (reply_of room.now.bytes outcome) }
    ensures reply { read_or_refused result ≡ reply_of room.now.bytes outcome }
    ensures kept { is_full result ≡ false }
{
    match outcome {
        Outcome::Bytes(_) => match MemBytes::from_bytes(room.read(outcome)) {
            Ok(bytes) => Ok(bytes),
            Err(_) => unreachable!(),
        },
        Outcome::Refused(fault) => Err(fault),
        _ => unreachable!(),
    }
}

// Fills `out` with the bytes that were read, which stand first in the room, or tells why none were.
#[inline]
fn fill(room: &Room, outcome: Outcome, out: &mut [u8]) -> Result<(), Fault>
    requires { IsRead (length out.old) (reply_of room.now.bytes outcome) }
    ensures reply { bytes_or_refused result out.new ≡ reply_of room.now.bytes outcome }
    ensures unread { OnErr result (out.new ≡ out.old) }
    ensures kept { is_full result ≡ false }
{
    match outcome {
        Outcome::Bytes(_) => {
            out.copy_from_slice(room.read(outcome));
            Ok(())
        }
        Outcome::Refused(fault) => Err(fault),
        _ => unreachable!(),
    }
}
