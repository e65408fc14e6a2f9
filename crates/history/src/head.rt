//! A kept call without its bytes.
ghost use Rattle.std.specs.Prelude.{◌≡◌, ◌≤◌, true, length, IsTrue, ◌↔◌};
ghost use Rattle.device.specs.Request.{event_of};
ghost use Rattle.history.specs.Entries.{brings};
ghost use Rattle.history.specs.Heads.{head_of, event_with, kind_of, brought, moved, IsSound};

use crate::caller::Caller;
use device::{Outcome, Queue, Reply, Request, Room};
use irq_causes::Vectors;
use std::marker::Model;

/// An event without its bytes and its frame, in 16 bytes. As an `Event<(), ()>` it would take 24, and a [`Head`] 40.
#[derive(Clone, Copy, PartialEq, Eq)]
pub enum EventHead {
    /// The open of a pool's function.
    Open(u8),
    /// The end of a pool's function.
    End(u8),
    /// A read of a pool's register, at an offset.
    VfRead(u8, u32),
    /// A write of a pool's register: its offset, and the value.
    VfWrite(u8, u32, u32),
    /// A read of a pool's memory: how many bytes, and from where. The count stands first, which keeps the head small.
    MemRead(u8, u16, u64),
    /// A write of a pool's memory, and where.
    MemWrite(u8, u64),
    /// A service of a pool's transmit queue.
    Serve(u8, Queue),
    /// A function-level reset of a pool's function.
    Flr(u8),
    /// A read of a register of the physical function, at an offset.
    PfRead(u32),
    /// A write of a register of the physical function: its offset, and the value.
    PfWrite(u32, u32),
    /// A reset of the physical function.
    PfReset,
    /// A frame from the wire.
    Wire,
}

/// What was replied, but for bytes; a fault stands by its number.
pub type ReplyKind = Reply<()>;

/// A caller in one byte.
#[derive(Clone, Copy)]
pub struct PackedCaller {
    number: u8,
}

impl Model for PackedCaller {
    ghost use Rattle.std.specs.Prelude.{◌<◌};
    ghost use Rattle.history.specs.Callers.{caller_number, caller_of};
    ghost use Rattle.history.specs.declared.caller.Caller.{Caller};

    ghost Value = { Caller };

    ghost view = { λ c. caller_of c.number };

    ghost invariant = { λ c. c.number < 67 };

    ghost inverse = { λ c. record { number = caller_number c } };
}

impl PackedCaller {
    /// The caller in one byte.
    #[inline]
    pub fn new(caller: Caller) -> PackedCaller
        ensures { result ≡ caller }
    {
        PackedCaller {
            number: caller.number(),
        }
    }

    /// The caller.
    #[inline]
    pub fn get(self) -> Caller
        ensures { result ≡ self }
    {
        match Caller::from_number(self.number) {
            Some(caller) => caller,
            None => unreachable!(),
        }
    }
}

/// A kept call without its bytes. In the store, from `start` on, stand the `count` bytes that it brought or read, and then
/// those of the words of its messages.
#[derive(Clone, Copy)]
pub struct Head {
    /// The event.
    pub event: EventHead,
    /// What was replied.
    pub reply: ReplyKind,
    /// Where its bytes begin.
    pub start: u32,
    /// How many bytes it brought or read.
    pub count: u16,
    /// Who called.
    pub caller: PackedCaller,
    /// The vectors that some pool got a message of.
    pub vectors: Vectors,
}

/// The event that a request stands for, without its bytes and its frame.
#[inline]
pub fn head_of(request: Request<'_>) -> EventHead
    ensures { result ≡ head_of (event_of request.entry) }
{
    match request {
        Request::Open(pool) => EventHead::Open(pool),
        Request::End(pool) => EventHead::End(pool),
        Request::VfRead(pool, offset) => EventHead::VfRead(pool, offset),
        Request::VfWrite(pool, offset, value) => EventHead::VfWrite(pool, offset, value),
        Request::MemRead(pool, at, count) => EventHead::MemRead(pool, count, at),
        Request::MemWrite(pool, at, _) => EventHead::MemWrite(pool, at),
        Request::Serve(pool, queue) => EventHead::Serve(pool, queue),
        Request::Flr(pool) => EventHead::Flr(pool),
        Request::PfRead(offset) => EventHead::PfRead(offset),
        Request::PfWrite(offset, value) => EventHead::PfWrite(offset, value),
        Request::PfReset => EventHead::PfReset,
        Request::Wire(_) => EventHead::Wire,
    }
}

/// The bytes that go with a call: those that its event brings, or else those that it read, which stand in the room that was lent.
#[inline]
pub fn moved<'a>(request: Request<'a>, outcome: Outcome, room: &'a Room) -> &'a [u8]
    ensures bytes { result.now ≡ moved room.now.bytes (event_of request.entry) outcome }
    ensures most { length result.now ≤ 9018 }
    ensures sound { IsSound (event_of request.entry) }
{
    match request {
        Request::MemWrite(_, _, written) => written.bytes(),
        Request::Wire(frame) => frame.bytes(),
        _ => room.read(outcome),
    }
}

/// Whether an event is the one of a head, where these are the bytes that stand with the head.
#[inline]
#[tactic(auto, using(crate::proofs::HeadLemmas::event_by, crate::proofs::HeadLemmas::has_head, crate::proofs::HeadLemmas::has_bytes))]
pub fn is_event(head: EventHead, bytes: &[u8], request: Request<'_>) -> bool
    ensures { IsTrue result ↔ (event_of request.entry ≡ event_with bytes.now head) }
{
    head == head_of(request) && are_brought(bytes, request)
}

// Whether these are the bytes that an event brings, if it brings some.
#[inline]
fn are_brought(bytes: &[u8], request: Request<'_>) -> bool
    ensures { IsTrue result
        ↔ (brings (event_of request.entry) ≡ true → brought (event_of request.entry) ≡ bytes.now) }
{
    match request {
        Request::MemWrite(_, _, written) => written.bytes() == bytes,
        Request::Wire(frame) => frame.bytes() == bytes,
        _ => true,
    }
}

/// What was replied, but for bytes.
#[inline]
pub fn kind_of(outcome: Outcome) -> ReplyKind
    ensures { result ≡ kind_of outcome }
{
    match outcome {
        Outcome::Refused(fault) => Reply::Refused(fault.number()),
        other => other.with((), 0),
    }
}
