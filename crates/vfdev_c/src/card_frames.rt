//! Frames and interrupts of a card.
ghost use Rattle.std.specs.Prelude.{◌≡◌, false};
ghost use Rattle.card.specs.Card.{LeavesAlone};
ghost use Rattle.vfdev_c.specs.CardCalls.{AreRaised, OnCard, OthersStay, Serves, Signals, SignalsSome, Wires, WiresAll, busy_at, shortfalls_at, frame_at, interval_at, none_more, none_wired, of_card, vector_numbered};
ghost use Rattle.vfdev_c.specs.Handle.{frame_in, length_in, no_device};

use crate::card_held::CardHeld;
use crate::handle::Vfdev;
use crate::left::lay_left;
use crate::on_card::on_card;
use crate::reply::VfdevReply;
use crate::wired::VfdevWired;
use irq_causes::Vectors;
use std::alloc::Global;
use vf_unit::Vector;
use wire_frame::{Fault, Frame, FrameLimit, PoolId};

/// What came of descriptors that were taken, as C sees it.
#[repr(C)]
#[derive(Clone, Copy, Debug, PartialEq, Eq)]
pub struct VfdevCardMore {
    /// How many frames left for the wire.
    pub frames: usize,
    /// 1 where a queue may have more.
    pub goes_on: u32,
}

/// Takes descriptors of a function's busy transmit queues.
#[unsafe(no_mangle)]
pub extern "C" fn vfdev_card_more(alloc: Global, handle: &mut Vfdev, function: u8) -> VfdevCardMore
    ensures called { OnCard none_more (Serves function) handle.old.owner.held handle.new.owner.held result }
{
    on_card!(handle, alloc, VfdevCardMore::none(), held => held.more(function))
}

/// A frame of those that left at the last [`vfdev_card_more`].
#[unsafe(no_mangle)]
pub extern "C" fn vfdev_card_frame(
    alloc: Global,
    handle: &mut Vfdev,
    number: u32,
    out: &mut [u8],
) -> usize
    ensures handle { handle.new.owner.held ≡ handle.old.owner.held }
    ensures length { result ≡ of_card handle.old.owner.held 0 (λ c. length_in (frame_at number out.old c)) }
    ensures bytes { out.new ≡ of_card handle.old.owner.held out.old (λ c. frame_in (frame_at number out.old c) out.old) }
{
    on_card!(handle, alloc, 0, held => held.frame_of(number, out))
}

/// Whether a transmit queue of the function may have descriptors that were not taken.
#[unsafe(no_mangle)]
pub extern "C" fn vfdev_card_is_busy(alloc: Global, handle: &mut Vfdev, function: u8) -> bool
    ensures handle { handle.new.owner.held ≡ handle.old.owner.held }
    ensures busy { result ≡ of_card handle.old.owner.held false (busy_at function) }
{
    on_card!(handle, alloc, false, held => held.is_busy(function))
}

/// How often something that the function's driver left to the card could not be done, modulo 2^32.
#[unsafe(no_mangle)]
pub extern "C" fn vfdev_card_shortfalls(alloc: Global, handle: &mut Vfdev, function: u8) -> u32
    ensures handle { handle.new.owner.held ≡ handle.old.owner.held }
    ensures count { result ≡ of_card handle.old.owner.held 0 (shortfalls_at function) }
{
    on_card!(handle, alloc, 0, held => held.shortfalls(function))
}

/// A frame comes from the wire.
#[unsafe(no_mangle)]
pub extern "C" fn vfdev_card_wire(alloc: Global, handle: &mut Vfdev, frame: &[u8]) -> VfdevReply
    ensures called { OnCard no_device (Wires frame.now) handle.old.owner.held handle.new.owner.held result }
{
    on_card!(handle, alloc, VfdevReply::no_device(), held => held.wire(frame))
}

/// Frames come from the wire, one after another. They lie behind one another in the bytes: the first begins at 0, each other where the one
/// before it ends. What the card refuses is passed over.
#[unsafe(no_mangle)]
pub extern "C" fn vfdev_card_wire_burst(
    alloc: Global,
    handle: &mut Vfdev,
    bytes: &[u8],
    ends: &[usize],
) -> VfdevWired
    ensures called { OnCard none_wired (WiresAll ends.now bytes.now) handle.old.owner.held handle.new.owner.held result }
{
    on_card!(handle, alloc, VfdevWired::none(), held => held.wire_burst(bytes, ends))
}

/// The functions that have vectors which were raised and not handed out.
#[unsafe(no_mangle)]
pub extern "C" fn vfdev_card_raised(alloc: Global, handle: &mut Vfdev) -> u64
    ensures handle { handle.new.owner.held ≡ handle.old.owner.held }
    ensures raised { AreRaised handle.old.owner.held result }
{
    on_card!(handle, alloc, 0, held => held.card.raised().bits())
}

/// Hands out the vectors of a function that were raised since the last time and have a file.
#[unsafe(no_mangle)]
pub extern "C" fn vfdev_card_signal(alloc: Global, handle: &mut Vfdev, function: u8) -> u32
    ensures called { OnCard 0 (Signals function) handle.old.owner.held handle.new.owner.held result }
    ensures others { OthersStay function handle.old.owner.held handle.new.owner.held }
{
    on_card!(handle, alloc, 0, held => held.signal(function))
}

/// Hands out those of them that the low bits name; the others go on waiting.
#[unsafe(no_mangle)]
pub extern "C" fn vfdev_card_signal_some(
    alloc: Global,
    handle: &mut Vfdev,
    function: u8,
    vectors: u32,
) -> u32
    ensures called { OnCard 0 (SignalsSome function vectors) handle.old.owner.held handle.new.owner.held result }
    ensures others { OthersStay function handle.old.owner.held handle.new.owner.held }
{
    on_card!(handle, alloc, 0, held => held.signal_some(function, vectors))
}

/// How many microseconds apart a function's driver wants the messages of a vector to be at least.
#[unsafe(no_mangle)]
pub extern "C" fn vfdev_card_interval(
    alloc: Global,
    handle: &mut Vfdev,
    function: u8,
    vector: u32,
) -> u32
    ensures handle { handle.new.owner.held ≡ handle.old.owner.held }
    ensures interval { result ≡ of_card handle.old.owner.held 0 (interval_at function vector) }
{
    on_card!(handle, alloc, 0, held => held.interval(function, vector))
}

impl VfdevCardMore {
    fn none() -> VfdevCardMore
        ensures { result ≡ none_more }
    {
        VfdevCardMore {
            goes_on: 0,
            frames: 0,
        }
    }
}

impl CardHeld {
    // Takes descriptors.
    fn more(&mut self, function: u8) -> VfdevCardMore
        ensures { Serves function self.old self.new result }
    {
        self.frames.clear();
        let Some(pool) = PoolId::new(function) else {
            return VfdevCardMore::none();
        };
        let goes_on = self.card.more(pool, &mut self.frames, &mut self.room);
        VfdevCardMore {
            goes_on: u32::from(goes_on),
            frames: self.frames.len(),
        }
    }

    // A frame that left.
    fn frame_of(&self, number: u32, out: &mut [u8]) -> usize
        ensures length { result ≡ length_in (frame_at number out.old self.now) }
        ensures bytes { out.new ≡ frame_in (frame_at number out.old self.now) out.old }
    {
        lay_left(&self.frames, number, out)
    }

    fn is_busy(&self, function: u8) -> bool
        ensures { result ≡ busy_at function self.now }
    {
        match PoolId::new(function) {
            Some(pool) => self.card.is_busy(pool),
            None => false,
        }
    }

    fn shortfalls(&self, function: u8) -> u32
        ensures { result ≡ shortfalls_at function self.now }
    {
        match PoolId::new(function) {
            Some(pool) => self.card.counts(pool).shortfalls,
            None => 0,
        }
    }

    // A frame from the wire.
    fn wire(&mut self, bytes: &[u8]) -> VfdevReply
        ensures { Wires bytes.now self.old self.new result }
    {
        let Ok(frame) = Frame::new(bytes, FrameLimit::longest()) else {
            return VfdevReply::refused(Fault::BadFrame);
        };
        match self.card.wire(frame) {
            Ok(()) => VfdevReply::done(),
            Err(fault) => VfdevReply::refused(fault),
        }
    }

    // Frames from the wire.
    fn wire_burst(&mut self, bytes: &[u8], ends: &[usize]) -> VfdevWired
        ensures { WiresAll ends.now bytes.now self.old self.new result }
    {
        let came = self.card.wire_burst(bytes, ends);
        VfdevWired {
            taken: came.taken,
            refused: came.refused,
        }
    }

    fn signal(&mut self, function: u8) -> u32
        ensures called { Signals function self.old self.new result }
        ensures others { LeavesAlone function self.old.card self.new.card }
    {
        match PoolId::new(function) {
            Some(pool) => u32::from(self.card.signal(pool, Vectors::from_bits(7)).bits()),
            None => 0,
        }
    }

    fn signal_some(&mut self, function: u8, vectors: u32) -> u32
        ensures called { SignalsSome function vectors self.old self.new result }
        ensures others { LeavesAlone function self.old.card self.new.card }
    {
        match PoolId::new(function) {
            Some(pool) => u32::from(
                self.card
                    .signal(pool, Vectors::from_bits((vectors % 8) as u8))
                    .bits(),
            ),
            None => 0,
        }
    }

    fn interval(&self, function: u8, vector: u32) -> u32
        ensures { result ≡ interval_at function vector self.now }
    {
        let Some(pool) = PoolId::new(function) else {
            return 0;
        };
        match vector_numbered(vector) {
            Some(vector) => u32::from(self.card.interval(pool, vector)),
            None => 0,
        }
    }
}

// A vector by its number.
fn vector_numbered(number: u32) -> Option<Vector>
    ensures { result ≡ vector_numbered number }
{
    match number {
        0 => Some(Vector::V0),
        1 => Some(Vector::V1),
        2 => Some(Vector::V2),
        _ => None,
    }
}
