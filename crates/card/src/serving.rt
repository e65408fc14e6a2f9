//! Frames: what a function sends, and what comes from the wire; and the vectors that are raised by them.
ghost use Rattle.std.specs.Prelude.{◌≡◌, ℕ, ◌<◌, [], ◌∷◌, bit_and, length, nat_lt, slice_index, slice_set};
ghost use Rattle.wire_frame.specs.Bits.{has_bit};
ghost use Rattle.irq_causes.specs.Causes.{◌without◌};
ghost use Rattle.device.specs.Accesses.{accesses_by};
ghost use Rattle.device.specs.declared.event.Event.TheVariants.{Wire};
ghost use Rattle.device.specs.Live.{AreListed, AreMet, told_world};
ghost use Rattle.device.specs.World.{step};
ghost use Rattle.card.specs.Card.{LeavesAlone, end_at};
ghost use Rattle.card.specs.Life.{HasLived, HaveServed, Signals, live_deeds};
ghost use Rattle.live_run.specs.Arrivals.{arrivals};
ghost use Rattle.card.specs.Served.{ALL_VECTORS, AreServed, AreWired, IsServed, RaisedOrRefused, armed_set, is_busy, signalled, with_busy};
ghost use Rattle.card.specs.Wired.{HasLivedThrough};

use crate::card::{Card, End};
use device::{Queue, Room};
use irq_causes::Vectors;
use live_memory::Dma;
use live_run::Frames;
use vfio_session::Session;
use wire_frame::{Fault, Frame, PoolId, PoolSet};

/// How many descriptors of a transmit queue one call takes at most.
pub const MOST_SERVICES: usize = 128;

/// How many frames from the wire were taken, and how many refused.
#[derive(Clone, Copy, Debug, PartialEq, Eq)]
pub struct WireCount {
    /// How many frames the card took.
    pub taken: usize,
    /// How many were refused: those that are longer than the card's limit, and what is no frame.
    pub refused: usize,
}

impl<D: Dma<K>, K> Card<D, K> {
    /// Takes descriptors of a function's busy transmit queues, [`MOST_SERVICES`] of each at most, first those of queue 0, and tells whether
    /// one may have more. A frame that leaves for the wire stands behind those that are in `frames`; where these have no room for one, no
    /// descriptor is taken. Each frame is put together in `room`.
    pub fn more(&mut self, pool: PoolId, frames: &mut Frames, room: &mut Room) -> bool
        ensures served { AreServed D.shared pool self.old frames.old self.new frames.new }
        ensures lived { HaveServed D.shared pool self.old self.new }
        ensures busy { result ≡ is_busy (end_at self.new pool) }
    {
        self.raised.masks_are_small();
        self.serve_busy(pool, frames, room);
        self.is_busy(pool)
    }

    // Takes descriptors of the busy queues.
    fn serve_busy(&mut self, pool: PoolId, frames: &mut Frames, room: &mut Room)
        ensures served { AreServed D.shared pool self.old frames.old self.new frames.new }
        ensures ends { length self.old.ends ≡ 64 }
        ensures below { pool < 64 }
    {
        if self.ends[usize::from(pool.get())].busy_0 {
            self.serve(pool, Queue::Q0, frames, room);
        }
        if self.ends[usize::from(pool.get())].busy_1 {
            self.serve(pool, Queue::Q1, frames, room);
        }
    }

    /// Whether a transmit queue of a function may have descriptors that were not taken.
    pub fn is_busy(&self, pool: PoolId) -> bool
        ensures { result ≡ is_busy (end_at self.now pool) }
    {
        let end = &self.ends[usize::from(pool.get())];
        end.busy_0 || end.busy_1
    }

    // Takes descriptors of one queue.
    fn serve(&mut self, pool: PoolId, queue: Queue, frames: &mut Frames, room: &mut Room)
        ensures { IsServed D.shared pool queue self.old frames.old self.new frames.new }
    {
        let done = self
            .hosted
            .serve_burst(pool.get(), queue, MOST_SERVICES, frames, room);
        self.raised.unite(&done.messages);
        set_busy(&mut self.ends[usize::from(pool.get())], queue, done.goes_on);
    }

    /// Takes a frame from the wire, as [`HostedDevice::wire`](hosted::HostedDevice::wire) says. Refused where it is longer than the card's
    /// limit.
    pub fn wire(&mut self, frame: Frame<'_>) -> Result<(), Fault>
        ensures lived { HasLived (live_deeds self.old (Wire frame.entry.bytes.now ∷ [])
            (self.new.hosted.device.accesses ∷ [])) self.old self.new }
        ensures world { self.new.hosted.device.world
            ≡ (step (told_world self.old.hosted.device.accesses self.new.hosted.device.accesses
            self.old.hosted.device.world) (Wire frame.entry.bytes.now)).world }
        ensures answer { RaisedOrRefused result self.old.raised self.new.raised
            (step (told_world self.old.hosted.device.accesses self.new.hosted.device.accesses
            self.old.hosted.device.world) (Wire frame.entry.bytes.now)).answer }
        ensures listed { AreListed
            (accesses_by (told_world self.old.hosted.device.accesses
            self.new.hosted.device.accesses self.old.hosted.device.world) (Wire frame.entry.bytes.now))
            self.old.hosted.device.accesses self.new.hosted.device.accesses }
        ensures met { AreMet D.shared self.old.hosted.device.accesses
            self.new.hosted.device.accesses self.old.hosted.device.world }
        ensures host { self.new.hosted.host ≡ self.old.hosted.host }
        ensures mailboxes { self.new.hosted.mailboxes ≡ self.old.hosted.mailboxes }
        ensures ends { self.new.ends ≡ self.old.ends }
    {
        self.raised.masks_are_small();
        self.take_frame(frame)
    }

    // Takes it.
    fn take_frame(&mut self, frame: Frame<'_>) -> Result<(), Fault>
        ensures world { self.new.hosted.device.world
            ≡ (step (told_world self.old.hosted.device.accesses self.new.hosted.device.accesses
            self.old.hosted.device.world) (Wire frame.entry.bytes.now)).world }
        ensures answer { RaisedOrRefused result self.old.raised self.new.raised
            (step (told_world self.old.hosted.device.accesses self.new.hosted.device.accesses
            self.old.hosted.device.world) (Wire frame.entry.bytes.now)).answer }
        ensures listed { AreListed
            (accesses_by (told_world self.old.hosted.device.accesses
            self.new.hosted.device.accesses self.old.hosted.device.world) (Wire frame.entry.bytes.now))
            self.old.hosted.device.accesses self.new.hosted.device.accesses }
        ensures met { AreMet D.shared self.old.hosted.device.accesses
            self.new.hosted.device.accesses self.old.hosted.device.world }
        ensures host { self.new.hosted.host ≡ self.old.hosted.host }
        ensures mailboxes { self.new.hosted.mailboxes ≡ self.old.hosted.mailboxes }
        ensures ends { self.new.ends ≡ self.old.ends }
    {
        let messages = self.hosted.wire(frame)?;
        self.raised.unite(&messages);
        Ok(())
    }

    /// Takes frames from the wire one after another, as [`live_run::wire_burst`] says: they lie behind one another in `bytes`, and `ends`
    /// says where each ends. It means what as many calls of [`Card::wire`] mean; what these would refuse is passed over, and counted.
    pub fn wire_burst(&mut self, bytes: &[u8], ends: &[usize]) -> WireCount
        ensures wired { AreWired D.shared ends.now bytes.now self.old self.new result }
        ensures lived { HasLivedThrough D.shared (arrivals ends.now bytes.now) self.old self.new }
    {
        self.raised.masks_are_small();
        self.take_frames(bytes, ends)
    }

    // Takes them.
    fn take_frames(&mut self, bytes: &[u8], ends: &[usize]) -> WireCount
        ensures { AreWired D.shared ends.now bytes.now self.old self.new result }
    {
        let came = self.hosted.wire_burst(bytes, ends);
        self.raised.unite(&came.messages);
        WireCount {
            taken: came.taken,
            refused: came.refused,
        }
    }

    /// Hands out vectors of a function that wait: those that are named, and that have a file. Each of these files is to be written once. One
    /// that is named and has no file is not signalled, now or later; one that is not named goes on waiting. So a shell that keeps the
    /// messages of a vector apart names it once its rest is over ([`Card::interval`]), and one that doesn't names all three.
    #[tactic(auto, using(irq_causes::proofs::Bounds::and_below_eight, crate::proofs::Raised::all_named, crate::proofs::Raised::none_left, crate::proofs::Calls::signal_lives))]
    pub fn signal(&mut self, pool: PoolId, named: Vectors) -> Vectors
        ensures vectors { result ≡ signalled (bit_and (slice_index self.old.raised pool) named)
            (end_at self.old pool).session.armed }
        ensures lived { HasLived (Signals pool named ∷ []) self.old self.new }
        ensures raised { self.new.raised
            ≡ slice_set self.old.raised pool (slice_index self.old.raised pool without named) }
        // where all three are named, none waits any more
        ensures all_vectors { named ≡ ALL_VECTORS → result
            ≡ signalled (slice_index self.old.raised pool) (end_at self.old pool).session.armed }
        ensures all_raised { named ≡ ALL_VECTORS
            → self.new.raised ≡ slice_set self.old.raised pool 0 }
        ensures hosted { self.new.hosted ≡ self.old.hosted }
        ensures ends { self.new.ends ≡ self.old.ends }
        ensures others { LeavesAlone pool self.old self.new }
    {
        let waiting = self.raised.to(pool);
        self.raised
            .set(pool, Vectors::from_bits(waiting.bits() & !named.bits()));
        let armed = armed_set(&self.ends[usize::from(pool.get())].session);
        Vectors::from_bits(waiting.bits() & named.bits() & armed)
    }

    /// The functions of which vectors were raised that were not handed out.
    pub fn raised(&self) -> PoolSet
        ensures { (p : ℕ) → p < 64 → has_bit result p ≡ nat_lt 0 (slice_index self.now.raised p) }
    {
        self.raised.pools()
    }
}

// A queue may have more descriptors, or it may not.
fn set_busy(end: &mut End, queue: Queue, is_busy: bool)
    ensures { end.new ≡ with_busy end.old queue is_busy }
{
    match queue {
        Queue::Q0 => end.busy_0 = is_busy,
        Queue::Q1 => end.busy_1 = is_busy,
    }
}

// The vectors that have a file.
fn armed_set(session: &Session) -> u8
    ensures value { result ≡ armed_set session.now.armed }
    ensures below { result < 8 }
{
    u8::from(session.is_armed(0))
        + 2 * u8::from(session.is_armed(1))
        + 4 * u8::from(session.is_armed(2))
}
