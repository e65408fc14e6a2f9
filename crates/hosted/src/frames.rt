//! Frames: what a function sends, and what comes from the wire.
ghost use Rattle.std.specs.Prelude.{◌≡◌, ◌≤◌, ◌⊎◌, true, false};
ghost use Rattle.device.specs.Accesses.{accesses_by};
ghost use Rattle.device.specs.declared.event.Event.TheVariants.{Serve, Wire};
ghost use Rattle.device.specs.Live.{AreListed, AreMet, TakesLive, told_world};
ghost use Rattle.device.specs.Outcome.{messages_or_refused};
ghost use Rattle.device.specs.World.{step};
ghost use Rattle.live_run.specs.Arrivals.{IsWireBurst};
ghost use Rattle.live_run.specs.Bursts.{IsBurst};
ghost use Rattle.live_run.specs.Frames.{has_room};

use crate::hosted::HostedDevice;
use device::{Queue, Response, Room};
use irq_causes::Messages;
use live_memory::Dma;
use live_run::{Burst, Frames, WireBurst, serve_burst, wire_burst};
use wire_frame::{Fault, Frame};

impl<D: Dma<K>, K> HostedDevice<D, K> {
    /// Takes the next descriptor of a transmit queue, as [`Device::serve_live`](device::Device::serve_live) says.
    pub fn serve(&mut self, pool: u8, queue: Queue, room: &mut Room) -> Response
        ensures takes { TakesLive D.shared self.old.device.accesses self.new.device.accesses
            self.old.device.world (Serve pool queue) self.new.device.world result room.new }
        ensures listed { AreListed
            (accesses_by (told_world self.old.device.accesses self.new.device.accesses
            self.old.device.world) (Serve pool queue))
            self.old.device.accesses self.new.device.accesses }
        ensures host { self.new.host ≡ self.old.host }
        ensures mailboxes { self.new.mailboxes ≡ self.old.mailboxes }
    {
        self.device.serve_live(pool, queue, room)
    }

    /// Takes a frame from the wire, as [`Device::wire_live`](device::Device::wire_live) says.
    pub fn wire(&mut self, frame: Frame<'_>) -> Result<Messages, Fault>
        ensures world { self.new.device.world
            ≡ (step (told_world self.old.device.accesses self.new.device.accesses
            self.old.device.world) (Wire frame.entry.bytes.now)).world }
        ensures answer { messages_or_refused result
            ≡ (step (told_world self.old.device.accesses self.new.device.accesses
            self.old.device.world) (Wire frame.entry.bytes.now)).answer }
        ensures listed { AreListed
            (accesses_by (told_world self.old.device.accesses self.new.device.accesses
            self.old.device.world) (Wire frame.entry.bytes.now))
            self.old.device.accesses self.new.device.accesses }
        ensures met { AreMet D.shared self.old.device.accesses self.new.device.accesses
            self.old.device.world }
        ensures host { self.new.host ≡ self.old.host }
        ensures mailboxes { self.new.mailboxes ≡ self.old.mailboxes }
    {
        self.device.wire_live(frame)
    }

    /// Takes frames from the wire one after another, as [`live_run::wire_burst`] says.
    pub fn wire_burst(&mut self, bytes: &[u8], ends: &[usize]) -> WireBurst
        ensures burst { IsWireBurst D.shared self.old.device ends.now bytes.now
            self.new.device result }
        ensures host { self.new.host ≡ self.old.host }
        ensures mailboxes { self.new.mailboxes ≡ self.old.mailboxes }
    {
        wire_burst(&mut self.device, bytes, ends)
    }

    /// Takes descriptors of a transmit queue one after another, as [`live_run::serve_burst`] says: `most` at most.
    pub fn serve_burst(
        &mut self,
        pool: u8,
        queue: Queue,
        most: usize,
        frames: &mut Frames,
        room: &mut Room,
    ) -> Burst
        ensures burst { IsBurst D.shared pool queue self.old.device frames.old
            self.new.device frames.new result }
        ensures most { result.taken ≤ most }
        ensures why { result.goes_on ≡ true
            → (result.taken ≡ most) ⊎ (has_room frames.new ≡ false) }
        ensures host { self.new.host ≡ self.old.host }
        ensures mailboxes { self.new.mailboxes ≡ self.old.mailboxes }
    {
        serve_burst(&mut self.device, pool, queue, most, frames, room)
    }
}
