//! What a handle leads to.
ghost use Rattle.std.specs.Prelude.{◌≡◌, ◌≤◌, ◌↔◌, IsTrue, length, Some};
ghost use Rattle.device.specs.Events.{Event};
ghost use Rattle.device.specs.declared.event.Event.TheVariants.{MemRead};
ghost use Rattle.device.specs.World.{World, step, answers, world_after};
ghost use Rattle.history.specs.Entries.{events, given};
ghost use Rattle.vfdev_c.specs.declared.handle_state.HandleState.TheVariants.{Made};
ghost use Rattle.vfdev_c.specs.Handle.{IsolatedStep};
ghost use Rattle.vfdev_c.specs.Wanted.{Hands};

use crate::card_held::CardHeld;
use crate::counts::{VfdevCounts, count};
use crate::device_kind::DeviceKind;
use crate::guest_device::GuestDevice;
use crate::handed::Handed;
use crate::lending::LentBlocks;
use crate::lent_device::LentDevice;
use crate::recorder::Recorder;
use crate::reply::VfdevReply;
use crate::wanted::Wanted;
use device::bytes::MOST_BYTES;
use device::laws::isolation;
use device::{Device, Room};
use guest_memory::FlatMem;
use history::History;
use live_memory::Dma;
use local_switch::Source;
use std::marker::Model;

/// How long a frame may be, in bytes.
pub const MOST_FRAME: usize = 9018;

/// What a handle leads to, where it leads to anything.
#[derive(Drop)]
pub enum HandleState {
    /// Memories that were lent for a device that is not made yet.
    Lending(LentBlocks),
    /// A device.
    Made(Running),
    /// A device whose calls are kept.
    Kept(Recorder),
    /// A device over blocks that guests write meanwhile.
    Lent(LentDevice),
    /// A card.
    Card(CardHeld),
    /// A device of guests that come and go.
    Guests(GuestDevice),
}

/// A device, with room for what its events send and read.
#[derive(Drop)]
pub struct Running {
    device: Device<FlatMem>,
    room: Room,
}

impl Model for Running {
    ghost use Rattle.device.specs.World.{World};

    ghost Value = { World };

    ghost view = { λ r. r.device.world };
}

impl Running {
    /// The device.
    pub fn of(device: Device<FlatMem>) -> Running
        ensures { result ≡ device.world }
    {
        Running {
            device,
            room: Room::new(),
        }
    }

    /// Takes it through the calls of a history, and tells whether it gave their answers.
    pub fn replays(&mut self, history: &History) -> bool
        ensures world { self.new ≡ world_after self.old (events history.now.entries) }
        ensures same { IsTrue result
            ↔ (answers self.old (events history.now.entries) ≡ given history.now.entries) }
    {
        history.gives_all(&mut self.device)
    }

    // Reads a guest's memory straight into the caller's bytes, which are no more than one access may name.
    #[inline(always)]
    fn read(&self, function: u8, at: u64, out: &mut [u8]) -> Handed
        requires { length out.old ≤ 2048 }
        ensures { Hands (Some (Made self.now)) (MemRead function at (length out.old)) (Some (Made self.now)) result out.old out.new }
    {
        isolates(&self.device);
        Handed::none(VfdevReply::read(self.device.mem_read(function, at, out)))
    }
}

impl DeviceKind for Running {
    ghost use Rattle.vfdev_c.specs.declared.handle_state.HandleState.TheVariants.{Made};

    ghost held = { λ w. Some (Made w) };

    #[inline(always)]
    fn give(&mut self, wanted: Wanted<'_>, out: &mut [u8]) -> Handed {
        if let Wanted::Read(function, at, count) = wanted {
            if count == out.len() && count <= MOST_BYTES {
                return self.read(function, at, out);
            }
        }
        isolates(&self.device);
        let request = wanted.as_request();
        let response = self.device.take(request, &mut self.room);
        Handed::of(&response, &self.room, out)
    }

    fn counts(&self, function: u8, counts: &mut VfdevCounts) -> VfdevReply {
        count(&self.device, function, counts)
    }

    fn unclaimed(&self) -> u32 {
        self.device.unclaimed(Source::Wire)
    }
}

// To each function an event is as if it were alone, in whatever world of as many functions.
#[inline]
#[tactic(auto, unfolding(crate::specs::Handle::IsolatedStep))]
pub(crate) fn isolates<D: Dma<K>, K>(device: &Device<D, K>)
    ensures { (w : World) (e : Event) → length w.functions ≡ length device.now.world.functions
        → IsolatedStep w e (step w e).world }
{
    let count = device.functions();
    prove!(count <= 64);
    isolation();
}
