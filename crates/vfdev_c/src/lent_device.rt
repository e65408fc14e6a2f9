//! A device over blocks that guests write while it works on them.
ghost use Rattle.std.specs.Prelude.{◌≡◌, ◌≤◌, ◌⊎◌, ◌&&◌, true, false, map, length, Some, Err, IfOk, IfErr};
ghost use Rattle.device.specs.declared.event.Event.TheVariants.{MemRead};
ghost use Rattle.device.specs.World.{fresh, is_frame_limit, is_makeable};
ghost use Rattle.live_run.specs.Arrivals.{IsWireBurst};
ghost use Rattle.live_run.specs.Bursts.{IsBurst};
ghost use Rattle.live_run.specs.Frames.{has_room};
ghost use Rattle.vfdev_c.specs.LentWorld.{untouched};
ghost use Rattle.vfdev_c.specs.Wanted.{Hands};
ghost use Rattle.vfdev_c.specs.declared.handle_state.HandleState.TheVariants.{Lent};

use crate::counts::{VfdevCounts, count};
use crate::device_kind::DeviceKind;
use crate::handed::Handed;
use crate::handle_state::isolates;
use crate::reply::VfdevReply;
use crate::wanted::Wanted;
use device::bytes::MOST_BYTES;
use device::{Device, Queue, Room};
use live_memory::Shared;
use live_run::{Burst, Frames, WireBurst, serve_burst, wire_burst};
use local_switch::Source;
use mapped_memory::LiveMem;
use std::alloc::Global;
use std::marker::Model;
use wire_frame::Fault;

/// A device over blocks that guests write while it works on them, with room for what its events send and read. A contract sees its world,
/// and all that it read and wrote of each function's memory since it was made, in order.
#[derive(Drop)]
pub struct LentDevice {
    pub(crate) device: Device<LiveMem<'static>, Shared>,
    room: Room,
}

impl Model for LentDevice {
    ghost use Rattle.device.specs.Live.{TracedWorld};

    ghost Value = { TracedWorld };

    ghost view = { λ d. d.device };
}

impl LentDevice {
    /// A device of closed functions, each over one of the memories. [`Fault::BadMake`] comes exactly where there are none or more than
    /// 64, one has a size outside the limits, or the limit is not 1518 to 9018; [`Fault::NoMemory`] only where the host refused the room.
    pub fn new(
        alloc: Global,
        memories: Vec<LiveMem<'static>>,
        limit: u16,
    ) -> Result<LentDevice, Fault>
        ensures ok { IfOk result
            (λ d. d ≡ untouched (fresh limit (map (λ m. length m.seen) memories.entry.items))
            (map (λ m. m.accesses) memories.entry.items)) }
        ensures bad_make { (is_frame_limit limit && is_makeable (map (λ m. length m.seen) memories.entry.items)) ≡ false
            → result ≡ Err Fault.BadMake }
        ensures no_memory { IfErr result
            (λ e.
            (is_frame_limit limit && is_makeable (map (λ m. length m.seen) memories.entry.items))
            ≡ true → e ≡ Fault.NoMemory) }
    {
        let device = Device::with_limit(alloc, memories, limit)?;
        Ok(LentDevice::over(device))
    }

    /// The device.
    pub fn over(device: Device<LiveMem<'static>, Shared>) -> LentDevice
        ensures { result ≡ device.entry }
    {
        LentDevice {
            device,
            room: Room::new(),
        }
    }
}

impl LentDevice {
    // Takes descriptors of a transmit queue one after another.
    pub(crate) fn serve_burst(
        &mut self,
        function: u8,
        queue: Queue,
        most: usize,
        frames: &mut Frames,
    ) -> Burst
        ensures burst { IsBurst true function queue self.old frames.old self.new frames.new result }
        ensures most { result.taken ≤ most }
        ensures why { result.goes_on ≡ true → (result.taken ≡ most) ⊎ (has_room frames.new ≡ false) }
    {
        let LentDevice { device, room } = self;
        serve_burst(device, function, queue, most, frames, room)
    }

    // Takes frames from the wire one after another.
    pub(crate) fn wire_burst(&mut self, bytes: &[u8], ends: &[usize]) -> WireBurst
        ensures { IsWireBurst true self.old ends.now bytes.now self.new result }
    {
        wire_burst(&mut self.device, bytes, ends)
    }

    // Reads a guest's memory straight into the caller's bytes, which are no more than one access may name.
    #[inline(always)]
    fn read(&mut self, function: u8, at: u64, out: &mut [u8]) -> Handed
        requires { length out.old ≤ 2048 }
        ensures { Hands (Some (Lent self.old)) (MemRead function at (length out.old)) (Some (Lent self.new)) result out.old out.new }
    {
        isolates(&self.device);
        Handed::none(VfdevReply::read(self.device.mem_read_live(function, at, out)))
    }
}

impl DeviceKind for LentDevice {
    ghost use Rattle.vfdev_c.specs.declared.handle_state.HandleState.TheVariants.{Lent};

    ghost held = { λ l. Some (Lent l) };

    #[inline(always)]
    fn give(&mut self, wanted: Wanted<'_>, out: &mut [u8]) -> Handed {
        if let Wanted::Read(function, at, count) = wanted {
            if count == out.len() && count <= MOST_BYTES {
                return self.read(function, at, out);
            }
        }
        isolates(&self.device);
        let request = wanted.as_request();
        let response = self.device.take_live(request, &mut self.room);
        Handed::of(&response, &self.room, out)
    }

    fn counts(&self, function: u8, counts: &mut VfdevCounts) -> VfdevReply {
        count(&self.device, function, counts)
    }

    fn unclaimed(&self) -> u32 {
        self.device.unclaimed(Source::Wire)
    }
}
