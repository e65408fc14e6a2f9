//! A device of guests that come and go.
ghost use Rattle.std.specs.Prelude.{◌≡◌, ◌≤◌, ◌&&◌, true, false, [], is_some, nat_eq, nat_le, replicate, Some, Err, IfErr, IfOk};
ghost use Rattle.device.specs.World.{fresh_with};
ghost use Rattle.vfdev_c.specs.GuestDevices.{IsMadeGuests, can_make_guests};

use crate::blocks::Blocks;
use crate::card_held::{FRAME_BYTES, MOST_FRAMES, vacancies};
use crate::counts::VfdevCounts;
use crate::device_kind::DeviceKind;
use crate::handed::Handed;
use crate::lent_device::LentDevice;
use crate::reply::VfdevReply;
use crate::wanted::Wanted;
use device::Device;
use live_memory::Shared;
use live_run::Frames;
use mapped_memory::LiveMem;
use offload::Offloads;
use spare_memory::Spares;
use std::alloc::Global;
use std::marker::Model;
use wire_frame::Fault;

/// A device whose functions are vacant until a guest comes, with spare memories for those that come, room for frames that leave, and what
/// is known of the blocks that are mapped.
#[derive(Drop)]
pub struct GuestDevice {
    pub(crate) lent: LentDevice,
    pub(crate) spares: Spares<'static>,
    pub(crate) frames: Frames,
    pub(crate) blocks: Blocks,
}

impl Model for GuestDevice {
    ghost use Rattle.vfdev_c.specs.GuestDevices.{HeldGuests};

    ghost Value = { HeldGuests };

    ghost view = { λ g. record { device = g.lent; spares = g.spares; frames = g.frames; blocks = g.blocks } };
}

impl GuestDevice {
    /// A device of so many vacant functions, with the offloads of these flags. [`Fault::BadMake`] comes exactly where a number is outside its
    /// limits; [`Fault::NoMemory`] only where the host refused the room.
    pub fn new(
        alloc: Global,
        functions: u32,
        limit: u16,
        offloads: u32,
    ) -> Result<GuestDevice, Fault>
        ensures ok { IfOk result (IsMadeGuests functions limit offloads) }
        ensures bad_make { can_make_guests functions limit offloads ≡ false → result ≡ Err Fault.BadMake }
        ensures no_memory { IfErr result
            (λ e. can_make_guests functions limit offloads ≡ true → e ≡ Fault.NoMemory) }
    {
        let Some(offloads) = Offloads::from_bits(offloads) else {
            return Err(Fault::BadMake);
        };
        if functions < 1 || functions > 64 || limit < 1518 || limit > 9018 {
            return Err(Fault::BadMake);
        }
        let device = vacant(alloc, functions, limit, offloads)?;
        let spares = Spares::new(alloc)?;
        let frames = Frames::new(alloc, MOST_FRAMES, FRAME_BYTES)?;
        let blocks = Blocks::new(alloc)?;
        Ok(GuestDevice {
            lent: LentDevice::over(device),
            spares,
            frames,
            blocks,
        })
    }
}

impl DeviceKind for GuestDevice {
    ghost use Rattle.vfdev_c.specs.declared.handle_state.HandleState.TheVariants.{Guests};

    ghost held = { λ g. Some (Guests g) };

    #[inline(always)]
    fn give(&mut self, wanted: Wanted<'_>, out: &mut [u8]) -> Handed {
        self.lent.give(wanted, out)
    }

    fn counts(&self, function: u8, counts: &mut VfdevCounts) -> VfdevReply {
        self.lent.counts(function, counts)
    }

    fn unclaimed(&self) -> u32 {
        self.lent.unclaimed()
    }
}

// A device of vacant functions.
fn vacant(
    alloc: Global,
    functions: u32,
    limit: u16,
    offloads: Offloads,
) -> Result<Device<LiveMem<'static>, Shared>, Fault>
    requires least { 1 ≤ functions }
    requires most { functions ≤ 64 }
    requires shortest { 1518 ≤ limit }
    requires longest { limit ≤ 9018 }
    ensures made { IfOk result (λ d. d.world
        ≡ fresh_with (record { limit = limit; offloads = offloads }) (replicate functions 0)) }
    ensures untouched { IfOk result (λ d. d.accesses ≡ replicate functions []) }
    ensures no_memory { IfErr result (λ e. e ≡ Fault.NoMemory) }
{
    let memories = vacancies(alloc, functions)?;
    Device::for_guests(alloc, memories, limit, offloads)
}
