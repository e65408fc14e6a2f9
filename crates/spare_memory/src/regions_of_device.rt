//! Regions of the memory of a guest that uses a device without a card.
ghost use Rattle.std.specs.Prelude.{◌≡◌, length, None, Some, IfErr, IfOk, OnErr, OnOk};
ghost use Rattle.vf_unit.specs.Guests.{IsFormer};
ghost use Rattle.device.specs.Guests.{replace_refusal};
ghost use Rattle.device.specs.World.{function_of};
ghost use Rattle.spare_memory.specs.Devices.{IsDeviceOver, IsDeviceRemapped};
ghost use Rattle.spare_memory.specs.Refused.{IsWhy, no_guest, or_not_there, without_place};

use crate::regions::{NotMapped, map_in, why_not};
use crate::spares::Spares;
use device::{Device, NotTaken};
use live_memory::Shared;
use mapped_memory::LiveMem;
use wire_frame::PoolId;

impl<'a> Spares<'a> {
    /// Maps a region of the memory of a device's guest, as [`LiveMem::map`](mapped_memory::LiveMem::map) says. Where it can't be mapped, its
    /// bytes are the caller's again. Nothing that the device knows changes. That the region is then there is `LiveMem`'s word, and no clause
    /// of this call: a device's functions have bytes, and no regions.
    #[tactic(auto, using(crate::proofs::Devices::back_again, crate::proofs::Remapped::stays_there))]
    pub fn map_in_device(
        &mut self,
        device: &mut Device<LiveMem<'a>, Shared>,
        pool: PoolId,
        at: u64,
        cells: &'a mut [u8],
        is_read_only: bool,
    ) -> Result<(), NotMapped>
        ensures place { OnOk result (without_place (no_guest device.old.world pool) at (length cells.old) ≡ None) }
        ensures why { IfErr result (λ why. IsWhy (without_place (no_guest device.old.world pool) at (length cells.old)) why) }
        ensures device { IsDeviceRemapped pool device.old device.new }
        ensures spares { self.new ≡ self.old }
    {
        let Some(stand_in) = self.stand_in.pop() else {
            unreachable!()
        };
        match taken_out_of_device(device, pool, stand_in) {
            Ok(mut memory) => {
                let mapped = map_in(&mut memory, at, cells, is_read_only);
                self.stand_in
                    .push_reserved(put_back_into_device(device, pool, memory));
                mapped
            }
            Err(refused) => {
                self.stand_in.push_reserved(refused.memory);
                Err(why_not(refused.why))
            }
        }
    }

    /// Unmaps the region of the memory of a device's guest that begins at an address, as
    /// [`LiveMem::unmap`](mapped_memory::LiveMem::unmap) says, and gives its bytes back. Nothing that the device knows changes.
    #[tactic(auto, using(crate::proofs::Devices::back_again, crate::proofs::Remapped::stays_there))]
    pub fn unmap_in_device(
        &mut self,
        device: &mut Device<LiveMem<'a>, Shared>,
        pool: PoolId,
        at: u64,
    ) -> Result<&'a mut [u8], NotMapped>
        ensures there { OnOk result (no_guest device.old.world pool ≡ None) }
        ensures why { IfErr result (λ why. why ≡ or_not_there (no_guest device.old.world pool)) }
        ensures device { IsDeviceRemapped pool device.old device.new }
        ensures spares { self.new ≡ self.old }
    {
        let Some(stand_in) = self.stand_in.pop() else {
            unreachable!()
        };
        match taken_out_of_device(device, pool, stand_in) {
            Ok(mut memory) => {
                let cells = memory.unmap(at);
                self.stand_in
                    .push_reserved(put_back_into_device(device, pool, memory));
                cells.ok_or(NotMapped::NotThere)
            }
            Err(refused) => {
                self.stand_in.push_reserved(refused.memory);
                Err(why_not(refused.why))
            }
        }
    }
}

// A guest's memory out of the device, in which the spare one stands in its place.
#[tactic(auto, using(crate::proofs::Remapped::not_touched))]
fn taken_out_of_device<'a>(
    device: &mut Device<LiveMem<'a>, Shared>,
    pool: PoolId,
    stand_in: LiveMem<'a>,
) -> Result<LiveMem<'a>, NotTaken<LiveMem<'a>>>
    ensures taken { OnOk result (replace_refusal device.old.world pool (length stand_in.entry.seen) ≡ None) }
    ensures over { OnOk result (IsDeviceOver pool device.old stand_in.entry.seen device.new) }
    ensures former { IfOk result (λ memory. IsFormer (function_of pool device.old.world) memory.seen) }
    ensures size { IfOk result (λ memory. length memory.seen ≡ length stand_in.entry.seen) }
    ensures why { IfErr result (λ refused.
        replace_refusal device.old.world pool (length stand_in.entry.seen) ≡ Some refused.why) }
    ensures given_back { IfErr result (λ refused. refused.memory ≡ stand_in.entry) }
    ensures unchanged { OnErr result (device.new ≡ device.old) }
{
    let former = device.replace_memory(pool.get(), stand_in)?;
    Ok(former.into_memory())
}

// The memory in its place again, for the spare one.
#[tactic(auto, using(crate::proofs::Remapped::not_touched))]
fn put_back_into_device<'a>(
    device: &mut Device<LiveMem<'a>, Shared>,
    pool: PoolId,
    memory: LiveMem<'a>,
) -> LiveMem<'a>
    requires { replace_refusal device.old.world pool (length memory.seen) ≡ None }
    ensures over { IsDeviceOver pool device.old memory.entry.seen device.new }
    ensures size { length result.seen ≡ length memory.entry.seen }
{
    match device.replace_memory(pool.get(), memory) {
        Ok(former) => former.into_memory(),
        Err(_) => unreachable!(),
    }
}
