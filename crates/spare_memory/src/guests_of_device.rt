//! Guests that come to a device without a card, and go.
ghost use Rattle.std.specs.Prelude.{◌≡◌, [], ◌||◌, true, false, nat_eq, not, slice_index, slice_set, set, replicate, Some, None, IfErr, OnErr, OnOk};
ghost use Rattle.wire_frame.specs.declared.fault.Fault.{Fault};
ghost use Rattle.vf_unit.specs.Unit.{size_of};
ghost use Rattle.device.specs.Guests.{attach_refusal, attached, detached, is_vacant};
ghost use Rattle.device.specs.World.{function_of};
ghost use Rattle.spare_memory.specs.Devices.{LeavesTheOthers};

use crate::guests::for_next;
use crate::spares::Spares;
use device::Device;
use live_memory::{Dma, Shared};
use mapped_memory::LiveMem;
use std::mem::replace;
use wire_frame::{Fault, PoolId};

impl<'a> Spares<'a> {
    /// A guest comes to a vacant function of a device: it has as many addresses as the spare memory, of which none is mapped, and else all
    /// is as [`Device::attach`](device::Device::attach) says. Where the guest is refused, nothing changes.
    ///
    /// [`Fault::NoSuchVf`], then [`Fault::AlreadyOpen`] where the function isn't vacant.
    #[tactic(auto, using(crate::proofs::Exchanged::sizes_exchanged, crate::proofs::Exchanged::sizes_back, crate::proofs::Exchanged::all_exchanged, crate::proofs::Devices::came_alone, crate::proofs::Devices::stays_alone))]
    pub fn attach_to_device(
        &mut self,
        device: &mut Device<LiveMem<'a>, Shared>,
        pool: PoolId,
    ) -> Result<(), Fault>
        ensures taken { OnOk result (attach_refusal device.old.world pool (slice_index self.old pool) ≡ None) }
        ensures why { IfErr result (λ why. attach_refusal device.old.world pool (slice_index self.old pool) ≡ Some why) }
        ensures came { OnOk result
            (device.new.world ≡ attached device.old.world pool (replicate (slice_index self.old pool) 0)) }
        ensures untouched { OnOk result (device.new.accesses ≡ set device.old.accesses pool []) }
        ensures others { LeavesTheOthers pool device.old device.new }
        ensures exchanged { OnOk result (self.new ≡ slice_set self.old pool 0) }
        ensures unchanged { OnErr result ((device.new ≡ device.old) × (self.new ≡ self.old)) }
    {
        let place = usize::from(pool.get());
        let Some(stand_in) = self.stand_in.pop() else {
            unreachable!()
        };
        let memory = replace(&mut self.memories[place], stand_in);
        match device.attach(pool.get(), memory) {
            Ok(vacancy) => {
                let stand_in = replace(&mut self.memories[place], vacancy.renewed());
                self.stand_in.push_reserved(stand_in);
                Ok(())
            }
            Err(refused) => {
                let stand_in = replace(&mut self.memories[place], refused.memory);
                self.stand_in.push_reserved(stand_in);
                Err(refused.why)
            }
        }
    }

    /// A guest of a device goes, as [`Device::detach`](device::Device::detach) says. None of its regions is mapped any more, and nothing of
    /// its memory is left for the next guest. [`Fault::NotOpen`], and nothing changes, exactly where the function is vacant or there is none;
    /// or where the spare memory has bytes, which only a vacant function's has.
    #[tactic(auto, using(crate::proofs::Exchanged::sizes_exchanged, crate::proofs::Exchanged::sizes_back, crate::proofs::Exchanged::all_exchanged, crate::proofs::Exchanged::former_size, crate::proofs::Devices::went_alone, crate::proofs::Devices::stays_alone))]
    pub fn detach_from_device(
        &mut self,
        device: &mut Device<LiveMem<'a>, Shared>,
        pool: PoolId,
    ) -> Result<(), Fault>
        ensures went { OnOk result (device.new.world ≡ detached device.old.world pool) }
        ensures untouched { OnOk result (device.new.accesses ≡ set device.old.accesses pool []) }
        ensures others { LeavesTheOthers pool device.old device.new }
        ensures exchanged { OnOk result (self.new
            ≡ slice_set self.old pool (size_of (function_of pool device.old.world))) }
        ensures why { IfErr result (λ why. (why ≡ Fault.NotOpen)
            × ((is_vacant device.old.world pool || not (nat_eq (slice_index self.old pool) 0)) ≡ true)) }
        ensures there { OnOk result
            ((is_vacant device.old.world pool || not (nat_eq (slice_index self.old pool) 0)) ≡ false) }
        ensures unchanged { OnErr result ((device.new ≡ device.old) × (self.new ≡ self.old)) }
    {
        let place = usize::from(pool.get());
        if self.memories[place].extent() > 0 {
            return Err(Fault::NotOpen);
        }
        let Some(stand_in) = self.stand_in.pop() else {
            unreachable!()
        };
        let vacancy = replace(&mut self.memories[place], stand_in);
        match device.detach(pool.get(), vacancy) {
            Ok(former) => {
                let stand_in = replace(&mut self.memories[place], for_next(former));
                self.stand_in.push_reserved(stand_in);
                Ok(())
            }
            Err(vacancy) => {
                let stand_in = replace(&mut self.memories[place], vacancy);
                self.stand_in.push_reserved(stand_in);
                Err(Fault::NotOpen)
            }
        }
    }
}
