//! Devices of guests are made, guests come and go, and blocks of their memories.
ghost use Rattle.std.specs.Prelude.{◌≡◌, true, false, nat_eq, length, is_some, Some, Err, IfErr, IfOk};
ghost use Rattle.spare_memory.specs.Devices.{LeavesTheOthers};
ghost use Rattle.spare_memory.specs.Refused.{no_guest, without_place};
ghost use Rattle.vfdev_c.specs.CardCalls.{IsMapAnswer};
ghost use Rattle.vfdev_c.specs.GuestCalls.{GuestComes, GuestGoes, LeadsToGuests, MapsBlock, OnGuests, OtherGuestsStay, RemapsGuest, UnmapsBlock};
ghost use Rattle.vfdev_c.specs.GuestDevices.{IsMadeGuests, can_make_guests};

use crate::block::Block;
use crate::blocks::MappedBlock;
use crate::card_guests::{DONE, TOO_MANY, number_of};
use crate::guest_device::GuestDevice;
use crate::handle::Vfdev;
use crate::handle_state::HandleState;
use crate::lending::BlockSpan;
use crate::making::{HELD, MADE};
use crate::on_guests::on_guests;
use std::alloc::Global;
use wire_frame::{Fault, PoolId};

/// What a call answers where the handle leads to no device of guests.
pub const NO_GUESTS: u32 = 32;
/// Where a block has a byte of one that is mapped for another function.
pub const ANOTHERS: u32 = 36;

/// Makes a device of so many vacant functions, with the offloads of these flags, where the handle leads to nothing.
#[unsafe(no_mangle)]
pub extern "C" fn vfdev_make_guests(
    alloc: Global,
    handle: &mut Vfdev,
    functions: u32,
    limit: u16,
    offloads: u32,
) -> u32
    ensures made { nat_eq result 0 ≡ true → LeadsToGuests (IsMadeGuests functions limit offloads) handle.new.owner.held }
    ensures refused { nat_eq result 0 ≡ false → handle.new.owner.held ≡ handle.old.owner.held }
    ensures taken { is_some handle.old.owner.held ≡ true → result ≡ 11 }
    ensures bad_make { is_some handle.old.owner.held ≡ false → can_make_guests functions limit offloads ≡ false → result ≡ 10 }
    ensures no_memory { is_some handle.old.owner.held ≡ false → can_make_guests functions limit offloads ≡ true
        → nat_eq result 0 ≡ false → result ≡ 9 }
{
    if handle.live {
        return HELD;
    }
    match boxed(alloc, functions, limit, offloads) {
        Ok(state) => {
            handle.put(state);
            MADE
        }
        Err(fault) => u32::from(fault.number()),
    }
}

/// A guest comes to a vacant function.
#[unsafe(no_mangle)]
pub extern "C" fn vfdev_attach(alloc: Global, handle: &mut Vfdev, function: u8) -> u32
    ensures called { OnGuests 32 (GuestComes function) handle.old.owner.held handle.new.owner.held result }
    ensures others { OtherGuestsStay function handle.old.owner.held handle.new.owner.held }
{
    on_guests!(handle, alloc, NO_GUESTS, held => held.attach(function))
}

/// A guest goes.
#[unsafe(no_mangle)]
pub extern "C" fn vfdev_detach(alloc: Global, handle: &mut Vfdev, function: u8) -> u32
    ensures called { OnGuests 32 (GuestGoes function) handle.old.owner.held handle.new.owner.held result }
    ensures others { OtherGuestsStay function handle.old.owner.held handle.new.owner.held }
{
    on_guests!(handle, alloc, NO_GUESTS, held => held.detach(function))
}

/// A block, which begins at `address` in the host, is memory of a function's guest from `at` on.
#[unsafe(no_mangle)]
pub extern "C" fn vfdev_map_at(
    alloc: Global,
    handle: &mut Vfdev,
    function: u8,
    at: u64,
    block: Block,
    address: u64,
    is_read_only: bool,
) -> u32
    ensures called { OnGuests 32 (MapsBlock function at address (length block.bytes)) handle.old.owner.held handle.new.owner.held result }
    ensures others { OtherGuestsStay function handle.old.owner.held handle.new.owner.held }
{
    let cells = block.into_cells();
    on_guests!(handle, alloc, NO_GUESTS, held => held.map(function, at, cells, address, is_read_only))
}

/// The region that begins at an address is mapped no more.
#[unsafe(no_mangle)]
pub extern "C" fn vfdev_unmap(alloc: Global, handle: &mut Vfdev, function: u8, at: u64) -> u32
    ensures called { OnGuests 32 (UnmapsBlock function at) handle.old.owner.held handle.new.owner.held result }
    ensures others { OtherGuestsStay function handle.old.owner.held handle.new.owner.held }
{
    on_guests!(handle, alloc, NO_GUESTS, held => held.unmap(function, at))
}

impl GuestDevice {
    // A guest comes.
    #[tactic(auto, using(crate::proofs::CardLemmas::none_past, crate::proofs::GuestLemmas::others_stay))]
    fn attach(&mut self, function: u8) -> u32
        ensures called { GuestComes function self.old self.new result }
        ensures others { LeavesTheOthers function self.old.device self.new.device }
    {
        let Some(pool) = PoolId::new(function) else {
            // the proof knows then that there are at most 64
            let _functions = self.lent.device.functions();
            return u32::from(Fault::NoSuchVf.number());
        };
        match self.spares.attach_to_device(&mut self.lent.device, pool) {
            Ok(()) => DONE,
            Err(fault) => u32::from(fault.number()),
        }
    }

    // A guest goes.
    #[tactic(auto, using(crate::proofs::GuestLemmas::others_stay))]
    fn detach(&mut self, function: u8) -> u32
        ensures called { GuestGoes function self.old self.new result }
        ensures others { LeavesTheOthers function self.old.device self.new.device }
    {
        let Some(pool) = PoolId::new(function) else {
            return u32::from(Fault::NoSuchVf.number());
        };
        match self.spares.detach_from_device(&mut self.lent.device, pool) {
            Ok(()) => {
                self.blocks.remove_all(function);
                DONE
            }
            Err(fault) => u32::from(fault.number()),
        }
    }

    // A block comes.
    #[tactic(auto, using(crate::proofs::GuestLemmas::others_stay, crate::proofs::GuestLemmas::remapped_itself))]
    fn map(
        &mut self,
        function: u8,
        at: u64,
        cells: &'static mut [u8],
        address: u64,
        is_read_only: bool,
    ) -> u32
        ensures called { MapsBlock function at address (length cells.old) self.old self.new result }
        ensures others { LeavesTheOthers function self.old.device self.new.device }
    {
        let span = BlockSpan {
            address,
            len: cells.len() as u64,
        };
        if self.blocks.meets_another(function, span) {
            return ANOTHERS;
        }
        if self.blocks.are_all() {
            return TOO_MANY;
        }
        let answer = self.map_region(function, at, cells, is_read_only);
        if answer == DONE {
            self.blocks.push(MappedBlock { function, at, span });
        }
        answer
    }

    // A region comes, whose block is no other function's.
    #[tactic(auto, using(crate::proofs::CardLemmas::no_guest_past, crate::proofs::CardLemmas::map_answer, crate::proofs::GuestLemmas::others_stay, crate::proofs::GuestLemmas::remapped_alone, crate::proofs::GuestLemmas::remapped_itself))]
    fn map_region(
        &mut self,
        function: u8,
        at: u64,
        cells: &'static mut [u8],
        is_read_only: bool,
    ) -> u32
        ensures answered { IsMapAnswer (without_place (no_guest self.old.device.world function) at (length cells.old)) result }
        ensures remaps { RemapsGuest function self.old self.new }
        ensures blocks { self.new.blocks ≡ self.old.blocks }
        ensures others { LeavesTheOthers function self.old.device self.new.device }
    {
        let Some(pool) = PoolId::new(function) else {
            let _functions = self.lent.device.functions();
            return u32::from(Fault::NoSuchVf.number());
        };
        let device = &mut self.lent.device;
        match self
            .spares
            .map_in_device(device, pool, at, cells, is_read_only)
        {
            Ok(()) => DONE,
            Err(why) => number_of(why),
        }
    }

    // A region goes, and its block.
    #[tactic(auto, using(crate::proofs::CardLemmas::no_guest_past, crate::proofs::CardLemmas::unmap_answer, crate::proofs::GuestLemmas::others_stay, crate::proofs::GuestLemmas::remapped_alone, crate::proofs::GuestLemmas::remapped_itself))]
    fn unmap(&mut self, function: u8, at: u64) -> u32
        ensures called { UnmapsBlock function at self.old self.new result }
        ensures others { LeavesTheOthers function self.old.device self.new.device }
    {
        let Some(pool) = PoolId::new(function) else {
            let _functions = self.lent.device.functions();
            return u32::from(Fault::NoSuchVf.number());
        };
        match self.spares.unmap_in_device(&mut self.lent.device, pool, at) {
            Ok(_) => {
                self.blocks.remove(function, at);
                DONE
            }
            Err(why) => number_of(why),
        }
    }
}

// A device of guests in a box.
#[inline(never)]
fn boxed(
    alloc: Global,
    functions: u32,
    limit: u16,
    offloads: u32,
) -> Result<Box<HandleState>, Fault>
    ensures ok { IfOk result (λ b. LeadsToGuests (IsMadeGuests functions limit offloads) (Some b.value)) }
    ensures bad_make { can_make_guests functions limit offloads ≡ false → result ≡ Err Fault.BadMake }
    ensures no_memory { IfErr result
        (λ e. can_make_guests functions limit offloads ≡ true → e ≡ Fault.NoMemory) }
{
    let device = GuestDevice::new(alloc, functions, limit, offloads)?;
    Ok(Box::new(alloc, HandleState::Guests(device))?)
}
