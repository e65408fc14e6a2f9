//! Guests of a card, and regions of their memories.
ghost use Rattle.std.specs.Prelude.{◌≡◌, length, nat_lt, if◌then◌else◌};
ghost use Rattle.card.specs.Card.{LeavesAlone};
ghost use Rattle.vfdev_c.specs.CardCalls.{Attaches, Detaches, Maps, OnCard, OthersStay, Unmaps, of_card, offers, on_card, reason_number};

use crate::block::Block;
use crate::card_held::CardHeld;
use crate::handle::Vfdev;
use crate::on_card::on_card;
use mapped_memory::MapError;
use spare_memory::NotMapped;
use std::alloc::Global;
use wire_frame::{Fault, PoolId};

/// What a call answers where it was done.
pub const DONE: u32 = 0;
/// Where the handle leads to no card.
pub const NO_CARD: u32 = 32;
/// Where 64 regions are mapped already.
pub const TOO_MANY: u32 = 33;
/// Where no region begins at the address.
pub const NOT_THERE: u32 = 34;
/// Where a region passes the end of the guest's addresses.
pub const PAST_END: u32 = 35;
/// Where a region has an address of another.
pub const OVERLAPS: u32 = 13;

/// A guest comes to a vacant function.
#[unsafe(no_mangle)]
pub extern "C" fn vfdev_card_attach(alloc: Global, handle: &mut Vfdev, function: u8) -> u32
    ensures called { OnCard 32 (Attaches function) handle.old.owner.held handle.new.owner.held result }
    ensures others { OthersStay function handle.old.owner.held handle.new.owner.held }
{
    on_card!(handle, alloc, NO_CARD, held => held.attach(function))
}

/// A guest goes.
#[unsafe(no_mangle)]
pub extern "C" fn vfdev_card_detach(alloc: Global, handle: &mut Vfdev, function: u8) -> u32
    ensures called { OnCard 32 (Detaches function) handle.old.owner.held handle.new.owner.held result }
    ensures others { OthersStay function handle.old.owner.held handle.new.owner.held }
{
    on_card!(handle, alloc, NO_CARD, held => held.detach(function))
}

/// A block is memory of a function's guest from an address on.
#[unsafe(no_mangle)]
pub extern "C" fn vfdev_card_map(
    alloc: Global,
    handle: &mut Vfdev,
    function: u8,
    at: u64,
    block: Block,
    is_read_only: bool,
) -> u32
    ensures called { OnCard 32 (Maps function at (length block.bytes)) handle.old.owner.held handle.new.owner.held result }
    ensures others { OthersStay function handle.old.owner.held handle.new.owner.held }
{
    let cells = block.into_cells();
    on_card!(handle, alloc, NO_CARD, held => held.map(function, at, cells, is_read_only))
}

/// The region that begins at an address is mapped no more.
#[unsafe(no_mangle)]
pub extern "C" fn vfdev_card_unmap(alloc: Global, handle: &mut Vfdev, function: u8, at: u64) -> u32
    ensures called { OnCard 32 (Unmaps function) handle.old.owner.held handle.new.owner.held result }
    ensures others { OthersStay function handle.old.owner.held handle.new.owner.held }
{
    on_card!(handle, alloc, NO_CARD, held => held.unmap(function, at))
}

/// A function's client is offered an area of its registers.
#[unsafe(no_mangle)]
pub extern "C" fn vfdev_card_offer_area(alloc: Global, handle: &mut Vfdev, function: u8) -> u32
    ensures card { handle.new.owner.held ≡ on_card handle.old.owner.held (offers function) }
    ensures answer { result ≡ of_card handle.old.owner.held 32 (λ c. if nat_lt function 64 then 0 else 1) }
    ensures others { OthersStay function handle.old.owner.held handle.new.owner.held }
{
    on_card!(handle, alloc, NO_CARD, held => held.offer_area(function))
}

impl CardHeld {
    // A guest comes.
    #[tactic(auto, using(crate::proofs::CardLemmas::none_past))]
    fn attach(&mut self, function: u8) -> u32
        ensures called { Attaches function self.old self.new result }
        ensures others { LeavesAlone function self.old.card self.new.card }
    {
        let Some(pool) = PoolId::new(function) else {
            // the proof knows then that there are at most 64
            let _functions = self.card.functions();
            return u32::from(Fault::NoSuchVf.number());
        };
        match self.spares.attach(&mut self.card, pool) {
            Ok(()) => DONE,
            Err(fault) => u32::from(fault.number()),
        }
    }

    // A guest goes.
    fn detach(&mut self, function: u8) -> u32
        ensures called { Detaches function self.old self.new result }
        ensures others { LeavesAlone function self.old.card self.new.card }
    {
        let Some(pool) = PoolId::new(function) else {
            return u32::from(Fault::NoSuchVf.number());
        };
        match self.spares.detach(&mut self.card, pool) {
            Ok(()) => DONE,
            Err(fault) => u32::from(fault.number()),
        }
    }

    // A region comes.
    #[tactic(auto, using(crate::proofs::CardLemmas::no_guest_past, crate::proofs::CardLemmas::map_answer, crate::proofs::CardLemmas::remapped_leaves, crate::proofs::CardLemmas::leaves_itself))]
    fn map(&mut self, function: u8, at: u64, cells: &'static mut [u8], is_read_only: bool) -> u32
        ensures called { Maps function at (length cells.old) self.old self.new result }
        ensures others { LeavesAlone function self.old.card self.new.card }
    {
        let Some(pool) = PoolId::new(function) else {
            let _functions = self.card.functions();
            return u32::from(Fault::NoSuchVf.number());
        };
        match self
            .spares
            .map(&mut self.card, pool, at, cells, is_read_only)
        {
            Ok(()) => DONE,
            Err(why) => number_of(why),
        }
    }

    // A region goes.
    #[tactic(auto, using(crate::proofs::CardLemmas::no_guest_past, crate::proofs::CardLemmas::unmap_answer, crate::proofs::CardLemmas::remapped_leaves, crate::proofs::CardLemmas::leaves_itself))]
    fn unmap(&mut self, function: u8, at: u64) -> u32
        ensures called { Unmaps function self.old self.new result }
        ensures others { LeavesAlone function self.old.card self.new.card }
    {
        let Some(pool) = PoolId::new(function) else {
            let _functions = self.card.functions();
            return u32::from(Fault::NoSuchVf.number());
        };
        match self.spares.unmap(&mut self.card, pool, at) {
            Ok(_) => DONE,
            Err(why) => number_of(why),
        }
    }

    // An area is offered.
    fn offer_area(&mut self, function: u8) -> u32
        ensures card { self.new ≡ offers function self.old }
        ensures answer { result ≡ (if nat_lt function 64 then 0 else 1) }
        ensures others { LeavesAlone function self.old.card self.new.card }
    {
        match PoolId::new(function) {
            Some(pool) => {
                self.card.offer_area(pool);
                DONE
            }
            None => u32::from(Fault::NoSuchVf.number()),
        }
    }
}

// The number of a reason.
pub(crate) fn number_of(why: NotMapped) -> u32
    ensures { result ≡ reason_number why }
{
    match why {
        NotMapped::NoSuchVf => u32::from(Fault::NoSuchVf.number()),
        NotMapped::Vacant | NotMapped::Refused(MapError::NoBytes) => u32::from(
            Fault::BadMake.number(),
        ),
        NotMapped::Refused(MapError::PastEnd) => PAST_END,
        NotMapped::Refused(MapError::Overlaps) => OVERLAPS,
        NotMapped::Refused(MapError::TooMany) => TOO_MANY,
        NotMapped::NotThere => NOT_THERE,
    }
}
