//! Regions of a guest's memory that come and go.
ghost use Rattle.std.specs.Prelude.{◌≡◌, length, None, Some, IfErr, IfOk, OnErr, OnOk};
ghost use Rattle.vf_unit.specs.Guests.{IsFormer};
ghost use Rattle.device.specs.Guests.{replace_refusal};
ghost use Rattle.device.specs.World.{function_of};
ghost use Rattle.mapped_memory.specs.Mapping.{refusal, with_part};
ghost use Rattle.spare_memory.specs.Spares.{IsOver, IsRemapped, SPACE, size_in};
ghost use Rattle.spare_memory.specs.Refused.{IsRefused, IsWhy, no_guest, or_not_there, without_memory, without_place};

use crate::spares::Spares;
use card::Card;
use device::NotTaken;
use live_memory::Shared;
use mapped_memory::{LiveMem, MapError};
use thiserror::Error;
use wire_frame::{Fault, PoolId};

/// Why a region is not mapped, or not unmapped.
#[derive(Clone, Copy, Debug, PartialEq, Eq, Error)]
pub enum NotMapped {
    /// There is no such function.
    #[error("there is no such function")]
    NoSuchVf,
    /// The function is vacant.
    #[error("the function is vacant")]
    Vacant,
    /// It can't be mapped there.
    #[error("{0}")]
    Refused(MapError),
    /// No region begins at that address.
    #[error("no region begins at that address")]
    NotThere,
}

impl<'a> Spares<'a> {
    /// Maps a region of a guest's memory, as [`LiveMem::map`](mapped_memory::LiveMem::map) says. Where it can't be mapped, its bytes are
    /// the caller's again. Nothing that the card knows changes. That the
    /// region is then there is `LiveMem`'s word, and no clause of this call: a card's functions have bytes, and no regions.
    #[tactic(auto, using(crate::proofs::Remapped::back_again, crate::proofs::Remapped::stays_there))]
    pub fn map(
        &mut self,
        card: &mut Card<LiveMem<'a>, Shared>,
        pool: PoolId,
        at: u64,
        cells: &'a mut [u8],
        is_read_only: bool,
    ) -> Result<(), NotMapped>
        ensures place { OnOk result (without_place (no_guest card.old.hosted.device.world pool) at
            (length cells.old) ≡ None) }
        ensures why { IfErr result (λ why. IsWhy (without_place (no_guest card.old.hosted.device.world pool) at
            (length cells.old)) why) }
        ensures card { IsRemapped pool card.old card.new }
        ensures spares { self.new ≡ self.old }
    {
        let Some(stand_in) = self.stand_in.pop() else {
            unreachable!()
        };
        match taken_out(card, pool, stand_in) {
            Ok(mut memory) => {
                let mapped = map_in(&mut memory, at, cells, is_read_only);
                self.stand_in.push_reserved(put_back(card, pool, memory));
                mapped
            }
            Err(refused) => {
                self.stand_in.push_reserved(refused.memory);
                Err(why_not(refused.why))
            }
        }
    }

    /// Unmaps the region of a guest's memory that begins at an address, as [`LiveMem::unmap`](mapped_memory::LiveMem::unmap) says, and gives
    /// its bytes back. Nothing that the card knows changes.
    #[tactic(auto, using(crate::proofs::Remapped::back_again, crate::proofs::Remapped::stays_there))]
    pub fn unmap(
        &mut self,
        card: &mut Card<LiveMem<'a>, Shared>,
        pool: PoolId,
        at: u64,
    ) -> Result<&'a mut [u8], NotMapped>
        ensures there { OnOk result (no_guest card.old.hosted.device.world pool ≡ None) }
        ensures why { IfErr result (λ why. why ≡ or_not_there (no_guest card.old.hosted.device.world pool)) }
        ensures card { IsRemapped pool card.old card.new }
        ensures spares { self.new ≡ self.old }
    {
        let Some(stand_in) = self.stand_in.pop() else {
            unreachable!()
        };
        match taken_out(card, pool, stand_in) {
            Ok(mut memory) => {
                let cells = memory.unmap(at);
                self.stand_in.push_reserved(put_back(card, pool, memory));
                cells.ok_or(NotMapped::NotThere)
            }
            Err(refused) => {
                self.stand_in.push_reserved(refused.memory);
                Err(why_not(refused.why))
            }
        }
    }
}

// Maps a region of a memory that is out of the card.
#[tactic(auto, using(crate::proofs::Places::has_place, crate::proofs::Places::has_why))]
pub(crate) fn map_in<'a>(
    memory: &mut LiveMem<'a>,
    at: u64,
    cells: &'a mut [u8],
    is_read_only: bool,
) -> Result<(), NotMapped>
    requires { size_in memory.old ≡ SPACE }
    ensures mapped { OnOk result (memory.new
        ≡ with_part memory.old (record { at = at; bytes = cells.old; is_read_only = is_read_only })) }
    ensures refused { IfErr result (λ why. IsRefused (refusal memory.old at (length cells.old)) why) }
    ensures place { OnOk result (without_place None at (length cells.old) ≡ None) }
    ensures why { IfErr result (λ why. IsWhy (without_place None at (length cells.old)) why) }
    ensures unchanged { OnErr result (memory.new ≡ memory.old) }
    ensures seen { memory.new.seen ≡ memory.old.seen }
{
    match memory.map(at, cells, is_read_only) {
        Ok(()) => Ok(()),
        Err(refused) => Err(NotMapped::Refused(refused.why)),
    }
}

// A guest's memory out of the card, in which the spare one stands in its place.
#[tactic(auto, using(crate::proofs::Remapped::not_touched))]
fn taken_out<'a>(
    card: &mut Card<LiveMem<'a>, Shared>,
    pool: PoolId,
    stand_in: LiveMem<'a>,
) -> Result<LiveMem<'a>, NotTaken<LiveMem<'a>>>
    ensures taken { OnOk result
        (replace_refusal card.old.hosted.device.world pool (length stand_in.entry.seen) ≡ None) }
    ensures over { OnOk result (IsOver pool card.old stand_in.entry.seen card.new) }
    ensures former { IfOk result
        (λ memory. IsFormer (function_of pool card.old.hosted.device.world) memory.seen) }
    ensures size { IfOk result (λ memory. length memory.seen ≡ length stand_in.entry.seen) }
    ensures why { IfErr result (λ refused.
        replace_refusal card.old.hosted.device.world pool (length stand_in.entry.seen) ≡ Some refused.why) }
    ensures given_back { IfErr result (λ refused. refused.memory ≡ stand_in.entry) }
    ensures unchanged { OnErr result (card.new ≡ card.old) }
{
    let former = card.replace_memory(pool, stand_in)?;
    Ok(former.into_memory())
}

// The memory in its place again, for the spare one.
#[tactic(auto, using(crate::proofs::Remapped::not_touched))]
fn put_back<'a>(
    card: &mut Card<LiveMem<'a>, Shared>,
    pool: PoolId,
    memory: LiveMem<'a>,
) -> LiveMem<'a>
    requires { replace_refusal card.old.hosted.device.world pool (length memory.seen) ≡ None }
    ensures over { IsOver pool card.old memory.entry.seen card.new }
    ensures size { length result.seen ≡ length memory.entry.seen }
{
    match card.replace_memory(pool, memory) {
        Ok(former) => former.into_memory(),
        Err(_) => unreachable!(),
    }
}

// Why a function's memory can't be taken out.
pub(crate) fn why_not(fault: Fault) -> NotMapped
    ensures { Some result ≡ without_memory (Some fault) }
{
    if fault == Fault::NoSuchVf {
        NotMapped::NoSuchVf
    } else {
        NotMapped::Vacant
    }
}
