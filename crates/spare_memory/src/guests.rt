//! Guests that come and go.
ghost use Rattle.std.specs.Prelude.{◌≡◌, [], ◌∷◌, ◌||◌, true, false, length, nat_eq, not, slice_index, slice_set, set, replicate, Some, None, IfErr, OnErr, OnOk};
ghost use Rattle.wire_frame.specs.declared.fault.Fault.{Fault};
ghost use Rattle.vf_unit.specs.Unit.{size_of};
ghost use Rattle.spare_memory.specs.Spares.{IsSpare, size_in};
ghost use Rattle.device.specs.Guests.{attach_refusal, attached, detached, is_vacant};
ghost use Rattle.device.specs.World.{function_of};
ghost use Rattle.mailbox.specs.Mailbox.{blank};
ghost use Rattle.mailbox_laws.specs.Turns.Turn.{Forgets};
ghost use Rattle.hosted.specs.Hosted.{HaveTaken, with_world};
ghost use Rattle.card.specs.Card.{LeavesAlone, cleared};

use crate::spares::Spares;
use card::Card;
use live_memory::{Dma, Shared, Traced};
use mapped_memory::LiveMem;
use std::mem::replace;
use wire_frame::{Fault, PoolId};

impl<'a> Spares<'a> {
    /// A guest comes to a vacant function: it has as many addresses as the spare memory, of which none is mapped, and else all is as
    /// [`Card::attach`](card::Card::attach) says. Where the guest is refused, nothing changes.
    ///
    /// [`Fault::NoSuchVf`], then [`Fault::AlreadyOpen`] where the function isn't vacant.
    #[tactic(auto, using(crate::proofs::Exchanged::sizes_exchanged, crate::proofs::Exchanged::sizes_back, crate::proofs::Exchanged::all_exchanged))]
    pub fn attach(
        &mut self,
        card: &mut Card<LiveMem<'a>, Shared>,
        pool: PoolId,
    ) -> Result<(), Fault>
        ensures taken { OnOk result
            (attach_refusal card.old.hosted.device.world pool (slice_index self.old pool) ≡ None) }
        ensures why { IfErr result (λ why.
            attach_refusal card.old.hosted.device.world pool (slice_index self.old pool) ≡ Some why) }
        ensures came { OnOk result (HaveTaken (Forgets pool ∷ []) (with_world card.old.hosted
            (attached card.old.hosted.device.world pool (replicate (slice_index self.old pool) 0))) card.new.hosted) }
        ensures mailboxes { OnOk result
            (card.new.hosted.mailboxes ≡ slice_set card.old.hosted.mailboxes pool blank) }
        ensures quiet { OnOk result
            ((card.new.ends ≡ (cleared card.old pool).ends) × (card.new.raised ≡ (cleared card.old pool).raised)) }
        ensures untouched { OnOk result
            (card.new.hosted.device.accesses ≡ set card.old.hosted.device.accesses pool []) }
        ensures others { LeavesAlone pool card.old card.new }
        ensures exchanged { OnOk result (self.new ≡ slice_set self.old pool 0) }
        ensures unchanged { OnErr result ((card.new ≡ card.old) × (self.new ≡ self.old)) }
    {
        let place = usize::from(pool.get());
        let Some(stand_in) = self.stand_in.pop() else {
            unreachable!()
        };
        let memory = replace(&mut self.memories[place], stand_in);
        match card.attach(pool, memory) {
            Ok(vacancy) => {
                let stand_in = replace(&mut self.memories[place], vacancy.renewed());
                self.stand_in.push_reserved(stand_in);
                Ok(())
            }
            Err(refused) => {
                let stand_in = replace(&mut self.memories[place], refused.memory);
                self.stand_in.push_reserved(stand_in);
                Err(refused.why)
            }
        }
    }

    /// A guest goes, as [`Card::detach`](card::Card::detach) says. None of its regions is mapped any more, and nothing of its memory is left
    /// for the next guest. [`Fault::NotOpen`], and nothing changes, exactly
    /// where the function is vacant or there is none; or where the spare memory has bytes, which only a vacant function's has.
    #[tactic(auto, using(crate::proofs::Exchanged::sizes_exchanged, crate::proofs::Exchanged::sizes_back, crate::proofs::Exchanged::all_exchanged, crate::proofs::Exchanged::former_size))]
    pub fn detach(
        &mut self,
        card: &mut Card<LiveMem<'a>, Shared>,
        pool: PoolId,
    ) -> Result<(), Fault>
        ensures went { OnOk result (HaveTaken (Forgets pool ∷ []) (with_world card.old.hosted
            (detached card.old.hosted.device.world pool)) card.new.hosted) }
        ensures mailboxes { OnOk result
            (card.new.hosted.mailboxes ≡ slice_set card.old.hosted.mailboxes pool blank) }
        ensures quiet { OnOk result
            ((card.new.ends ≡ (cleared card.old pool).ends) × (card.new.raised ≡ (cleared card.old pool).raised)) }
        ensures others { LeavesAlone pool card.old card.new }
        ensures exchanged { OnOk result (self.new
            ≡ slice_set self.old pool (size_of (function_of pool card.old.hosted.device.world))) }
        ensures why { IfErr result (λ why. (why ≡ Fault.NotOpen)
            × ((is_vacant card.old.hosted.device.world pool || not (nat_eq (slice_index self.old pool) 0)) ≡ true)) }
        ensures there { OnOk result
            ((is_vacant card.old.hosted.device.world pool || not (nat_eq (slice_index self.old pool) 0)) ≡ false) }
        ensures unchanged { OnErr result ((card.new ≡ card.old) × (self.new ≡ self.old)) }
    {
        let place = usize::from(pool.get());
        if self.memories[place].extent() > 0 {
            return Err(Fault::NotOpen);
        }
        let Some(stand_in) = self.stand_in.pop() else {
            unreachable!()
        };
        let vacancy = replace(&mut self.memories[place], stand_in);
        match card.detach(pool, vacancy) {
            Ok(former) => {
                let stand_in = replace(&mut self.memories[place], for_next(former));
                self.stand_in.push_reserved(stand_in);
                Ok(())
            }
            Err(vacancy) => {
                let stand_in = replace(&mut self.memories[place], vacancy);
                self.stand_in.push_reserved(stand_in);
                Err(Fault::NotOpen)
            }
        }
    }
}

// A guest's memory as the next guest has it.
pub(crate) fn for_next<'a>(former: Traced<LiveMem<'a>, Shared>) -> LiveMem<'a>
    ensures spare { IsSpare result }
    ensures size { size_in result ≡ length former.entry.memory.seen }
{
    former.into_memory().renewed()
}
