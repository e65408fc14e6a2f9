//! Guests that come to a function and go, and their memories.
ghost use Rattle.std.specs.Prelude.{◌≡◌, [], ◌∷◌, true, false, length, set, slice_set, Some, None, IfErr, IfOk, OnErr, OnOk};
ghost use Rattle.device.specs.Guests.{attach_refusal, attached, detached, is_vacant, over_memory, replace_refusal};
ghost use Rattle.device.specs.Live.{trace_of};
ghost use Rattle.device.specs.World.{function_of};
ghost use Rattle.mailbox.specs.Mailbox.{blank};
ghost use Rattle.mailbox_laws.specs.Turns.Turn.{Forgets};
ghost use Rattle.vf_unit.specs.Guests.{IsFormer};
ghost use Rattle.hosted.specs.Hosted.{HaveTaken, with_world};
ghost use Rattle.card.specs.Card.{LeavesAlone, cleared, with_offer};
ghost use Rattle.card.specs.Life.{Comes, Goes, HasLived, Offers, Replaces};

use crate::card::{Card, End};
use device::NotTaken;
use irq_causes::Vectors;
use live_memory::{Dma, Traced};
use wire_frame::PoolId;

impl<D: Dma<K>, K> Card<D, K> {
    /// A guest comes to a vacant function with its memory, as [`HostedDevice::attach`](hosted::HostedDevice::attach) says, and a client
    /// that has said nothing and is offered nothing: no queue is busy, no vector has a file, and none waits to be signalled. Where the
    /// guest is refused, nothing changes.
    ///
    /// [`Fault::NoSuchVf`](wire_frame::Fault::NoSuchVf), then [`Fault::AlreadyOpen`](wire_frame::Fault::AlreadyOpen) where the function
    /// isn't vacant, then [`Fault::BadMake`](wire_frame::Fault::BadMake) where the memory has no byte or more than 2^46.
    #[tactic(auto, using(crate::proofs::Calls::came_lives, crate::proofs::Calls::refused_lives))]
    pub fn attach(&mut self, pool: PoolId, memory: D) -> Result<D, NotTaken<D>>
        ensures taken { OnOk result
            (attach_refusal self.old.hosted.device.world pool (length (D.seen memory)) ≡ None) }
        ensures lived { HasLived (Comes pool (D.seen memory) ∷ []) self.old self.new }
        ensures came { OnOk result (HaveTaken (Forgets pool ∷ []) (with_world self.old.hosted
            (attached self.old.hosted.device.world pool (D.seen memory))) self.new.hosted) }
        ensures mailboxes { OnOk result
            (self.new.hosted.mailboxes ≡ slice_set self.old.hosted.mailboxes pool blank) }
        ensures quiet { OnOk result
            ((self.new.ends ≡ (cleared self.old pool).ends) × (self.new.raised ≡ (cleared self.old pool).raised)) }
        ensures untouched { OnOk result (self.new.hosted.device.accesses
            ≡ set self.old.hosted.device.accesses pool (D.noted memory)) }
        ensures others { LeavesAlone pool self.old self.new }
        ensures vacancy { IfOk result (λ former. length (D.seen former) ≡ 0) }
        ensures why { IfErr result (λ e.
            attach_refusal self.old.hosted.device.world pool (length (D.seen memory)) ≡ Some e.why) }
        ensures given_back { IfErr result (λ e. e.memory ≡ memory) }
        ensures unchanged { OnErr result (self.new ≡ self.old) }
    {
        let former = self.hosted.attach(pool.get(), memory)?;
        self.forget(pool);
        Ok(former)
    }

    /// A guest goes with its memory, as [`HostedDevice::detach`](hosted::HostedDevice::detach) says, and nothing of its client is left.
    /// `vacancy` comes back, and nothing changes, where there is no such function or it is vacant.
    #[tactic(auto, using(crate::proofs::Calls::went_lives, crate::proofs::Calls::vacant_lives))]
    pub fn detach(&mut self, pool: PoolId, vacancy: D) -> Result<Traced<D, K>, D>
        requires { length (D.seen vacancy) ≡ 0 }
        ensures lived { HasLived (Goes pool ∷ []) self.old self.new }
        ensures went { OnOk result (HaveTaken (Forgets pool ∷ []) (with_world self.old.hosted
            (detached self.old.hosted.device.world pool)) self.new.hosted) }
        ensures mailboxes { OnOk result
            (self.new.hosted.mailboxes ≡ slice_set self.old.hosted.mailboxes pool blank) }
        ensures quiet { OnOk result
            ((self.new.ends ≡ (cleared self.old pool).ends) × (self.new.raised ≡ (cleared self.old pool).raised)) }
        ensures untouched { OnOk result (self.new.hosted.device.accesses
            ≡ set self.old.hosted.device.accesses pool (D.noted vacancy)) }
        ensures others { LeavesAlone pool self.old self.new }
        ensures former { IfOk result (λ kept.
            IsFormer (function_of pool self.old.hosted.device.world) (D.seen kept.memory)) }
        ensures listed { IfOk result (λ kept.
            kept.accesses ≡ trace_of self.old.hosted.device.accesses pool) }
        ensures there { OnOk result (is_vacant self.old.hosted.device.world pool ≡ false) }
        ensures vacant { OnErr result (is_vacant self.old.hosted.device.world pool ≡ true) }
        ensures given_back { IfErr result (λ back. back ≡ vacancy) }
        ensures unchanged { OnErr result (self.new ≡ self.old) }
    {
        let former = self.hosted.detach(pool.get(), vacancy)?;
        self.forget(pool);
        Ok(former)
    }

    /// Gives a function another memory of as many bytes, and hands out its own, as
    /// [`HostedDevice::replace_memory`](hosted::HostedDevice::replace_memory) says; nothing else changes. So an order of a step is done
    /// that maps or unmaps ([`Order`](crate::Order)).
    ///
    /// [`Fault::NoSuchVf`](wire_frame::Fault::NoSuchVf), then [`Fault::BadMake`](wire_frame::Fault::BadMake) where the memory has another
    /// number of bytes: nothing changes, and it comes back.
    #[tactic(auto, using(crate::proofs::Calls::replaced_lives, crate::proofs::Calls::kept_lives))]
    pub fn replace_memory(&mut self, pool: PoolId, memory: D) -> Result<Traced<D, K>, NotTaken<D>>
        ensures taken { OnOk result
            (replace_refusal self.old.hosted.device.world pool (length (D.seen memory)) ≡ None) }
        ensures lived { HasLived (Replaces pool (D.seen memory) ∷ []) self.old self.new }
        ensures world { OnOk result (self.new.hosted.device.world
            ≡ over_memory self.old.hosted.device.world pool (D.seen memory)) }
        ensures host { self.new.hosted.host ≡ self.old.hosted.host }
        ensures mailboxes { self.new.hosted.mailboxes ≡ self.old.hosted.mailboxes }
        ensures ends { self.new.ends ≡ self.old.ends }
        ensures raised { self.new.raised ≡ self.old.raised }
        ensures untouched { OnOk result (self.new.hosted.device.accesses
            ≡ set self.old.hosted.device.accesses pool (D.noted memory)) }
        ensures others { LeavesAlone pool self.old self.new }
        ensures former { IfOk result (λ kept.
            IsFormer (function_of pool self.old.hosted.device.world) (D.seen kept.memory)) }
        ensures size { IfOk result (λ kept.
            length (D.seen kept.memory) ≡ length (D.seen memory)) }
        ensures listed { IfOk result (λ kept.
            kept.accesses ≡ trace_of self.old.hosted.device.accesses pool) }
        ensures why { IfErr result (λ e.
            replace_refusal self.old.hosted.device.world pool (length (D.seen memory)) ≡ Some e.why) }
        ensures given_back { IfErr result (λ e. e.memory ≡ memory) }
        ensures unchanged { OnErr result (self.new ≡ self.old) }
    {
        self.hosted.replace_memory(pool.get(), memory)
    }

    /// Offers a function's client to map the page of BAR 0 with the registers of the transmit queues, as
    /// [`Session::offer_area`](vfio_session::Session::offer_area) says, so that its driver writes their tails without a message. It is for
    /// a shell that keeps such a page, and reads it: it says so once a guest has come, before its client speaks. Beside the reply to
    /// DEVICE_GET_REGION_INFO whose flags have MMAP (bit 2) a file of the region goes then. What is written into the page the card doesn't
    /// know: the shell hands it on as the writes of registers that it stands for ([`Card::receive`]).
    ///
    /// The offer goes with the guest, and with the end of its client's connection. Another function's client is offered nothing.
    #[tactic(auto, using(crate::proofs::Calls::offered_lives))]
    pub fn offer_area(&mut self, pool: PoolId)
        ensures card { self.new ≡ with_offer self.old pool }
        ensures lived { HasLived (Offers pool ∷ []) self.old self.new }
        ensures others { LeavesAlone pool self.old self.new }
    {
        let session = &mut self.ends[usize::from(pool.get())].session;
        session.offer_area();
    }

    // Nothing of a function's client is left.
    fn forget(&mut self, pool: PoolId)
        ensures { self.new ≡ cleared self.old pool }
    {
        self.ends[usize::from(pool.get())] = End::quiet();
        self.raised.set(pool, Vectors::none());
    }
}
