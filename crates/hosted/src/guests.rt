//! Guests that come to a function and go.
ghost use Rattle.std.specs.Prelude.{◌≡◌, [], ◌∷◌, true, false, length, set, slice_set, Some, None, IfErr, IfOk, OnErr, OnOk};
ghost use Rattle.device.specs.Guests.{attach_refusal, attached, detached, is_vacant, over_memory, replace_refusal};
ghost use Rattle.device.specs.Live.{trace_of};
ghost use Rattle.device.specs.World.{function_of};
ghost use Rattle.mailbox.specs.Mailbox.{blank};
ghost use Rattle.mailbox_laws.specs.Turns.Turn.{Forgets};
ghost use Rattle.vf_unit.specs.Guests.{IsFormer};
ghost use Rattle.hosted.specs.Hosted.{HaveTaken, LeavesOthers, with_world};

use crate::doing::forget;
use crate::hosted::HostedDevice;
use device::guests::NotTaken;
use live_memory::{Dma, Traced};
use wire_frame::PoolId;

impl<D: Dma<K>, K> HostedDevice<D, K> {
    /// A guest comes to a vacant function with its memory, as [`Device::attach`](device::Device::attach) says. The host holds nothing of
    /// a former guest, and the mailbox is blank. The memory of no bytes that was there is handed out. Where the guest is refused,
    /// nothing changes.
    ///
    /// [`Fault::NoSuchVf`](wire_frame::Fault::NoSuchVf), then [`Fault::AlreadyOpen`](wire_frame::Fault::AlreadyOpen) where the function
    /// isn't vacant, then [`Fault::BadMake`](wire_frame::Fault::BadMake) where the memory has no byte or more than 2^46.
    pub fn attach(&mut self, pool: u8, memory: D) -> Result<D, NotTaken<D>>
        ensures taken { OnOk result
            (attach_refusal self.old.device.world pool (length (D.seen memory)) ≡ None) }
        ensures came { OnOk result (HaveTaken (Forgets pool ∷ [])
            (with_world self.old (attached self.old.device.world pool (D.seen memory))) self.new) }
        ensures mailboxes { OnOk result
            (self.new.mailboxes ≡ slice_set self.old.mailboxes pool blank) }
        ensures untouched { OnOk result (self.new.device.accesses
            ≡ set self.old.device.accesses pool (D.noted memory)) }
        ensures others { LeavesOthers pool self.old self.new }
        ensures vacancy { IfOk result (λ former. length (D.seen former) ≡ 0) }
        ensures why { IfErr result (λ e.
            attach_refusal self.old.device.world pool (length (D.seen memory)) ≡ Some e.why) }
        ensures given_back { IfErr result (λ e. e.memory ≡ memory) }
        ensures unchanged { OnErr result (self.new ≡ self.old) }
    {
        let HostedDevice {
            device,
            host,
            mailboxes,
        } = self;
        let former = device.attach(pool, memory)?;
        let Some(pool) = PoolId::new(pool) else {
            unreachable!()
        };
        mailboxes[usize::from(pool.get())].clear();
        forget(device, host, pool);
        Ok(former)
    }

    /// A guest goes with its memory, as [`Device::detach`](device::Device::detach) says; the host forgets what it asked for, and the
    /// mailbox is blank. `vacancy` comes back, and nothing changes, where there is no such function or it is vacant.
    pub fn detach(&mut self, pool: u8, vacancy: D) -> Result<Traced<D, K>, D>
        requires { length (D.seen vacancy) ≡ 0 }
        ensures went { OnOk result (HaveTaken (Forgets pool ∷ [])
            (with_world self.old (detached self.old.device.world pool)) self.new) }
        ensures mailboxes { OnOk result
            (self.new.mailboxes ≡ slice_set self.old.mailboxes pool blank) }
        ensures untouched { OnOk result (self.new.device.accesses
            ≡ set self.old.device.accesses pool (D.noted vacancy)) }
        ensures others { LeavesOthers pool self.old self.new }
        ensures former { IfOk result (λ kept.
            IsFormer (function_of pool self.old.device.world) (D.seen kept.memory)) }
        ensures listed { IfOk result (λ kept.
            kept.accesses ≡ trace_of self.old.device.accesses pool) }
        ensures there { OnOk result (is_vacant self.old.device.world pool ≡ false) }
        ensures vacant { OnErr result (is_vacant self.old.device.world pool ≡ true) }
        ensures given_back { IfErr result (λ back. back ≡ vacancy) }
        ensures unchanged { OnErr result (self.new ≡ self.old) }
    {
        let HostedDevice {
            device,
            host,
            mailboxes,
        } = self;
        let former = device.detach(pool, vacancy)?;
        let Some(pool) = PoolId::new(pool) else {
            unreachable!()
        };
        mailboxes[usize::from(pool.get())].clear();
        forget(device, host, pool);
        Ok(former)
    }

    /// Gives a function another memory of as many bytes, and hands out its own, as
    /// [`Device::replace_memory`](device::Device::replace_memory) says. Nothing else changes.
    ///
    /// [`Fault::NoSuchVf`](wire_frame::Fault::NoSuchVf), then [`Fault::BadMake`](wire_frame::Fault::BadMake) where the memory has another
    /// number of bytes: nothing changes, and it comes back.
    pub fn replace_memory(&mut self, pool: u8, memory: D) -> Result<Traced<D, K>, NotTaken<D>>
        ensures taken { OnOk result
            (replace_refusal self.old.device.world pool (length (D.seen memory)) ≡ None) }
        ensures world { OnOk result (self.new.device.world
            ≡ over_memory self.old.device.world pool (D.seen memory)) }
        ensures host { self.new.host ≡ self.old.host }
        ensures mailboxes { self.new.mailboxes ≡ self.old.mailboxes }
        ensures untouched { OnOk result (self.new.device.accesses
            ≡ set self.old.device.accesses pool (D.noted memory)) }
        ensures others { LeavesOthers pool self.old self.new }
        ensures former { IfOk result (λ kept.
            IsFormer (function_of pool self.old.device.world) (D.seen kept.memory)) }
        ensures size { IfOk result (λ kept.
            length (D.seen kept.memory) ≡ length (D.seen memory)) }
        ensures listed { IfOk result (λ kept.
            kept.accesses ≡ trace_of self.old.device.accesses pool) }
        ensures why { IfErr result (λ e.
            replace_refusal self.old.device.world pool (length (D.seen memory)) ≡ Some e.why) }
        ensures given_back { IfErr result (λ e. e.memory ≡ memory) }
        ensures unchanged { OnErr result (self.new ≡ self.old) }
    {
        self.device.replace_memory(pool, memory)
    }
}
