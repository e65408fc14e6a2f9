//! A device that is watched for one of its pools.
ghost use Rattle.std.specs.Prelude.{◌≡◌};
ghost use Rattle.std.specs.Option.{option_map};
ghost use Rattle.pool_filter.specs.Own.{own};
ghost use Rattle.device.specs.World.{step};
ghost use Rattle.device.specs.Request.{event_of};
ghost use Rattle.device.specs.declared.event.Event.{Event};
ghost use Rattle.device.specs.Lone.{kept, kept_of, pool_of};
ghost use Rattle.lone.specs.Kept.{item_of};

use crate::item::{Given, Handover};
use device::{Device, Queue, Request, Room};
use guest_memory::GuestMem;
use local_switch::{Source, is_for_pool};
use pool_filter::Own;
use std::marker::Model;
use wire_frame::{Frame, PoolId};

/// A device that is watched for one of its pools.
#[derive(Drop)]
pub struct PoolView<M: GuestMem> {
    device: Device<M>,
    pool: PoolId,
    // the pool's own settings, as they are now
    settings: Own,
}

impl<M: GuestMem> Model for PoolView<M> {
    ghost use Rattle.std.specs.Prelude.{◌≡◌};
    ghost use Rattle.pool_filter.specs.Own.{own};
    ghost use Rattle.lone.specs.Kept.{Watched};

    ghost Value = { Watched };

    ghost view = { λ w. record { world = w.device.world; pool = w.pool } };

    ghost invariant = { λ w. w.settings ≡ own w.device.world.settings w.pool };
}

impl<M: GuestMem> PoolView<M> {
    /// The device, watched for a pool from now on.
    pub fn new(device: Device<M>, pool: PoolId) -> PoolView<M>
        ensures world { result.world ≡ device.world }
        ensures pool { result.pool ≡ pool }
    {
        let mut settings = Own::none();
        device.tables().own(pool, &mut settings);
        PoolView {
            device,
            pool,
            settings,
        }
    }

    /// The pool that the device is watched for.
    #[inline]
    pub fn pool(&self) -> PoolId
        ensures { result ≡ self.now.pool }
    {
        self.pool
    }

    /// Takes the event that a request stands for, and gives what it leaves for the pool's function, if it leaves anything.
    /// Settings and frames of other functions are given from `handover`.
    pub fn step<'a>(
        &mut self,
        request: Request<'a>,
        handover: &'a mut Handover,
    ) -> Option<Given<'a>>
        ensures world { self.new.world ≡ (step self.old.world (event_of request.entry)).world }
        ensures pool { self.new.pool ≡ self.old.pool }
        ensures kept { option_map item_of result
            ≡ kept self.old.pool self.old.world (event_of request.entry) }
    {
        if owner(request) == Some(self.pool.get()) {
            self.pass(request, &mut handover.room);
            return Some(Given::OwnEvent(request));
        }
        match request {
            Request::PfWrite(offset, value) => self.pf_write(offset, value, &mut handover.settings),
            Request::PfReset => {
                self.pf_reset();
                Some(Given::Gone)
            }
            Request::Wire(frame) => self.wire(frame),
            Request::Serve(sender, queue) => self.serve(sender, queue, &mut handover.room),
            _ => {
                self.pass(request, &mut handover.room);
                None
            }
        }
    }

    // An event that leaves the settings as they are.
    fn pass(&mut self, request: Request<'_>, room: &mut Room)
        requires { (step self.old.world (event_of request)).world.settings
            ≡ self.old.world.settings }
        ensures world { self.new.world ≡ (step self.old.world (event_of request.entry)).world }
        ensures pool { self.new.pool ≡ self.old.pool }
    {
        self.device.take(request, room);
    }

    // A write to a register of the physical function.
    fn pf_write<'a>(&mut self, offset: u32, value: u32, settings: &'a mut Own) -> Option<Given<'a>>
        ensures world { self.new.world ≡ (step self.old.world (Event.PfWrite offset value)).world }
        ensures pool { self.new.pool ≡ self.old.pool }
        ensures kept { option_map item_of result
            ≡ kept_of self.old.pool self.old.world (Event.PfWrite offset value) }
    {
        let _ = self.device.pf_write(offset, value);
        self.device.tables().own(self.pool, settings);
        if self.settings.is_same(settings) {
            return None;
        }
        self.settings.refill(settings);
        Some(Given::NewSettings(settings))
    }

    // The reset of the device.
    #[tactic(auto, using(pool_filter::proofs::OwnLemmas::own_initial))]
    fn pf_reset(&mut self)
        ensures world { self.new.world ≡ (step self.old.world Event.PfReset).world }
        ensures pool { self.new.pool ≡ self.old.pool }
    {
        self.device.reset();
        self.settings.clear();
    }

    // A frame from the wire.
    fn wire<'a>(&mut self, frame: Frame<'a>) -> Option<Given<'a>>
        ensures world { self.new.world ≡ (step self.old.world (Event.Wire frame.entry.bytes.now)).world }
        ensures pool { self.new.pool ≡ self.old.pool }
        ensures kept { option_map item_of result
            ≡ kept_of self.old.pool self.old.world (Event.Wire frame.entry.bytes.now) }
    {
        let taken = self.device.wire(frame);
        if taken.is_ok() && is_for_pool(self.device.tables(), Source::Wire, frame, self.pool) {
            Some(Given::Offer(frame, false))
        } else {
            None
        }
    }

    // The service of another pool's queue.
    fn serve<'a>(&mut self, sender: u8, queue: Queue, room: &'a mut Room) -> Option<Given<'a>>
        ensures world { self.new.world ≡ (step self.old.world (Event.Serve sender queue)).world }
        ensures pool { self.new.pool ≡ self.old.pool }
        ensures kept { option_map item_of result
            ≡ kept_of self.old.pool self.old.world (Event.Serve sender queue) }
    {
        let count = self.device.functions();
        prove!(count <= usize::from(PoolId::COUNT));
        let response = self.device.serve(sender, queue, room);
        let (Some(sent), Some(sender)) = (room.sent(&response), PoolId::new(sender)) else {
            return None;
        };
        let frame = sent.as_frame();
        if is_for_pool(self.device.tables(), Source::Pool(sender), frame, self.pool) {
            Some(Given::Offer(frame, true))
        } else {
            None
        }
    }
}

// The number of the function whose own event a request is.
#[inline]
#[tactic(auto, using(crate::proofs::Requests::same_pool))]
fn owner(request: Request<'_>) -> Option<u8>
    ensures { result ≡ pool_of (event_of request.entry) }
{
    request.pool()
}
