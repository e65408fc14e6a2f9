//! A device, and the calls that it took since a base.
ghost use Rattle.std.specs.Prelude.{◌≡◌, ℕ, ◌<◌, ◌≤◌, [], true, false, IfSome, is_some, length};
ghost use Rattle.device.specs.Lone.{keep, lone_of, lone_seen, lone_after, seen_by};
ghost use Rattle.device.specs.Request.{event_of};
ghost use Rattle.device.specs.Takes.{Takes};
ghost use Rattle.history.specs.Entries.{Leads, events, given};
ghost use Rattle.history.specs.Recording.{made_like, begun, keeping, rebased};

use crate::caller::Caller;
use crate::history::History;
use device::laws::isolation;
use device::{Device, Request, Response, Room};
use guest_memory::GuestMem;
use std::marker::Model;

/// A device with the calls that it took since a base. The base is a twin of the device, where there is one; else it is a device
/// as it is made. Stepped from the base, the kept events are answered as was kept and lead to the live device.
#[derive(Drop)]
pub struct Recording<M: GuestMem> {
    // in boxes, so that a recording is small wherever it is moved
    live: Box<Device<M>>,
    twin: Option<Box<Device<M>>>,
    history: History,
}

impl<M: GuestMem> Model for Recording<M> {
    ghost use Rattle.history.specs.Recording.{Logged};

    ghost Value = { Logged };

    ghost use Rattle.history.specs.Fields.{logged_of, IsLogged};

    ghost view = { logged_of };

    ghost invariant = { IsLogged };
}

impl<M: GuestMem> Recording<M> {
    /// The base is the device as it is, and no calls are kept: the history is empty.
    pub fn new(live: Box<Device<M>>, twin: Option<Box<Device<M>>>, history: History) -> Recording<M>
        requires fresh { live.value.world ≡ made_like live.value.world }
        requires twin { IfSome twin (λ t. t.value.world ≡ live.value.world) }
        requires empty { history.entries ≡ [] }
        ensures begun { result ≡ begun live.value.world history.cap (is_some twin) }
    {
        Recording {
            live,
            twin,
            history,
        }
    }

    /// The live device.
    #[inline]
    pub fn device(&self) -> &Device<M>
        ensures { result.now.world ≡ self.now.live }
    {
        &self.live
    }

    /// The calls since the base.
    #[inline]
    pub fn history(&self) -> &History
        ensures kept { result.now.entries ≡ self.now.kept }
        ensures cap { result.now.cap ≡ self.now.cap }
    {
        &self.history
    }

    /// Whether there is a twin, which the base can be moved by.
    #[inline]
    pub fn has_twin(&self) -> bool
        ensures { result ≡ self.now.has_twin }
    {
        self.twin.is_some()
    }

    /// Takes an event on the device and keeps the call, for which there is room, as [`History::record`] does.
    #[inline]
    pub fn record(&mut self, caller: Caller, request: Request<'_>, room: &mut Room) -> Response
        requires { length self.old.kept < self.old.cap }
        ensures takes { Takes self.old.live (event_of request.entry) self.new.live result room.new }
        ensures kept { self.new ≡ keeping self.old caller (event_of request.entry) }
    {
        self.history.record(caller, request, &mut self.live, room)
    }

    /// Steps the twin through the kept calls, which are then gone: it is the base. False where there is no twin, and then
    /// nothing changes.
    pub fn rebase(&mut self) -> bool
        ensures twin { result ≡ self.old.has_twin }
        ensures rebased { result ≡ true → self.new ≡ rebased self.old }
        ensures unchanged { result ≡ false → self.new ≡ self.old }
    {
        let Some(twin) = &mut self.twin else {
            return false;
        };
        self.history.step_all(twin);
        self.history.clear();
        true
    }

    /// A law: the kept calls lead from the base to the live device, and to each function they are as if it were alone. The
    /// call does nothing.
    pub fn agrees(&self)
        ensures leads { Leads self.now.base self.now.kept self.now.live }
        ensures few { length self.now.kept ≤ self.now.cap }
        ensures made { self.now.has_twin ≡ false → self.now.base ≡ made_like self.now.live }
        ensures seen { (p : ℕ) → p < length self.now.base.functions →
            seen_by p (events self.now.kept) (given self.now.kept)
            ≡ lone_seen (lone_of p self.now.base) (keep p self.now.base (events self.now.kept)) }
        ensures state { (p : ℕ) → p < length self.now.base.functions →
            lone_of p self.now.live
            ≡ lone_after (lone_of p self.now.base) (keep p self.now.base (events self.now.kept)) }
    {
        isolation();
        let _functions = self.live.functions();
        let _kept = self.history.len();
    }
}
