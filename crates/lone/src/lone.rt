//! One function and its own settings.
ghost use Rattle.std.specs.Prelude.{◌≡◌, length, Some, IfOk, IfErr};
ghost use Rattle.std.specs.Option.{option_map};
ghost use Rattle.device.specs.declared.room.Room.{Room};
ghost use Rattle.device.specs.Request.{event_of};
ghost use Rattle.device.specs.Lone.{alone, moved, shown, OwnEvent, Offer};
ghost use Rattle.lone.specs.Kept.{item_of, observation_of};

use crate::item::{Given, Seen};
use device::act::act;
use device::{Profile, Request, Room, serve_queue};
use guest_memory::GuestMem;
use pool_filter::Own;
use std::alloc::Global;
use std::marker::Model;
use vf_unit::VfUnit;
use wire_frame::{Fault, Frame, FrameLimit};

/// One function and its own settings.
#[derive(Drop)]
pub struct Lone<M: GuestMem> {
    profile: Profile,
    unit: VfUnit<M>,
    settings: Own,
}

impl<M: GuestMem> Model for Lone<M> {
    ghost use Rattle.device.specs.Lone.{Lone};

    ghost Value = { Lone };

    ghost view = { λ l. record { profile = l.profile; function = l.unit.function; settings = l.settings } };
}

impl<M: GuestMem> Lone<M> {
    /// A closed function over this memory that has no settings and no offloads. Its frames have up to `limit` bytes. [`Fault::NoMemory`]
    /// comes only where the host refused the room.
    pub fn new(alloc: Global, memory: M, limit: FrameLimit) -> Result<Lone<M>, Fault>
        ensures ok { IfOk result (λ l. l ≡ alone limit (length (M.bytes memory))) }
        ensures err { IfErr result (λ e. e ≡ Fault.NoMemory) }
    {
        Ok(Lone {
            profile: Profile::plain(limit),
            unit: VfUnit::new(alloc, memory)?,
            settings: Own::none(),
        })
    }

    /// Takes what it is given, and tells what is seen of it. A frame that a service sends is put together in `room`, and so are bytes that
    /// are read.
    pub fn take(&mut self, given: Given<'_>, room: &mut Room) -> Option<Seen>
        ensures lone { self.new ≡ moved self.old (item_of given.entry) }
        ensures seen { option_map (observation_of room.new) result ≡ shown self.old (item_of given.entry) }
    {
        match given {
            Given::OwnEvent(request) => Some(self.own_event(request, room)),
            Given::NewSettings(settings) => {
                self.settings.refill(settings);
                None
            }
            Given::Gone => {
                self.unit.end();
                self.settings.clear();
                None
            }
            Given::Offer(frame, looped) => self.offer(frame, looped),
        }
    }

    // An event of its own.
    fn own_event(&mut self, request: Request<'_>, room: &mut Room) -> Seen
        ensures lone { self.new ≡ moved self.old (OwnEvent (event_of request.entry)) }
        ensures seen { Some (observation_of room.new result)
            ≡ shown self.old (OwnEvent (event_of request.entry)) }
    {
        let acted = match request {
            Request::Serve(_, queue) => serve_queue(
                &self.settings,
                self.profile.limit,
                &mut self.unit,
                queue,
                room,
            ),
            _ => act(&mut self.unit, request, room),
        };
        Seen::Replied(acted.outcome, acted.vectors)
    }

    // A frame, which comes in where the settings say that the function may receive.
    fn offer(&mut self, frame: Frame<'_>, looped: bool) -> Option<Seen>
        ensures lone { self.new ≡ moved self.old (Offer frame.entry.bytes.now looped) }
        ensures seen { (room : Room) → option_map (observation_of room) result
            ≡ shown self.old (Offer frame.entry.bytes.now looped) }
    {
        if !self.settings.may_receive() {
            return None;
        }
        let vectors = self.unit.deliver_frame(frame, looped);
        if vectors.is_empty() {
            None
        } else {
            Some(Seen::Interrupted(vectors))
        }
    }
}
