//! The door to a device that threads share.
ghost use Rattle.std.specs.Prelude.{◌≡◌, None};
ghost use Rattle.history.specs.declared.caller.Caller.TheVariants.{Pump};

use crate::pumping::Door;
use device::{Answer, Event, Request, Room};
use device_lock::{Full, LockedDevice, Share, WhenFull};
use guest_memory::GuestMem;
use shadow::Shadow;
use std::marker::Model;
use std::sync::ledger::Ledger;
use std::sync::{Arc, Wait};
use wire_frame::FrameBuf;

/// The door to a device that threads share, with the pump's share. Contracts see that share, and the event that came back last,
/// unless one was taken since: what the door took are the calls that its share made.
#[derive(Drop)]
pub struct LockedDoor<M: GuestMem, L: Ledger> {
    device: Arc<LockedDevice<M, L>>,
    when_full: WhenFull,
    share: Share<L>,
    // lent to each call; an event from the wire reads and sends nothing
    room: Room,
    // the frame of the event that came back last, unless one was taken since
    refused: Option<Shadow<FrameBuf>>,
}

impl<M: GuestMem, L: Ledger> Model for LockedDoor<M, L> {
    ghost use Rattle.wire_pump.specs.Doors.{SharedDoor};

    ghost Value = { SharedDoor };

    ghost use Rattle.std.specs.Prelude.{◌≡◌};
    ghost use Rattle.wire_pump.specs.Doors.{event_shown};
    ghost use Rattle.history.specs.declared.caller.Caller.TheVariants.{Pump};

    ghost view = { λ d. record {
      share = d.share;
      refused = event_shown d.refused;
    } };

    ghost invariant = { λ d. d.share.caller ≡ Pump };
}

impl<M: GuestMem, L: Ledger> LockedDoor<M, L> {
    /// A door with the share, which is the pump's.
    pub fn new(device: Arc<LockedDevice<M, L>>, share: Share<L>) -> LockedDoor<M, L>
        requires pump { share.caller ≡ Pump }
        ensures { result ≡ record { share = share; refused = None } }
    {
        LockedDoor {
            device,
            when_full: WhenFull::Refuse,
            share,
            room: Room::new(),
            refused: None,
        }
    }

    /// The same, and where the device can keep no more calls, those that it keeps are folded away first, as
    /// [`WhenFull::Fold`] says: an event comes back only where they can't be.
    pub fn folding(device: Arc<LockedDevice<M, L>>, share: Share<L>) -> LockedDoor<M, L>
        requires pump { share.caller ≡ Pump }
        ensures { result ≡ record { share = share; refused = None } }
    {
        LockedDoor {
            when_full: WhenFull::Fold,
            ..LockedDoor::new(device, share)
        }
    }

    /// The share, after all that the door took.
    pub fn into_share(self) -> Share<L>
        ensures share { result ≡ self.share }
        ensures pump { result.caller ≡ Pump }
    {
        let LockedDoor { share, .. } = self;
        share
    }
}

impl<M: GuestMem, L: Ledger> Door for LockedDoor<M, L> {
    ghost use Rattle.std.specs.Prelude.{◌≡◌, ◌++◌, ◌∷◌, [], true, false, None, Some, if◌then◌else◌, IfOk, IfErr, OnOk, OnErr};
    ghost use Rattle.device.specs.declared.event.Event.TheVariants.{Wire};
    ghost use Rattle.recorder.specs.Held.{having_asked};
    ghost use Rattle.device_lock.specs.Answers.{MayAnswer, HasAskedOne};
    ghost use Rattle.history.specs.Entries.{events};
    ghost use Rattle.wire_pump.specs.Doors.{StandFirst};
    ghost use Rattle.wire_pump.specs.Ends.{is_wire};

    ghost taken = { λ d. events d.share.asked };

    ghost calls = { λ d. d.share.asked };

    ghost refused = { λ d. d.refused };

    ghost line = { λ d. Some d.share.line };

    /// Gives the event to the device, as one call of the pump. It comes back where the kept history is full.
    #[tactic(auto, using(crate::proofs::Moves::pump_may, crate::proofs::Taken::one_taken, crate::proofs::Taken::one_behind_it, crate::proofs::Taken::stand_first_same))]
    fn act<R: Wait>(&mut self, rt: &R, event: Event) -> Result<Answer, Full>
        requires wire { is_wire event ≡ true }
        ensures taken { OnOk result
            (events self.new.share.asked ≡ events self.old.share.asked ++ event ∷ []) }
        ensures calls { StandFirst self.old.share.asked self.new.share.asked }
        ensures counted { IfOk result (λ answer. self.new
            ≡ record { share = having_asked event answer self.old.share; refused = None }) }
        ensures answer { IfOk result (λ answer. MayAnswer event answer) }
        ensures full { IfErr result (λ full. full.0 ≡ event) }
        ensures unchanged { OnErr result (events self.new.share.asked ≡ events self.old.share.asked) }
        ensures answered { OnOk result (self.new.refused ≡ None) }
        ensures refused { OnErr result (self.new.refused ≡ Some event) }
        ensures same { OnErr result (self.new ≡ record self.old { refused = Some event }) }
        ensures line { Some self.new.share.line ≡ Some self.old.share.line }
    {
        let Event::Wire(frame) = &event else {
            unreachable!();
        };
        let response = self.device.act_request(
            rt,
            &mut self.share,
            Request::Wire(frame.as_frame()),
            &mut self.room,
            self.when_full,
        );
        match response {
            Some(response) => {
                self.refused = None;
                Ok(response.answer(&self.room))
            }
            None => {
                self.refused = Some(Shadow::of(frame));
                Err(Full(event))
            }
        }
    }

    /// The same for a frame, of which no event is made.
    #[tactic(auto, using(crate::proofs::Taken::one_taken, crate::proofs::Taken::one_behind_it, crate::proofs::Taken::stand_first_same, crate::proofs::Taken::asked_one))]
    fn take<R: Wait>(&mut self, rt: &R, frame: &FrameBuf) -> bool
        ensures taken { events self.new.share.asked
            ≡ (if result then events self.old.share.asked ++ Wire frame.now ∷ []
            else events self.old.share.asked) }
        ensures calls { StandFirst self.old.share.asked self.new.share.asked }
        ensures refused { self.new.refused
            ≡ (if result then None else Some (Wire frame.now)) }
        ensures counted { result ≡ true
            → HasAskedOne (Wire frame.now) self.old.share self.new.share }
        ensures same { result ≡ false
            → self.new ≡ record self.old { refused = Some (Wire frame.now) } }
        ensures line { Some self.new.share.line ≡ Some self.old.share.line }
    {
        let request = Request::Wire(frame.as_frame());
        let taken = self
            .device
            .act_request(rt, &mut self.share, request, &mut self.room, self.when_full)
            .is_some();
        self.refused = if taken { None } else { Some(Shadow::of(frame)) };
        taken
    }
}
