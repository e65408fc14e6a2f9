//! Frames out of the channel, to what takes them.
ghost use Rattle.std.specs.Prelude.{◌≡◌, ◌++◌, ◌∷◌, [], List, ℕ, Option, None, Some, true, map, if◌then◌else◌, OnOk, OnErr, IfErr};
ghost use Rattle.atomic_table.specs.Seated.{TableId};
ghost use Rattle.history.specs.Entries.{Entry};
ghost use Rattle.device.specs.Events.{Event};
ghost use Rattle.device.specs.declared.event.Event.TheVariants.{Wire};
ghost use Rattle.wire_pump.specs.Doors.{StandFirst};
ghost use Rattle.wire_pump.specs.Ends.{is_wire, pumped, emptied, IsRefused, HasReceived, HasGivenBack, IsAll, IsFromWire};

use crate::ends::FrameReceiver;
use device::{Answer, Event};
use device_lock::Full;
use std::fmt;
use std::fmt::{Debug, Formatter, Write};
use std::sync::Wait;
use wire_frame::FrameBuf;

/// What takes the frames that come from the wire, each as the event that it comes. A host's own door needs [`Door::act`] alone,
/// of which [`Door::take`] is made.
pub trait Door {
    /// The events that it took, in order.
    ghost taken: { Self → List Event };

    /// The calls by which it took events, in order, each with its answer; none where it doesn't keep them.
    ghost calls: { Self → List Entry };

    /// The event that it refused last, for which it had no room; none once it took one since. A door of a host's own may keep it
    /// as an `Option` of a `Shadow`, which has no bytes of the event.
    ghost refused: { Self → Option Event };

    /// The line of the device that it gives the events to; none where it knows of no line.
    ghost line: { Self → Option TableId };

    /// Takes an event, which is an [`Event::Wire`], and answers it. Where there is no room the event comes back, and nothing
    /// changed. It may wait.
    fn act<R: Wait>(&mut self, rt: &R, event: Event) -> Result<Answer, Full>
        requires wire { is_wire event ≡ true }
        ensures taken { OnOk result (taken self.new ≡ taken self.old ++ event ∷ []) }
        ensures calls { StandFirst (calls self.old) (calls self.new) }
        ensures full { IfErr result (λ full. full.0 ≡ event) }
        ensures unchanged { OnErr result (taken self.new ≡ taken self.old) }
        ensures answered { OnOk result (refused self.new ≡ None) }
        ensures refused { OnErr result (refused self.new ≡ Some event) }
        ensures line { line self.new ≡ line self.old };

    /// Takes the event of a frame that is lent, and tells whether it did. A pump calls this, so a door that takes a frame
    /// without a copy of it may do so here, with the same meaning.
    fn take<R: Wait>(&mut self, rt: &R, frame: &FrameBuf) -> bool
        ensures taken { taken self.new
            ≡ (if result then taken self.old ++ Wire frame.now ∷ [] else taken self.old) }
        ensures calls { StandFirst (calls self.old) (calls self.new) }
        ensures refused { refused self.new
            ≡ (if result then None else Some (Wire frame.now)) }
        ensures line { line self.new ≡ line self.old }
    {
        self.act(rt, Event::Wire(frame.copy())).is_ok()
    }
}

/// How a pump ended.
#[derive(Drop)]
pub enum PumpEnd {
    /// `Last` came: all that was sent was received, and the door took every frame.
    Last,
    /// The door refused this event: it is that of the frame which was received last.
    Full(Event),
    /// The sender is gone, and there was no `Last`.
    Gone,
}

impl Debug for PumpEnd {
    fn fmt<W: Write>(&self, f: &mut Formatter<W>) -> fmt::Result {
        match self {
            PumpEnd::Last => f.write_str("Last"),
            PumpEnd::Full(Event::Wire(frame)) => f.debug_tuple("Full").field(frame).finish(),
            PumpEnd::Full(_) => f.write_str("Full"),
            PumpEnd::Gone => f.write_str("Gone"),
        }
    }
}

/// Gives each frame that comes to the door, in order, until `Last` comes, the door is full, or the sender is gone. It waits
/// while no message is under way. The box of each frame goes back to the sender, that of a refused one too, and the pump is full
/// only where the door refused the event.
///
/// ```
/// let mut door = LockedDoor::new(device, shares.pump);
/// let (mut sender, mut receiver) = channel(alloc)?;
/// let _fed = feed(&mut sender, rt, &frames);
/// let end = pump(&mut receiver, rt, &mut door);
/// let share = door.into_share();
/// ```
#[tactic(auto, using(crate::proofs::Moves::last_ends))]
pub fn pump<D: Door, R: Wait>(receiver: &mut FrameReceiver, rt: &R, door: &mut D) -> PumpEnd
    ensures in_order { (frames : List (List ℕ))
        × (D.taken door.new ≡ D.taken door.old ++ map Wire frames)
        × HasReceived (pumped frames result) receiver.old receiver.new
        × HasGivenBack (emptied frames result) receiver.old receiver.new }
    ensures refused { IsRefused result (D.refused door.new) }
    ensures calls { StandFirst (D.calls door.old) (D.calls door.new) }
    ensures line { D.line door.new ≡ D.line door.old }
    ensures whole { IsAll receiver.new.received result }
    ensures wire { IsFromWire result }
{
    for _ in rt.forever() {
        let Some(message) = receiver.next(rt) else {
            return PumpEnd::Gone;
        };
        let Some(frame) = message.frame() else {
            return PumpEnd::Last;
        };
        let taken = door.take(rt, &frame);
        if !taken {
            let full = Event::Wire(frame.copy());
            receiver.put_back(rt, frame);
            return PumpEnd::Full(full);
        }
        receiver.put_back(rt, frame);
    }
    unreachable!()
}
