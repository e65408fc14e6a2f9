//! What each kind of device does of a call over a handle that leads to it.
ghost use Rattle.std.specs.Prelude.{◌≡◌};
ghost use Rattle.vfdev_c.specs.Counted.{count_reply, counted_at, none_counted, of_device, unclaimed_in};
ghost use Rattle.vfdev_c.specs.Handle.{Held, no_device};
ghost use Rattle.vfdev_c.specs.Wanted.{event_in, Hands, IsWanted};

use crate::counts::VfdevCounts;
use crate::handed::Handed;
use crate::reply::VfdevReply;
use crate::wanted::Wanted;

/// A kind of device that a handle may lead to: one over memories of its own, one whose calls are kept, one over lent blocks, or one
/// of guests.
pub trait DeviceKind {
    ghost held: { Self → Held };

    /// Gives it an event. Bytes that it reads fill `out`, where it has as many, and a frame that leaves for the wire is laid into the
    /// first bytes of `out`, where it has room.
    fn give(&mut self, wanted: Wanted<'_>, out: &mut [u8]) -> Handed
        requires { IsWanted wanted }
        ensures { Hands (held self.old) (event_in wanted.entry) (held self.new) result out.old out.new };

    /// Tells what a function has counted.
    fn counts(&self, function: u8, counts: &mut VfdevCounts) -> VfdevReply
        ensures replied { result ≡ of_device (held self.now) no_device (count_reply function) }
        ensures counts { counts.new ≡ of_device (held self.now) none_counted (counted_at function) };

    /// Tells how many frames from the wire nobody got.
    fn unclaimed(&self) -> u32
        ensures { result ≡ of_device (held self.now) 0 unclaimed_in };
}
