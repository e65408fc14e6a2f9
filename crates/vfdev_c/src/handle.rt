//! What C holds of a device.
ghost use Rattle.std.specs.Prelude.{◌≡◌, false, is_some, Some, None, Ok, MatchOption};
ghost use Rattle.device.specs.Request.{event_of};
ghost use Rattle.vfdev_c.specs.Handle.{Gives};
ghost use Rattle.vfdev_c.specs.Recorded.{is_mem_read};
ghost use Rattle.vfdev_c.specs.Wanted.{event_in, Hands, IsWanted};

use crate::device_kind::DeviceKind;
use crate::handed::Handed;
use crate::handle_state::HandleState;
use crate::on_held::on_held;
use crate::owner::Owner;
use crate::raw_box::RawBox;
use crate::reply::VfdevReply;
use crate::wanted::Wanted;
use device::Request;
use std::alloc::Global;
use std::mem::replace;

/// What C holds of a device: it leads to nothing, to blocks that were lent for a device, to a device over memories of its own, to one
/// whose calls are kept, to a device over lent blocks, to a card, or to a device of guests.
#[repr(C)]
#[derive(Drop)]
pub struct Vfdev {
    /// Whether it leads to anything.
    pub live: bool,
    /// What it leads to.
    pub owner: Owner,
    ghost linked: { is_some owner.held ≡ live },
}

impl Vfdev {
    // Leads to nothing.
    #[inline]
    pub(crate) fn none() -> Vfdev
        ensures { result.owner.held ≡ None }
    {
        Vfdev {
            live: false,
            owner: Owner::none(),
        }
    }

    // Takes out what it leads to.
    #[inline]
    pub(crate) fn take(&mut self, alloc: Global) -> Option<Box<HandleState>>
        ensures value { MatchOption result (self.old.owner.held ≡ None)
            (λ b. self.old.owner.held ≡ Some b.value) }
        ensures left { self.new.owner.held ≡ None }
    {
        let Vfdev { live, owner } = replace(self, Vfdev::none());
        if live {
            Some(owner.into_raw_box(alloc).into_box())
        } else {
            None
        }
    }

    // Lets it lead to what is in a box.
    #[inline]
    pub(crate) fn put(&mut self, state: Box<HandleState>)
        ensures { self.new.owner.held ≡ Some state.value }
    {
        *self = Vfdev {
            live: true,
            owner: Owner::of(RawBox::of(state)),
        };
    }

    // Gives an event to the device that it leads to, of whatever kind. Where it leads to none, that is the reply.
    #[inline(always)]
    pub(crate) fn give(&mut self, alloc: Global, wanted: Wanted<'_>, out: &mut [u8]) -> Handed
        requires { IsWanted wanted }
        ensures { Hands self.old.owner.held (event_in wanted.entry) self.new.owner.held result out.old out.new }
    {
        on_held!(
            self,
            alloc,
            Handed::none(VfdevReply::no_device()),
            Made device => device.give(wanted, out),
            // apart from the first, whose answer so stays in registers
            Kept device => device.give(wanted, out).apart(),
            Lent device => device.give(wanted, out).apart(),
            Guests device => device.give(wanted, out).apart();
            Lending | Card
        )
    }

    // The same, of an event that reads no memory for the caller and takes no frame to it.
    #[inline(always)]
    pub(crate) fn ask(&mut self, alloc: Global, request: Request<'_>) -> Handed
        requires { is_mem_read (event_of request) ≡ false }
        ensures { Gives self.old.owner.held (Ok (event_of request.entry)) self.new.owner.held result.reply result.messages }
    {
        self.give(alloc, Wanted::Other(request), &mut [])
    }
}

// Gives back a value that may go to another thread.
fn sent<T: Send>(value: T) -> T
    ensures { result ≡ value }
{
    value
}

/// A handle may go from one thread to another: it holds nothing of a thread's own. The call does nothing.
pub fn handle_is_send(handle: Vfdev) -> Vfdev
    ensures { result ≡ handle }
{
    sent(handle)
}
