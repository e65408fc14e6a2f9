//! Bursts of a device of guests: many descriptors in one call, and many frames from the wire.
ghost use Rattle.std.specs.Prelude.{◌≡◌};
ghost use Rattle.irq_causes.specs.Messages.{no_messages};
ghost use Rattle.vfdev_c.specs.CardCalls.{frame_in_room, none_wired};
ghost use Rattle.vfdev_c.specs.GuestCalls.{OnGuests, ServesBurst, WiresBurst, none_taken, of_guests};
ghost use Rattle.vfdev_c.specs.Handle.{frame_in, length_in};

use crate::events::POOLS;
use crate::guest_device::GuestDevice;
use crate::handle::Vfdev;
use crate::left::lay_left;
use crate::on_guests::on_guests;
use crate::service::queue_of;
use crate::wired::VfdevWired;
use irq_causes::Messages;
use std::alloc::Global;

/// What came of a burst, as C sees it.
#[repr(C)]
#[derive(Clone, Copy, Debug, PartialEq, Eq)]
pub struct VfdevBurst {
    /// How many services there were, with the one that ended it.
    pub taken: usize,
    /// How many frames left for the wire.
    pub frames: usize,
    /// 1 where the queue may have more.
    pub goes_on: u32,
}

/// Takes descriptors of a function's transmit queue one after another, `most` at most.
#[unsafe(no_mangle)]
pub extern "C" fn vfdev_serve_burst(
    alloc: Global,
    handle: &mut Vfdev,
    function: u8,
    queue: u8,
    most: usize,
    messages: &mut [u8; POOLS],
) -> VfdevBurst
    ensures called { OnGuests (none_taken, no_messages) (ServesBurst function queue most)
        handle.old.owner.held handle.new.owner.held (result, messages.new) }
{
    let (burst, raised) = on_guests!(handle, alloc, (VfdevBurst::none(), Messages::none()),
        held => held.serve_burst(function, queue, most));
    *messages = raised.to_masks();
    burst
}

/// A frame of those that left at the last [`vfdev_serve_burst`].
#[unsafe(no_mangle)]
pub extern "C" fn vfdev_frame(
    alloc: Global,
    handle: &mut Vfdev,
    number: u32,
    out: &mut [u8],
) -> usize
    ensures handle { handle.new.owner.held ≡ handle.old.owner.held }
    ensures length { result ≡ of_guests handle.old.owner.held 0 (λ g. length_in (frame_in_room number out.old g.frames)) }
    ensures bytes { out.new
        ≡ of_guests handle.old.owner.held out.old (λ g. frame_in (frame_in_room number out.old g.frames) out.old) }
{
    on_guests!(handle, alloc, 0, held => lay_left(&held.frames, number, out))
}

/// Frames come from the wire, one after another. They lie behind one another in the bytes: the first begins at 0, each other where the one
/// before it ends. What the device refuses is passed over.
#[unsafe(no_mangle)]
pub extern "C" fn vfdev_wire_burst(
    alloc: Global,
    handle: &mut Vfdev,
    bytes: &[u8],
    ends: &[usize],
    messages: &mut [u8; POOLS],
) -> VfdevWired
    ensures called { OnGuests (none_wired, no_messages) (WiresBurst ends.now bytes.now)
        handle.old.owner.held handle.new.owner.held (result, messages.new) }
{
    let (wired, raised) = on_guests!(handle, alloc, (VfdevWired::none(), Messages::none()),
        held => held.wire_burst(bytes, ends));
    *messages = raised.to_masks();
    wired
}

impl VfdevBurst {
    fn none() -> VfdevBurst
        ensures { result ≡ none_taken }
    {
        VfdevBurst {
            taken: 0,
            frames: 0,
            goes_on: 0,
        }
    }
}

impl GuestDevice {
    // Takes descriptors.
    #[tactic(auto, using(crate::proofs::GuestLemmas::one_where_it_goes_on))]
    fn serve_burst(&mut self, function: u8, queue: u8, most: usize) -> (VfdevBurst, Messages)
        ensures { ServesBurst function queue most self.old self.new result }
    {
        self.frames.clear();
        let Some(queue) = queue_of(queue) else {
            return (VfdevBurst::none(), Messages::none());
        };
        let done = self
            .lent
            .serve_burst(function, queue, most, &mut self.frames);
        let burst = VfdevBurst {
            taken: done.taken,
            frames: self.frames.len(),
            goes_on: u32::from(done.goes_on),
        };
        (burst, done.messages)
    }

    // Frames from the wire.
    fn wire_burst(&mut self, bytes: &[u8], ends: &[usize]) -> (VfdevWired, Messages)
        ensures { WiresBurst ends.now bytes.now self.old self.new result }
    {
        let came = self.lent.wire_burst(bytes, ends);
        let wired = VfdevWired {
            taken: came.taken,
            refused: came.refused,
        };
        (wired, came.messages)
    }
}
