//! Bursts: services of a queue one after another, in one call.
ghost use Rattle.std.specs.Prelude.{◌≡◌, ◌≤◌, ◌⊎◌, true, false};
ghost use Rattle.irq_causes.specs.Messages.{both, no_messages};
ghost use Rattle.device.specs.declared.event.Event.{Event};
ghost use Rattle.device.specs.Accesses.{accesses_by};
ghost use Rattle.device.specs.Live.{told_world, AreListed, AreMet};
ghost use Rattle.device.specs.Outcome.{left_by};
ghost use Rattle.device.specs.World.{step};
ghost use Rattle.live_run.specs.Bursts.{IsBurst, goes_on};
ghost use Rattle.live_run.specs.Frames.{has_room, with_left};

use crate::frames::Frames;
use device::{Device, Outcome, Queue, Room};
use irq_causes::Messages;
use live_memory::Dma;
use wire_frame::PoolId;

/// What came of a burst.
#[derive(Drop)]
pub struct Burst {
    /// How many descriptors were taken, with the one that ended it.
    pub taken: usize,
    /// The messages of all services together.
    pub messages: Messages,
    /// Whether the queue may have more: false after a service that found nothing, faulted or was refused.
    pub goes_on: bool,
}

/// Takes descriptors of a transmit queue one after another, while guests may write the memories: until the queue has no more, `most`
/// were taken, or `frames` has no room for a frame. It means what that many services mean, one after another. A frame that leaves for
/// the wire stands behind those that are in `frames`. Each is put together in `room`.
pub fn serve_burst<D: Dma<K>, K>(
    device: &mut Device<D, K>,
    pool: u8,
    queue: Queue,
    most: usize,
    frames: &mut Frames,
    room: &mut Room,
) -> Burst
    ensures burst { IsBurst D.shared pool queue device.old frames.old device.new frames.new result }
    ensures most { result.taken ≤ most }
    // it ended since the queue has no more, or for one of these reasons
    ensures why { result.goes_on ≡ true → (result.taken ≡ most) ⊎ (has_room frames.new ≡ false) }
{
    let count = device.functions();
    prove!(count <= usize::from(PoolId::COUNT));
    let mut taken = 0;
    let mut messages = Messages::none();
    let mut goes_on = true;
    while goes_on && taken < most && frames.has_room() {
        goes_on = serve_one(device, pool, queue, frames, room, &mut messages);
        taken += 1;
    }
    Burst {
        taken,
        messages,
        goes_on,
    }
}

// One service more, and whether the queue may have more after it.
fn serve_one<D: Dma<K>, K>(
    device: &mut Device<D, K>,
    pool: u8,
    queue: Queue,
    frames: &mut Frames,
    room: &mut Room,
    messages: &mut Messages,
) -> bool
    requires { has_room frames.old ≡ true }
    ensures world { device.new.world
        ≡ (step (told_world device.old.accesses device.new.accesses device.old.world) (Event.Serve pool queue)).world }
    ensures met { AreMet D.shared device.old.accesses device.new.accesses device.old.world }
    ensures listed { AreListed (accesses_by
        (told_world device.old.accesses device.new.accesses device.old.world) (Event.Serve pool queue))
        device.old.accesses device.new.accesses }
    ensures messages { messages.new ≡ both messages.old
        (step (told_world device.old.accesses device.new.accesses device.old.world) (Event.Serve pool queue)).answer.raised }
    ensures frames { frames.new ≡ with_left frames.old (left_by
        (told_world device.old.accesses device.new.accesses device.old.world) (Event.Serve pool queue)) }
    ensures goes_on { result ≡ goes_on
        (step (told_world device.old.accesses device.new.accesses device.old.world) (Event.Serve pool queue)).answer.reply }
{
    let response = device.serve_live(pool, queue, room);
    messages.unite(&response.messages);
    if let Some(frame) = room.left(&response) {
        frames.push(frame);
    }
    may_go_on(response.outcome)
}

// Whether the queue may have more after such a service.
fn may_go_on(outcome: Outcome) -> bool
    ensures { result ≡ goes_on outcome }
{
    matches!(outcome, Outcome::More | Outcome::Sent | Outcome::Dropped)
}
