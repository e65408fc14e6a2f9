//! A watched device, and the lone function of its pool beside it.
ghost use Rattle.std.specs.Prelude.{◌≡◌, ◌<◌, ◌≤◌, length};
ghost use Rattle.std.specs.Option.{option_map};
ghost use Rattle.device.specs.World.{step};
ghost use Rattle.device.specs.Request.{event_of};
ghost use Rattle.device.specs.Lone.{kept, seen_of};
ghost use Rattle.lone.specs.Kept.{observation_of, moved_by_kept, shown_by_kept, IsPartOf};

use crate::item::{Handover, Seen};
use crate::lone::Lone;
use crate::pool_view::PoolView;
use device::{Request, Room};
use guest_memory::GuestMem;

/// Gives a request to a watched device, and to the lone function of its pool what that leaves for it; tells what is seen of
/// the function. Settings and frames pass from one to the other by `handover`; what the function sends and reads stands in `room`.
///
/// A function that is as the pool's part of the device stays so, and what is seen of it is what the device shows of the
/// pool: the isolation law, of the code on either side of it.
pub fn follow<M: GuestMem>(
    watch: &mut PoolView<M>,
    lone: &mut Lone<M>,
    request: Request<'_>,
    handover: &mut Handover,
    room: &mut Room,
) -> Option<Seen>
    ensures world { watch.new.world ≡ (step watch.old.world (event_of request.entry)).world }
    ensures pool { watch.new.pool ≡ watch.old.pool }
    ensures lone { lone.new
        ≡ moved_by_kept lone.old (kept watch.old.pool watch.old.world (event_of request.entry)) }
    ensures seen { option_map (observation_of room.new) result
        ≡ shown_by_kept lone.old (kept watch.old.pool watch.old.world (event_of request.entry)) }
    ensures same_state { IsPartOf lone.old watch.old
        → watch.old.pool < length watch.old.world.functions → length watch.old.world.functions ≤ 64
        →
        IsPartOf lone.new watch.new }
    ensures same_sight { IsPartOf lone.old watch.old
        → watch.old.pool < length watch.old.world.functions → length watch.old.world.functions ≤ 64
        →
        option_map (observation_of room.new) result
        ≡ seen_of watch.old.pool (event_of request.entry)
        (step watch.old.world (event_of request.entry)).answer }
{
    hand_on(watch, lone, request, handover, room)
}

// The same, but for what the two have in common.
fn hand_on<M: GuestMem>(
    watch: &mut PoolView<M>,
    lone: &mut Lone<M>,
    request: Request<'_>,
    handover: &mut Handover,
    room: &mut Room,
) -> Option<Seen>
    ensures world { watch.new.world ≡ (step watch.old.world (event_of request.entry)).world }
    ensures pool { watch.new.pool ≡ watch.old.pool }
    ensures lone { lone.new
        ≡ moved_by_kept lone.old (kept watch.old.pool watch.old.world (event_of request.entry)) }
    ensures seen { option_map (observation_of room.new) result
        ≡ shown_by_kept lone.old (kept watch.old.pool watch.old.world (event_of request.entry)) }
{
    match watch.step(request, handover) {
        Some(given) => lone.take(given, room),
        None => None,
    }
}
