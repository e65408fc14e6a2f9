//! Frames that are switched: to each function that receives them, and to the wire.
ghost use Rattle.std.specs.Prelude.{◌≡◌, ℕ, ◌<◌, ◌≤◌, ◌^◌, ◌==◌, ◌&&◌, not, length, map, slice_index, slice_index_or, slice_set};
ghost use Rattle.wire_frame.specs.Bits.{has_bit};
ghost use Rattle.local_switch.specs.Switch.{leaves};
ghost use Rattle.device.specs.World.{is_looped, all_raised, switched, sizes_of};
ghost use Rattle.device.specs.Accesses.{arrived_accesses};
ghost use Rattle.device.specs.Live.{told_functions, told_world, AreListed, AreMet};
ghost use Rattle.device.specs.Units.{nobody, closed, Offers};

use crate::device::Device;
use irq_causes::{Messages, Vectors};
use live_memory::Dma;
use local_switch::{Source, route_frame};
use vf_unit::VfUnit;
use wire_frame::{Frame, PoolId, PoolSet};

/// What the switching of a frame issued, and whether the frame left for the wire.
#[derive(Clone, Copy)]
pub struct Switched {
    pub messages: Messages,
    pub left: bool,
}

// Whether a frame comes from a pool.
fn is_looped(from: &Source) -> bool
    ensures { result ≡ is_looped from.now }
{
    matches!(from, Source::Pool(_))
}

// Whether a frame that goes to these pools, and to the wire where it leaves, gets to nobody.
#[inline]
fn reaches_nobody(pools: PoolSet, leaves: bool) -> bool
    ensures nobody { result ≡ (not leaves && (pools == 0)) }
    ensures fits { pools < 2 ^ 64 }
{
    pools.is_empty() && !leaves
}

// Delivers a frame to each function in a set of pools; the messages that each pool got.
fn deliver_to_all<D: Dma<K>, K>(
    units: &mut [VfUnit<D, K>],
    pools: PoolSet,
    loopback: bool,
    frame: Frame<'_>,
) -> Messages
    requires { length units.old ≤ 64 }
    ensures offers { (r : ℕ) → r < length units.old → Offers D.shared (has_bit pools r) loopback frame.entry.bytes.now
        (slice_index_or units.old r nobody) (slice_index_or units.new r nobody)
        (slice_index result r) }
    ensures none_there { (r : ℕ) → length units.old ≤ r → slice_index result r ≡ 0 }
    ensures same_length { length units.new ≡ length units.old }
    ensures pools { length result ≡ 64 }
{
    let mut raised = Messages::none();
    for pool in pools {
        let place = usize::from(pool.get());
        if place < units.len() {
            let vectors = units[place].deliver_live(frame, loopback);
            note(&mut raised, pool, vectors);
        }
    }
    raised
}

// Sets the messages to one pool, which has been told none. Most frames issue none.
#[inline(always)]
#[tactic(auto, using(crate::proofs::Arrivals::raised_no_more))]
pub(crate) fn note(raised: &mut Messages, pool: PoolId, vectors: Vectors)
    requires { slice_index raised.old pool ≡ 0 }
    ensures { raised.new ≡ slice_set raised.old pool vectors }
{
    if !vectors.is_empty() {
        raised.give(pool, vectors);
    }
}

// Closes every function.
pub fn end_all<D: Dma<K>, K>(units: &mut [VfUnit<D, K>])
    ensures ended { units.new ≡ map closed units.old }
{
    for unit in units.iter_mut() {
        unit.end();
    }
}

impl<D: Dma<K>, K> Device<D, K> {
    // Switches a frame.
    pub(crate) fn switch(&mut self, from: Source, frame: Frame<'_>) -> Switched
        requires { length frame.bytes.now ≤ self.old.world.profile.limit }
        ensures world { self.new.world
            ≡ switched (told_world self.old.accesses self.new.accesses self.old.world) from frame.entry.bytes.now }
        ensures messages { result.messages
            ≡ all_raised self.old.world.settings
            (told_functions self.old.accesses self.new.accesses self.old.world.functions) from frame.entry.bytes.now }
        ensures listed { AreListed (arrived_accesses self.old.world.settings
            (told_functions self.old.accesses self.new.accesses self.old.world.functions) from frame.entry.bytes.now)
            self.old.accesses self.new.accesses }
        ensures met { AreMet D.shared self.old.accesses self.new.accesses self.old.world }
        ensures left { result.left ≡ leaves self.old.world.settings from frame.entry.bytes.now }
        ensures sizes { sizes_of self.new.world ≡ sizes_of self.old.world }
    {
        let loopback = is_looped(&from);
        let route = route_frame(&self.tables, from, frame);
        self.wire.push_where(route.wire, frame);
        self.unclaimed
            .add_where(reaches_nobody(route.local, route.wire), from);
        Switched {
            messages: deliver_to_all(&mut self.units, route.local, loopback, frame),
            left: route.wire,
        }
    }
}
