//! The card.
ghost use Rattle.std.specs.Prelude.{◌≡◌, ◌≤◌, ◌&&◌, false, true, nat_le, length, map, replicate, slice_index, Err, IfErr, IfOk};
ghost use Rattle.vf_unit.specs.Unit.{counts_of, interval_of};
ghost use Rattle.device.specs.World.{function_of, place_of};
ghost use Rattle.device.specs.Guests.{is_for_guests};
ghost use Rattle.hosted.specs.Hosted.{host_of_ids};
ghost use Rattle.card.specs.Alike.{IsCard};
ghost use Rattle.card.specs.Card.{IsMade, quiet};

use device::Vector;
use hosted::HostedDevice;
use irq_causes::Messages;
use live_memory::Dma;
use local_switch::Source;
use offload::Offloads;
use std::alloc::{AllocError, Global};
use std::marker::Model;
use vf_unit::Counts;
use vfio_session::Session;
use wire_frame::{Fault, FrameLimit, PoolId, Vid};

/// How many ends of connections a card has: one for each function that there may be.
const ENDS: usize = 64;

/// One function's end: the session of its client, and which of its transmit queues may have descriptors that were not taken.
#[derive(Drop)]
pub struct End {
    pub(crate) session: Session,
    pub(crate) busy_0: bool,
    pub(crate) busy_1: bool,
}

impl Model for End {
    ghost use Rattle.card.specs.Card.{EndState};

    ghost Value = { EndState };

    ghost view = { λ e. record { session = e.session; busy_0 = e.busy_0; busy_1 = e.busy_1 } };
}

impl End {
    // Nothing was said, nothing is offered, and no queue is busy.
    pub(crate) fn quiet() -> End
        ensures { result ≡ quiet }
    {
        End {
            session: Session::new(),
            busy_0: false,
            busy_1: false,
        }
    }
}

/// A device with its host, and the end of the connection of each function's client. Contracts see all of them, the device with what was
/// read and written of each memory.
#[derive(Drop)]
pub struct Card<D: Dma<K>, K> {
    pub(crate) hosted: HostedDevice<D, K>,
    // by the pools
    pub(crate) ends: Vec<End>,
    // the vectors of each pool that were not handed out yet
    pub(crate) raised: Messages,
}

impl<D: Dma<K>, K> Model for Card<D, K> {
    ghost use Rattle.std.specs.Prelude.{◌≡◌, length};
    ghost use Rattle.card.specs.Card.{CardState};

    ghost Value = { CardState };

    ghost view = { λ c. record { hosted = c.hosted; ends = c.ends.items; raised = c.raised } };

    ghost invariant = { λ c. length c.ends.items ≡ 64 };
}

impl<D: Dma<K>, K> Card<D, K> {
    /// A card of closed functions, each over one of the memories, 1 to 64, where one of no bytes is vacant. What a policy may name, the
    /// pool that takes what no pool accepts, how long a frame may be, and the offloads are as
    /// [`HostedDevice::for_guests`](hosted::HostedDevice::for_guests) says. No later call takes memory.
    ///
    /// [`Fault::BadMake`] comes exactly where there are more than 64 ids, no memories or more than 64, or one has more than 2^46 bytes;
    /// [`Fault::NoMemory`] only where the host refused the room.
    pub fn for_guests(
        alloc: Global,
        memories: Vec<D>,
        ids: &[Vid],
        default_pool: Option<PoolId>,
        limit: FrameLimit,
        offloads: Offloads,
    ) -> Result<Card<D, K>, Fault>
        ensures made { IfOk result (IsMade (host_of_ids ids.now default_pool limit) offloads
            (map (λ m. length (D.seen m)) memories.items)) }
        ensures untouched { IfOk result (λ c.
            c.hosted.device.accesses ≡ map (λ m. D.noted m) memories.items) }
        ensures bad_make { (nat_le (length ids.now) 64 && is_for_guests
            (map (λ m. length (D.seen m)) memories.items)) ≡ false → result ≡ Err Fault.BadMake }
        ensures no_memory { IfErr result (λ e.
            (nat_le (length ids.now) 64
            && is_for_guests (map (λ m. length (D.seen m)) memories.items)) ≡ true
            → e ≡ Fault.NoMemory) }
    {
        let hosted = HostedDevice::for_guests(alloc, memories, ids, default_pool, limit, offloads)?;
        let ends = quiet_ends(alloc)?;
        Ok(Card {
            hosted,
            ends,
            raised: Messages::none(),
        })
    }

    /// How many functions there are, at most 64. Its contract says besides what stands between any two calls (`IsCard`): the device's
    /// settings are those of the host, no function has more than its policy grants, and each of 64 pools has its end and a set of vectors.
    pub fn functions(&self) -> usize
        ensures count { result ≡ length self.now.hosted.device.world.functions }
        ensures few { result ≤ 64 }
        ensures is_card { IsCard self.now }
    {
        self.raised.masks_are_small();
        let _ends = self.ends.len();
        self.hosted.functions()
    }

    /// What a function has counted since its guest came or it was reset, as [`HostedDevice::counts`](hosted::HostedDevice::counts) says.
    pub fn counts(&self, pool: PoolId) -> Counts
        ensures { result ≡ counts_of (function_of pool self.now.hosted.device.world) }
    {
        self.hosted.counts(pool)
    }

    /// How many frames from a source nobody got since the card was made, as [`HostedDevice::unclaimed`](hosted::HostedDevice::unclaimed) says.
    pub fn unclaimed(&self, from: Source) -> u32
        ensures { result ≡ slice_index self.now.hosted.device.world.unclaimed (place_of from) }
    {
        self.hosted.unclaimed(from)
    }

    /// How many microseconds apart a function's driver wants the messages of a vector to be at least, 0 to 1022, as
    /// [`HostedDevice::interval`](hosted::HostedDevice::interval) says. The card counts no time: a shell that keeps them so far apart names
    /// a vector in [`Card::signal`] once so much time has gone since its file was written.
    pub fn interval(&self, pool: PoolId, vector: Vector) -> u16
        ensures { result ≡ interval_of (function_of pool self.now.hosted.device.world) vector }
    {
        self.hosted.interval(pool, vector)
    }
}

// The ends of all functions, at which nothing was said.
fn quiet_ends(alloc: Global) -> Result<Vec<End>, AllocError>
    ensures { IfOk result (λ ends. ends.items ≡ replicate 64 quiet) }
{
    let mut ends = Vec::with_capacity(alloc, ENDS)?;
    for _ in 0..ENDS {
        ends.push(End::quiet())?;
    }
    Ok(ends)
}
