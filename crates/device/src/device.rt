//! The device: how it is made, and what it shows.
ghost use Rattle.std.specs.Prelude.{◌≡◌, ℕ, [], ◌<◌, ◌≤◌, ◌&&◌, true, false, length, replicate, map, slice_get, slice_index, option_copied, IfOk, IfErr};
ghost use Rattle.pool_filter.specs.Settings.{initial_settings};
ghost use Rattle.vf_unit.specs.Unit.{Closed, size_of, counts_of, interval_of, bytes_at};
ghost use Rattle.device.specs.World.{fresh, fresh_with, is_frame_limit, is_makeable, function_of, place_of};

use crate::profile::Profile;
use crate::unclaimed::Unclaimed;
use crate::wire_out::WireOut;
use guest_memory::is_memory_size;
use live_memory::{Alone, Dma};
use local_switch::Source;
use pool_filter::Tables;
use std::alloc::{AllocError, Global};
use std::marker::Model;
use vf_unit::{Counts, Vector, VfUnit};
use wire_frame::{Fault, FrameBuf, FrameLimit, PoolId};

/// A device over the memories of its guests.
#[derive(Drop)]
pub struct Device<D: Dma<K>, K = Alone> {
    pub(crate) profile: Profile,
    // in a box, so that a device is a few words, and moved in few steps over a small stack
    pub(crate) tables: Box<Tables>,
    // bit p where function p was reset
    pub(crate) resets: u64,
    pub(crate) units: Vec<VfUnit<D, K>>,
    pub(crate) wire: WireOut,
    pub(crate) unclaimed: Unclaimed,
}

impl<D: Dma<K>, K> Model for Device<D, K> {
    ghost use Rattle.std.specs.Prelude.{map, length, ◌≤◌, ◌≡◌};
    ghost use Rattle.device.specs.Live.{TracedWorld};

    ghost Value = { TracedWorld };

    ghost view = { λ d. record {
      world = record {
        profile = d.profile;
        settings = d.tables.value;
        resets = d.resets;
        functions = map (λ u. u.function) d.units.items;
        wire = d.wire.frames;
        unclaimed = d.unclaimed;
      };
      accesses = map (λ u. u.accesses) d.units.items;
    } };

    ghost invariant = { λ d. (length d.units.items ≤ 64) × (d.wire.limit ≡ d.profile.limit) };
}

impl<D: Dma<K>, K> Device<D, K> {
    /// A device with a virtual function over each of the memories, all closed, that takes frames of up to 1518 bytes.
    /// [`Fault::BadMake`] comes exactly where there are no memories or more than 64, or one has a size outside the limits;
    /// [`Fault::NoMemory`] only where the host refused the room.
    ///
    /// ```
    /// let mut memories = Vec::new(rt.alloc());
    /// memories.push(FlatMem::new(rt.alloc(), 65536)?)?;
    /// memories.push(FlatMem::new(rt.alloc(), 65536)?)?;
    /// let mut device = Device::new(rt.alloc(), memories)?;
    /// assert!(rt; device.open(1) == Ok(()));
    /// assert!(rt; device.open(2) == Err(Fault::NoSuchVf));
    /// ```
    pub fn new(alloc: Global, memories: Vec<D>) -> Result<Device<D, K>, Fault>
        ensures ok { IfOk result
            (λ d. d.world ≡ fresh 1518 (map (λ m. length (D.seen m)) memories.items)) }
        ensures untouched { IfOk result (λ d. d.accesses ≡ map (λ m. D.noted m) memories.items) }
        ensures bad_make { is_makeable (map (λ m. length (D.seen m)) memories.items) ≡ false
            → result ≡ Err Fault.BadMake }
        ensures no_memory { IfErr result
            (λ e. is_makeable (map (λ m. length (D.seen m)) memories.items) ≡ true
            → e ≡ Fault.NoMemory) }
    {
        Device::make(alloc, memories, FrameLimit::standard())
    }

    /// The same, that takes frames of up to `limit` bytes. [`Fault::BadMake`] comes also where that is not 1518 to 9018.
    #[inline(never)]
    pub fn with_limit(alloc: Global, memories: Vec<D>, limit: u16) -> Result<Device<D, K>, Fault>
        ensures ok { IfOk result
            (λ d. d.world ≡ fresh limit (map (λ m. length (D.seen m)) memories.items)) }
        ensures untouched { IfOk result (λ d. d.accesses ≡ map (λ m. D.noted m) memories.items) }
        ensures bad_make { (is_frame_limit limit && is_makeable
            (map (λ m. length (D.seen m)) memories.items)) ≡ false → result ≡ Err Fault.BadMake }
        ensures no_memory { IfErr result
            (λ e.
            (is_frame_limit limit && is_makeable (map (λ m. length (D.seen m)) memories.items))
            ≡ true → e ≡ Fault.NoMemory) }
    {
        match FrameLimit::new(limit) {
            Some(limit) => Device::make(alloc, memories, limit),
            None => Err(Fault::BadMake),
        }
    }

    // A device that takes frames up to the limit.
    #[inline(never)]
    fn make(alloc: Global, memories: Vec<D>, limit: FrameLimit) -> Result<Device<D, K>, Fault>
        ensures ok { IfOk result
            (λ d. d.world ≡ fresh limit (map (λ m. length (D.seen m)) memories.items)) }
        ensures untouched { IfOk result (λ d. d.accesses ≡ map (λ m. D.noted m) memories.items) }
        ensures bad_make { is_makeable (map (λ m. length (D.seen m)) memories.items) ≡ false
            → result ≡ Err Fault.BadMake }
        ensures no_memory { IfErr result
            (λ e. is_makeable (map (λ m. length (D.seen m)) memories.items) ≡ true
            → e ≡ Fault.NoMemory) }
    {
        if !is_makeable(memories.as_slice()) {
            return Err(Fault::BadMake);
        }
        Device::over(alloc, memories, Profile::plain(limit))
    }

    // A closed function over each of the memories.
    #[inline(never)]
    pub(crate) fn over(
        alloc: Global,
        memories: Vec<D>,
        profile: Profile,
    ) -> Result<Device<D, K>, Fault>
        requires { length memories.items ≤ 64 }
        ensures ok { IfOk result
            (λ d. d.world ≡ fresh_with profile (map (λ m. length (D.seen m)) memories.items)) }
        ensures untouched { IfOk result (λ d. d.accesses ≡ map (λ m. D.noted m) memories.items) }
        ensures no_memory { IfErr result (λ e. e ≡ Fault.NoMemory) }
    {
        let tables = first_tables(alloc)?;
        let wire = WireOut::new(alloc, profile.limit)?;
        let unclaimed = Unclaimed::new(alloc)?;
        let units = close_all(alloc, memories)?;
        Ok(Device {
            profile,
            tables,
            resets: 0,
            units,
            wire,
            unclaimed,
        })
    }

    /// How many virtual functions there are, at most 64.
    pub fn functions(&self) -> usize
        ensures count { result ≡ length self.now.world.functions }
        ensures few { length self.now.world.functions ≤ 64 }
    {
        self.units.len()
    }

    /// How long the frames may be that it takes, in bytes.
    pub fn limit(&self) -> FrameLimit
        ensures { result ≡ self.now.world.profile.limit }
    {
        self.profile.limit
    }

    /// What it was made with.
    pub fn profile(&self) -> Profile
        ensures { result ≡ self.now.world.profile }
    {
        self.profile
    }

    /// The size of the memory of a virtual function that is there, in bytes.
    pub fn memory_size(&self, pool: usize) -> u64
        requires { pool < length self.now.world.functions }
        ensures { result ≡ size_of (function_of pool self.now.world) }
    {
        self.units[pool].memory_size()
    }

    /// What a virtual function that is there has counted since it was opened, its guest came or it was reset: frames that came and that it
    /// sent, frames lost for want of room and by the check on its senders, and descriptors that stopped a queue.
    pub fn counts(&self, pool: usize) -> Counts
        requires { pool < length self.now.world.functions }
        ensures { result ≡ counts_of (function_of pool self.now.world) }
    {
        self.units[pool].counts()
    }

    /// How many frames from a source nobody got since the device was made, modulo 2^32: they left for no wire, and no pool that may receive
    /// accepted them. A reset of the device changes none of these numbers.
    pub fn unclaimed(&self, from: Source) -> u32
        ensures { result ≡ slice_index self.now.world.unclaimed (place_of from) }
    {
        self.unclaimed.of(from)
    }

    /// How many microseconds apart the driver of a virtual function that is there wants the messages of a vector to be at least, 0 to 1022;
    /// 0 where it says nothing of it, and of a closed function (82599 datasheet, VTEITR). The device does not count time: whoever hands the
    /// messages out keeps them apart.
    pub fn interval(&self, pool: usize, vector: Vector) -> u16
        requires { pool < length self.now.world.functions }
        ensures { result ≡ interval_of (function_of pool self.now.world) vector }
    {
        self.units[pool].interval(vector)
    }

    /// How many frames are kept of those that went to the wire, at most 1024.
    pub fn wire_len(&self) -> usize
        ensures { result ≡ length self.now.world.wire }
    {
        self.wire.len()
    }

    /// One of the frames that went to the wire, counted from the oldest that is kept. It is laid into `room`, and handed out from there.
    pub fn wire_at<'f>(&self, index: usize, room: &'f mut FrameBuf) -> Option<&'f FrameBuf>
        ensures { option_copied result ≡ slice_get self.now.world.wire index }
    {
        self.wire.at(index, room)
    }

    /// The settings of the physical function.
    pub fn tables(&self) -> &Tables
        ensures { result.now ≡ self.now.world.settings }
    {
        &self.tables
    }
}

// Whether a device can be made of these memories.
#[tactic(auto, unfolding(crate::specs::World::is_makeable))]
fn is_makeable<D: Dma<K>, K>(memories: &[D]) -> bool
    ensures makeable { result ≡ is_makeable (map (λ m. length (D.seen m)) memories.now) }
    ensures few { result ≡ true → length memories.now ≤ 64 }
{
    if memories.is_empty() || memories.len() > usize::from(PoolId::COUNT) {
        return false;
    }
    for memory in memories {
        if !is_memory_size(memory.extent()) {
            return false;
        }
    }
    true
}

// The tables of a device as it is made, in their box. It is a call of its own, so that what it needs of the stack is free again.
#[inline(never)]
fn first_tables(alloc: Global) -> Result<Box<Tables>, Fault>
    ensures ok { IfOk result (λ b. b.value ≡ initial_settings) }
    ensures no_memory { IfErr result (λ e. e ≡ Fault.NoMemory) }
{
    Ok(Box::new(alloc, Tables::new())?)
}

// A closed function over each of the memories. The error comes only where the host refused the room.
fn close_all<D: Dma<K>, K>(alloc: Global, memories: Vec<D>) -> Result<Vec<VfUnit<D, K>>, AllocError>
    ensures { IfOk result
        (λ units. units.items
        ≡ map (λ m. record { function = Closed (length (D.seen m)); accesses = D.noted m }) memories.items) }
{
    let mut units = Vec::with_capacity(alloc, memories.len())?;
    for memory in memories {
        let unit = VfUnit::new(alloc, memory)?;
        units.push(unit)?;
    }
    Ok(units)
}
