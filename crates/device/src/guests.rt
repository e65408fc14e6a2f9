//! Guests that come to a device and go while it lives, each with a memory of its own.
//!
//! A function without a guest is vacant: closed, over a memory of no bytes, where no queue can go on. A guest that comes brings its
//! memory, as it is, and none of it is written; one that goes takes it away. Either changes that function alone. A reset of the
//! device closes each function, and a function that is closed forgets what its registers were; its guest's memory stays with it
//! until the host detaches it. A host that opens a closed function by [`Device::open`] writes zero over its guest's memory.
//!
//! A running guest's memory changes what it is made of, as where a hypervisor maps another region: [`Device::replace_memory`] gives it
//! out against a memory of the same size, and takes it in again.
ghost use Rattle.std.specs.Prelude.{◌≡◌, ◌<◌, ◌≤◌, ◌&&◌, true, false, length, map, set, Some, None, Err, IfOk, IfErr, OnOk, OnErr};
ghost use Rattle.vf_unit.specs.Guests.{over, IsFormer};
ghost use Rattle.vf_unit.specs.Unit.{size_of};
ghost use Rattle.device.specs.World.{fresh_with, is_frame_limit, function_of, with_function};
ghost use Rattle.device.specs.Live.{trace_of};
ghost use Rattle.device.specs.Guests.{is_for_guests, is_vacant, attach_refusal, attached, detached, replace_refusal, over_memory};

use crate::device::Device;
use crate::profile::Profile;
use live_memory::{Dma, Traced};
use offload::Offloads;
use std::alloc::Global;
use wire_frame::{Fault, FrameLimit, PoolId};

/// The most bytes of a guest's memory: 64 TiB.
pub const MOST_MEMORY: u64 = 1 << 46;

/// A memory that was not taken, which who brought it has again.
#[derive(Drop)]
pub struct NotTaken<D> {
    /// Why.
    pub why: Fault,
    /// The memory, as it was.
    pub memory: D,
}

impl<D: Dma<K>, K> Device<D, K> {
    /// A device with a closed function over each of the memories, 1 to 64, of up to [`MOST_MEMORY`] bytes each. A function over a
    /// memory of no bytes is vacant. It takes frames of up to `limit` bytes, 1518 to 9018, and does `offloads` for the driver of each guest
    /// that comes.
    ///
    /// [`Fault::BadMake`] comes exactly where there are no memories or more than 64, one has more bytes, or the limit is another;
    /// [`Fault::NoMemory`] only where the host refused the room.
    #[inline(never)]
    pub fn for_guests(
        alloc: Global,
        memories: Vec<D>,
        limit: u16,
        offloads: Offloads,
    ) -> Result<Device<D, K>, Fault>
        ensures ok { IfOk result
            (λ d. d.world
            ≡ fresh_with (record { limit = limit; offloads = offloads })
            (map (λ m. length (D.seen m)) memories.items)) }
        ensures untouched { IfOk result (λ d. d.accesses ≡ map (λ m. D.noted m) memories.items) }
        ensures bad_make { (is_frame_limit limit && is_for_guests
            (map (λ m. length (D.seen m)) memories.items)) ≡ false → result ≡ Err Fault.BadMake }
        ensures no_memory { IfErr result
            (λ e.
            (is_frame_limit limit && is_for_guests (map (λ m. length (D.seen m)) memories.items))
            ≡ true → e ≡ Fault.NoMemory) }
    {
        let Some(limit) = FrameLimit::new(limit) else {
            return Err(Fault::BadMake);
        };
        if !is_for_guests(memories.as_slice()) {
            return Err(Fault::BadMake);
        }
        Device::over(alloc, memories, Profile { limit, offloads })
    }

    /// A guest comes to a vacant function, with its memory as it is: the function is open then, every register initial, and it has the
    /// offloads that the device was made with. No byte is read or written. The memory of no bytes that was there is handed out. Where the guest is refused, nothing changes.
    ///
    /// [`Fault::NoSuchVf`], then [`Fault::AlreadyOpen`] where the function isn't vacant, then [`Fault::BadMake`] where the memory has
    /// no byte or more than [`MOST_MEMORY`].
    pub fn attach(&mut self, pool: u8, memory: D) -> Result<D, NotTaken<D>>
        ensures taken { OnOk result
            (attach_refusal self.old.world pool (length (D.seen memory)) ≡ None) }
        ensures world { OnOk result (self.new.world ≡ attached self.old.world pool (D.seen memory)) }
        ensures untouched { OnOk result
            (self.new.accesses ≡ set self.old.accesses pool (D.noted memory)) }
        ensures vacancy { IfOk result (λ former. length (D.seen former) ≡ 0) }
        ensures why { IfErr result
            (λ e. attach_refusal self.old.world pool (length (D.seen memory)) ≡ Some e.why) }
        ensures given_back { IfErr result (λ e. e.memory ≡ memory) }
        ensures unchanged { OnErr result (self.new ≡ self.old) }
    {
        let index = usize::from(pool);
        if index >= self.functions() {
            return Err(NotTaken {
                why: Fault::NoSuchVf,
                memory,
            });
        }
        if self.memory_size(index) != 0 {
            return Err(NotTaken {
                why: Fault::AlreadyOpen,
                memory,
            });
        }
        let size = memory.extent();
        if size == 0 || size > MOST_MEMORY {
            return Err(NotTaken {
                why: Fault::BadMake,
                memory,
            });
        }
        let opening = Some(self.profile().offloads);
        Ok(self.exchange(index, memory, opening).into_memory())
    }

    /// A guest goes: its function is closed and vacant then, over `vacancy`, a memory of no bytes, and the guest's memory is handed out
    /// as it stands, with the list of what was read and written there ([`Traced::into_memory`] gives the memory by itself). No byte
    /// is read or written. `vacancy` comes back, and nothing changes, where there is no such function or it is vacant.
    pub fn detach(&mut self, pool: u8, vacancy: D) -> Result<Traced<D, K>, D>
        requires { length (D.seen vacancy) ≡ 0 }
        ensures world { self.new.world ≡ detached self.old.world pool }
        ensures untouched { OnOk result
            (self.new.accesses ≡ set self.old.accesses pool (D.noted vacancy)) }
        ensures former { IfOk result
            (λ kept. IsFormer (function_of pool self.old.world) (D.seen kept.memory)) }
        ensures listed { IfOk result (λ kept. kept.accesses ≡ trace_of self.old.accesses pool) }
        ensures there { OnOk result (is_vacant self.old.world pool ≡ false) }
        ensures vacant { OnErr result (is_vacant self.old.world pool ≡ true) }
        ensures given_back { IfErr result (λ back. back ≡ vacancy) }
        ensures unchanged { OnErr result (self.new ≡ self.old) }
    {
        let index = usize::from(pool);
        if index >= self.functions() || self.memory_size(index) == 0 {
            return Err(vacancy);
        }
        Ok(self.exchange(index, vacancy, None))
    }

    /// Gives a function another memory of as many bytes, as it is, and hands out its own, with the list of what was read and written
    /// there. Nothing else changes, no register either, and no byte is read or written. So a host changes what a memory is made of while
    /// its guest runs, between two events: it takes the memory out against one without regions, maps and unmaps, and puts it back.
    ///
    /// [`Fault::NoSuchVf`], then [`Fault::BadMake`] where the memory has another number of bytes: nothing changes, and it comes back.
    pub fn replace_memory(&mut self, pool: u8, memory: D) -> Result<Traced<D, K>, NotTaken<D>>
        ensures taken { OnOk result
            (replace_refusal self.old.world pool (length (D.seen memory)) ≡ None) }
        ensures world { OnOk result (self.new.world ≡ over_memory self.old.world pool (D.seen memory)) }
        ensures untouched { OnOk result
            (self.new.accesses ≡ set self.old.accesses pool (D.noted memory)) }
        ensures former { IfOk result
            (λ kept. IsFormer (function_of pool self.old.world) (D.seen kept.memory)) }
        ensures size { IfOk result
            (λ kept. length (D.seen kept.memory) ≡ length (D.seen memory)) }
        ensures listed { IfOk result (λ kept. kept.accesses ≡ trace_of self.old.accesses pool) }
        ensures why { IfErr result
            (λ e. replace_refusal self.old.world pool (length (D.seen memory)) ≡ Some e.why) }
        ensures given_back { IfErr result (λ e. e.memory ≡ memory) }
        ensures unchanged { OnErr result (self.new ≡ self.old) }
    {
        let index = usize::from(pool);
        if index >= self.functions() {
            return Err(NotTaken {
                why: Fault::NoSuchVf,
                memory,
            });
        }
        if self.memory_size(index) != memory.extent() {
            return Err(NotTaken {
                why: Fault::BadMake,
                memory,
            });
        }
        Ok(self.change_memory(index, memory))
    }

    // Gives a function that is there another memory of as many bytes, and hands out its own with its list.
    fn change_memory(&mut self, index: usize, memory: D) -> Traced<D, K>
        requires there { index < length self.old.world.functions }
        requires size { length (D.seen memory) ≡ size_of (function_of index self.old.world) }
        ensures world { self.new.world ≡ over_memory self.old.world index (D.seen memory) }
        ensures accesses { self.new.accesses ≡ set self.old.accesses index (D.noted memory) }
        ensures former { IsFormer (function_of index self.old.world) (D.seen result.memory) }
        ensures size { length (D.seen result.memory) ≡ size_of (function_of index self.old.world) }
        ensures listed { result.accesses ≡ trace_of self.old.accesses index }
    {
        self.units[index].replace_memory(memory)
    }

    // Gives a function that is there another memory, and hands out its own with its list.
    fn exchange(&mut self, index: usize, memory: D, opening: Option<Offloads>) -> Traced<D, K>
        requires { index < length self.old.world.functions }
        ensures world { self.new.world ≡ with_function self.old.world index (over opening (D.seen memory)) }
        ensures accesses { self.new.accesses ≡ set self.old.accesses index (D.noted memory) }
        ensures former { IsFormer (function_of index self.old.world) (D.seen result.memory) }
        ensures size { length (D.seen result.memory) ≡ size_of (function_of index self.old.world) }
        ensures listed { result.accesses ≡ trace_of self.old.accesses index }
    {
        self.units[index].exchange(memory, opening)
    }
}

// Whether a device for guests can be made of these memories.
#[tactic(auto, unfolding(crate::specs::Guests::is_for_guests))]
fn is_for_guests<D: Dma<K>, K>(memories: &[D]) -> bool
    ensures makeable { result ≡ is_for_guests (map (λ m. length (D.seen m)) memories.now) }
    ensures few { result ≡ true → length memories.now ≤ 64 }
{
    if memories.is_empty() || memories.len() > usize::from(PoolId::COUNT) {
        return false;
    }
    for memory in memories {
        if memory.extent() > MOST_MEMORY {
            return false;
        }
    }
    true
}
