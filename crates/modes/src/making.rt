//! The device that a script asks for.
ghost use Rattle.std.specs.Prelude.{◌≡◌, ◌⊎◌, true, false, length, map, replicate, IfOk, IfErr};
ghost use Rattle.wire_frame.specs.declared.fault.Fault.{Fault as Refused};
ghost use Rattle.device.specs.Lone.{alone};
ghost use Rattle.script.specs.Shapes.{asked_by};
ghost use Rattle.modes.specs.Faults.{is_late};
ghost use Rattle.modes.specs.Program.{device_of};

use crate::fault::Fault;
use device::{Device, Room};
use guest_memory::GuestMem;
use lone::{Lone, PoolView};
use script::{Scratch, Shape};
use std::alloc::{AllocError, Global};
use wire_frame::{FrameLimit, PoolId};

/// The device of a script's shape, over these memories. They have to be as many and as large as the shape says, which is
/// tested: what is in a box is not known from outside. [`BadMake`](wire_frame::Fault::BadMake) where they are not, and else
/// [`NoMemory`](wire_frame::Fault::NoMemory) where the host refused the room.
#[inline(never)]
pub fn make_device<M: GuestMem>(
    alloc: Global,
    shape: Shape,
    memories: Vec<M>,
) -> Result<Box<Device<M>>, wire_frame::Fault>
    ensures ok { IfOk result (λ d. d.value.world ≡ device_of (asked_by shape)) }
    ensures err { IfErr result (λ e. (e ≡ Refused.BadMake) ⊎ (e ≡ Refused.NoMemory)) }
{
    if !are_of_size(memories.as_slice(), shape.functions, shape.memory_size) {
        return Err(wire_frame::Fault::BadMake);
    }
    let device = Device::with_limit(alloc, memories, shape.limit.get())?;
    Ok(Box::new(alloc, device)?)
}

// Whether there are so many memories, and each has that size.
fn are_of_size<M: GuestMem>(memories: &[M], count: u8, size: u64) -> bool
    ensures { result ≡ true → map (λ m. length (M.bytes m)) memories.now ≡ replicate count size }
{
    if memories.len() != usize::from(count) {
        return false;
    }
    for memory in memories {
        if !is_of_size(memory, size) {
            return false;
        }
    }
    true
}

/// Whether a memory has that size, in bytes.
pub fn is_of_size<M: GuestMem>(memory: &M, size: u64) -> bool
    ensures { result ≡ true → length (M.bytes memory.now) ≡ size }
{
    memory.size() == size
}

/// Ends what is in a box. For that it is moved to the stack, where whoever calls this has no room for it then.
#[inline(never)]
pub fn drop_boxed<T: Drop>(boxed: Box<T>) {
    let _ = boxed;
}

/// Where the requests of a script are laid out, which is too large for the stack.
#[inline(never)]
pub fn make_scratch(alloc: Global) -> Result<Box<Scratch>, AllocError> {
    Ok(Box::new(alloc, Scratch::new())?)
}

/// What is lent to a lone function for each event: where the event's request is laid out, and the room for what comes of it.
#[derive(Drop)]
pub struct Workspace {
    /// Where the request is laid out.
    pub scratch: Box<Scratch>,
    /// The room for what the function sends and reads.
    pub room: Box<Room>,
}

impl Workspace {
    /// Nothing stands in it yet.
    pub fn new(alloc: Global) -> Result<Workspace, AllocError> {
        Ok(Workspace {
            scratch: make_scratch(alloc)?,
            room: make_room(alloc)?,
        })
    }

    /// Ends it.
    pub fn end(self) {
        drop_boxed(self.scratch);
        drop_boxed(self.room);
    }
}

// The room for what comes of an event.
#[inline(never)]
fn make_room(alloc: Global) -> Result<Box<Room>, AllocError> {
    Ok(Box::new(alloc, Room::new())?)
}

/// A watch.
#[inline(never)]
pub fn make_watch<M: GuestMem>(
    alloc: Global,
    device: Box<Device<M>>,
    pool: PoolId,
) -> Result<Box<PoolView<M>>, Fault>
    ensures ok { IfOk result (λ w. w.value ≡ record { world = device.value.world; pool = pool }) }
    ensures err { IfErr result (λ e. is_late e ≡ true) }
{
    Ok(Box::new(alloc, PoolView::new(Box::into_inner(device), pool))?)
}

/// A lone function.
#[inline(never)]
pub fn make_lone<M: GuestMem>(
    alloc: Global,
    memory: M,
    limit: FrameLimit,
) -> Result<Box<Lone<M>>, Fault>
    ensures ok { IfOk result (λ l. l.value ≡ alone limit (length (M.bytes memory))) }
    ensures err { IfErr result (λ e. is_late e ≡ true) }
{
    Ok(Box::new(alloc, Lone::new(alloc, memory, limit)?)?)
}
