//! Devices are made and freed.
ghost use Rattle.std.specs.Prelude.{◌≡◌, ℕ, ◌++◌, ◌∷◌, [], ◌&&◌, true, false, nat_eq, nat_lt, replicate, map, length, is_some, Some, None, IfOk, IfErr, if◌then◌else◌};
ghost use Rattle.guest_memory.specs.Memory.{is_memory_size};
ghost use Rattle.device.specs.World.{fresh, is_frame_limit, is_makeable};
ghost use Rattle.vfdev_c.specs.Handle.{can_make, is_made, is_lending, lent_in};

use crate::handle::Vfdev;
use crate::handle_state::{HandleState, Running};
use device::Device;
use guest_memory::{FlatMem, is_memory_size};
use std::alloc::Global;
use wire_frame::{Fault, FrameLimit};

/// What a maker answers where it made.
pub const MADE: u32 = 0;
/// What a maker answers where the handle leads to a device, or to memories for one, already.
pub const HELD: u32 = 11;

/// Makes a device of closed functions over zero memories of the library's own, where the handle leads to nothing: 0, or the
/// number of a fault, or 11 where it leads to something.
#[unsafe(no_mangle)]
pub extern "C" fn vfdev_make(
    alloc: Global,
    handle: &mut Vfdev,
    functions: u32,
    size: u64,
    limit: u16,
) -> u32
    ensures made { handle.new.owner.held
        ≡ (if nat_eq result 0 then Some (HandleState.Made (fresh limit (replicate functions size)))
        else handle.old.owner.held) }
    ensures taken { is_some handle.old.owner.held ≡ true → result ≡ 11 }
    ensures bad_make { is_some handle.old.owner.held ≡ false → can_make functions size limit ≡ false
        → result ≡ 10 }
    ensures no_memory { is_some handle.old.owner.held ≡ false → can_make functions size limit ≡ true
        → nat_eq result 0 ≡ false → result ≡ 9 }
{
    if handle.live {
        return HELD;
    }
    match boxed(alloc, functions, size, limit) {
        Ok(state) => {
            handle.put(state);
            MADE
        }
        Err(fault) => u32::from(fault.number()),
    }
}

/// Frees what the handle leads to, where it leads to anything.
#[unsafe(no_mangle)]
pub extern "C" fn vfdev_free(alloc: Global, handle: &mut Vfdev)
    ensures { handle.new.owner.held ≡ None }
{
    let _held = handle.take(alloc);
}

// A device in a box.
#[inline(never)]
#[tactic(auto, using(crate::proofs::HandleLemmas::makeable))]
fn boxed(alloc: Global, functions: u32, size: u64, limit: u16) -> Result<Box<HandleState>, Fault>
    ensures ok { IfOk result (λ b. b.value ≡ HandleState.Made (fresh limit (replicate functions size))) }
    ensures bad_make { can_make functions size limit ≡ false → result ≡ Err Fault.BadMake }
    ensures no_memory { IfErr result
        (λ e. can_make functions size limit ≡ true → e ≡ Fault.NoMemory) }
{
    if !can_make(functions, size, limit) {
        return Err(Fault::BadMake);
    }
    let device = Device::with_limit(alloc, memories(alloc, functions, size)?, limit)?;
    Ok(Box::new(alloc, HandleState::Made(Running::of(device)))?)
}

// Whether a device can be made of so many memories of the size.
pub(crate) fn can_make(functions: u32, size: u64, limit: u16) -> bool
    ensures { result ≡ can_make functions size limit }
{
    functions >= 1 && functions <= 64 && is_memory_size(size) && FrameLimit::new(limit).is_some()
}

// As many memories of the size, which is one of a memory.
pub(crate) fn memories(alloc: Global, functions: u32, size: u64) -> Result<Vec<FlatMem>, Fault>
    requires { is_memory_size size ≡ true }
    ensures sizes { IfOk result
        (λ all. map length all.items ≡ replicate functions size) }
    ensures no_memory { IfErr result (λ e. e ≡ Fault.NoMemory) }
{
    let mut all = Vec::new(alloc);
    for _ in 0..functions {
        let memory = FlatMem::new(alloc, size)?;
        all.push(memory)?;
    }
    Ok(all)
}
