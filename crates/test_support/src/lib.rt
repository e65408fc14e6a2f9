//! What the tests and benchmarks of several crates share: memories of guests.
#![tactic(auto)]

use guest_memory::FlatMem;
use std::alloc::Global;
use wire_frame::Fault;

/// So many memories of `size` bytes each. [`Fault::BadMake`] for a size that no memory may have, [`Fault::NoMemory`] where the host
/// refuses the room.
pub fn memories(alloc: Global, count: usize, size: u64) -> Result<Vec<FlatMem>, Fault> {
    let mut memories = Vec::new(alloc);
    for _ in 0..count {
        let memory = FlatMem::new(alloc, size)?;
        if memories.push(memory).is_err() {
            return Err(Fault::NoMemory);
        }
    }
    Ok(memories)
}
