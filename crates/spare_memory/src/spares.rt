//! The spare memories.
ghost use Rattle.std.specs.Prelude.{◌≡◌, true, length, map, replicate, IfErr, IfOk};
ghost use Rattle.std.specs.List.{All};
ghost use Rattle.wire_frame.specs.declared.fault.Fault.{Fault};
ghost use Rattle.mapped_memory.specs.Regions.{is_space};
ghost use Rattle.spare_memory.specs.Spares.{IsSpare, SPACE, size_in};

use mapped_memory::LiveMem;
use std::alloc::{AllocError, Global};
use std::marker::Model;
use wire_frame::Fault;

/// How many functions a card or a device may have.
const FUNCTIONS: usize = 64;

/// For each of 64 functions a memory that its card or device doesn't have: one of 64 TiB of addresses, of which none is mapped, for the guest that
/// comes; or, while a guest is there, the one of no bytes that a vacant function has. And one more, which stands in a guest's place
/// while a region is mapped. In contracts it is how many bytes the memory of each function has.
#[derive(Drop)]
pub struct Spares<'a> {
    // by the pools
    pub(crate) memories: Vec<LiveMem<'a>>,
    // one, which is out while it stands in
    pub(crate) stand_in: Vec<LiveMem<'a>>,
}

impl<'a> Model for Spares<'a> {
    ghost use Rattle.std.specs.Prelude.{◌≡◌, ◌≤◌, ℕ, List, length, map, vec_capacity};
    ghost use Rattle.std.specs.List.{All};
    ghost use Rattle.spare_memory.specs.Spares.{IsSpare, IsStandIn, size_in};

    ghost Value = { List ℕ };

    ghost view = { λ s. map size_in s.memories.items };

    ghost invariant = { λ s. (length s.memories.items ≡ 64) × All IsSpare s.memories.items
        × (length s.stand_in.items ≡ 1) × All IsStandIn s.stand_in.items
        × (1 ≤ vec_capacity s.stand_in) };
}

impl<'a> Spares<'a> {
    /// Memories for 64 guests. [`Fault::NoMemory`] only where the host refused the room, which is some 140 KB.
    pub fn new(alloc: Global) -> Result<Spares<'a>, Fault>
        ensures ok { IfOk result (λ s. s ≡ replicate 64 SPACE) }
        ensures no_memory { IfErr result (λ e. e ≡ Fault.NoMemory) }
    {
        let memories = all(alloc)?;
        let mut stand_in = Vec::with_capacity(alloc, 1)?;
        stand_in.push_reserved(LiveMem::for_guest(alloc, guest_space())?);
        Ok(Spares { memories, stand_in })
    }
}

// How many addresses a guest's memory has: 64 TiB. Proofs take it as a number without a value.
#[tactic(auto, unfolding(crate::specs::Spares::SPACE))]
fn guest_space() -> u64
    ensures value { result ≡ SPACE }
    ensures space { is_space result ≡ true }
{
    1 << 46
}

// A memory for each of 64 guests.
fn all<'a>(alloc: Global) -> Result<Vec<LiveMem<'a>>, Fault>
    ensures many { IfOk result (λ all. length all.items ≡ 64) }
    ensures spare { IfOk result (λ all. All IsSpare all.items) }
    ensures sizes { IfOk result (λ all. map size_in all.items ≡ replicate 64 SPACE) }
    ensures no_memory { IfErr result (λ e. e ≡ Fault.NoMemory) }
{
    let mut memories = Vec::with_capacity(alloc, FUNCTIONS)?;
    for _ in 0..FUNCTIONS {
        let memory = LiveMem::for_guest(alloc, guest_space())?;
        memories.push_reserved(memory);
    }
    Ok(memories)
}
