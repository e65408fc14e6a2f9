//! Memories that are lent for a device, before it is made.
ghost use Rattle.std.specs.Prelude.{◌≡◌, ◌≤◌, ◌<◌, true, false, length, map, Err, IfOk, IfErr};
ghost use Rattle.guest_memory.specs.Memory.{is_memory_size};
ghost use Rattle.vfdev_c.specs.Spans.{IsBlock, AreBlocks, block_of, blocks_of, no_access, none_lent, one_more, overlap, overlaps_one};

use live_memory::Dma;
use mapped_memory::LiveMem;
use std::alloc::{AllocError, Global};
use std::marker::Model;
use wire_frame::Fault;

/// How many memories there may be.
pub const MOST_BLOCKS: usize = 64;

/// Where a block lies: the address of its first byte, and how many it has.
#[derive(Clone, Copy)]
pub struct BlockSpan {
    pub address: u64,
    pub len: u64,
}

/// Memories that were lent for a device that is not made yet, at most 64. Each has the bytes of one block, which its guest may write
/// whenever it likes. A contract sees the bytes that each block had when it was lent, and where it lies.
#[derive(Drop)]
pub struct LentBlocks {
    memories: Vec<LiveMem<'static>>,
    spans: Vec<BlockSpan>,
}

impl Model for LentBlocks {
    ghost use Rattle.std.specs.Prelude.{map, length, vec_capacity, ◌≡◌, ◌≤◌};
    ghost use Rattle.vfdev_c.specs.Spans.{Lent, AreBlocks, blocks_of, lent};

    ghost Value = { Lent };

    ghost view = { λ l. lent (blocks_of l.memories.items) l.spans.items };

    ghost invariant = { λ l. (length l.spans.items ≤ 64) × (64 ≤ vec_capacity l.memories)
        × (64 ≤ vec_capacity l.spans)
        × (length l.spans.items ≡ length l.memories.items)
        × AreBlocks l.memories.items };
}

impl LentBlocks {
    /// No memories, and room for all that there may be.
    #[tactic(auto, unfolding(crate::specs::Spans::AreBlocks))]
    pub fn new(alloc: Global) -> Result<LentBlocks, AllocError>
        ensures { IfOk result (λ l. l ≡ none_lent) }
    {
        let memories = Vec::with_capacity(alloc, MOST_BLOCKS)?;
        let spans = Vec::with_capacity(alloc, MOST_BLOCKS)?;
        Ok(LentBlocks { memories, spans })
    }

    /// How many there are, at most 64.
    #[tactic(auto, using(crate::proofs::LentLemmas::as_many))]
    pub fn len(&self) -> usize
        ensures count { result ≡ length self.now.blocks }
        ensures few { result ≤ 64 }
    {
        self.spans.len()
    }

    /// Whether a block overlaps one of them.
    pub fn overlaps(&self, block: BlockSpan) -> bool
        ensures { result ≡ overlaps_one block self.now.spans }
    {
        self.spans.iter().any(|lent| overlap(block, *lent))
    }

    /// One more, whose block begins at the address.
    pub fn push(&mut self, memory: LiveMem<'static>, address: u64)
        requires few { length self.old.blocks < 64 }
        requires block { IsBlock memory }
        ensures { self.new ≡ one_more self.old address (block_of memory.entry) }
    {
        self.spans.push_reserved(BlockSpan {
            address,
            len: memory.extent(),
        });
        self.memories.push_reserved(memory);
    }

    /// The memories, in the order in which their blocks were lent.
    #[tactic(auto, using(crate::proofs::LentLemmas::sizes_of_blocks, crate::proofs::LentLemmas::untouched_blocks))]
    pub fn into_memories(self) -> Vec<LiveMem<'static>>
        ensures blocks { blocks_of result.items ≡ self.blocks }
        ensures whole { AreBlocks result.items }
        ensures sizes { map (λ m. length m.seen) result.items ≡ map length self.blocks }
        ensures untouched { map (λ m. m.accesses) result.items ≡ map no_access self.blocks }
    {
        self.memories
    }
}

/// The memory that a block is. [`Fault::BadMake`] comes exactly where the length is no memory's; [`Fault::NoMemory`] only where the host
/// refused the room.
pub fn memory_of(alloc: Global, cells: &'static mut [u8]) -> Result<LiveMem<'static>, Fault>
    ensures block { IfOk result (λ m. IsBlock m) }
    ensures bytes { IfOk result (λ m. block_of m ≡ cells.old) }
    ensures bad_make { is_memory_size (length cells.old) ≡ false → result ≡ Err Fault.BadMake }
    ensures no_memory { IfErr result (λ e. is_memory_size (length cells.old) ≡ true → e ≡ Fault.NoMemory) }
{
    let mut memory = LiveMem::new(alloc, cells.len() as u64)?;
    match memory.map(0, cells, false) {
        Ok(()) => Ok(memory),
        Err(_) => unreachable!(),
    }
}

// Whether each of two blocks begins before the other ends.
pub(crate) fn overlap(one: BlockSpan, other: BlockSpan) -> bool
    ensures { result ≡ overlap one other }
{
    u128::from(one.address) < u128::from(other.address) + u128::from(other.len)
        && u128::from(other.address) < u128::from(one.address) + u128::from(one.len)
}
