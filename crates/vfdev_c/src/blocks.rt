//! The blocks that are mapped for the guests of a device.
ghost use Rattle.std.specs.Prelude.{◌≡◌, ◌∷◌, true, false, [], vec_capacity, IfOk};
ghost use Rattle.std.specs.List.{list_any};
ghost use Rattle.vfdev_c.specs.GuestDevices.{AreApart, are_all_mapped, is_anothers, is_mapped_at, meets_another, without_function, without_mapped_at};

use crate::lending::{BlockSpan, overlap};
use std::alloc::{AllocError, Global};
use std::marker::Model;

/// How many blocks may be mapped: 64 for each of 64 functions.
pub const MOST_MAPPED: usize = 4096;

/// A block that is mapped for the guest of a function.
#[derive(Clone, Copy)]
pub struct MappedBlock {
    /// The function.
    pub function: u8,
    /// The guest's address of its first byte.
    pub at: u64,
    /// Where it lies in the host.
    pub span: BlockSpan,
}

/// The blocks that are mapped, the newest first. No byte is in blocks of two functions.
#[derive(Drop)]
pub struct Blocks {
    mapped: Vec<MappedBlock>,
}

impl Model for Blocks {
    ghost use Rattle.std.specs.Prelude.{◌≤◌, List, length, vec_capacity};
    ghost use Rattle.vfdev_c.specs.GuestDevices.{AreApart};
    ghost use Rattle.vfdev_c.specs.declared.blocks.MappedBlock.{MappedBlock};

    ghost Value = { List MappedBlock };

    ghost view = { λ b. b.mapped.items };

    ghost invariant = { λ b. AreApart b.mapped.items × (4096 ≤ vec_capacity b.mapped) };
}

impl Blocks {
    /// None, and room for all that there may be.
    #[tactic(auto, unfolding(crate::specs::GuestDevices::AreApart))]
    pub fn new(alloc: Global) -> Result<Blocks, AllocError>
        ensures { IfOk result (λ b. b ≡ []) }
    {
        let mapped = Vec::with_capacity(alloc, MOST_MAPPED)?;
        Ok(Blocks { mapped })
    }

    /// Whether as many are mapped as there may be.
    pub fn are_all(&self) -> bool
        ensures value { result ≡ are_all_mapped self.now }
        ensures apart { AreApart self.now }
    {
        self.mapped.len() >= MOST_MAPPED
    }

    /// Whether one of these bytes, if there are any, is in a block of another function than this.
    pub fn meets_another(&self, function: u8, span: BlockSpan) -> bool
        ensures { result ≡ meets_another function span self.now }
    {
        span.len > 0 && is_any_anothers(&self.mapped, function, span)
    }

    /// One more, which has no byte of another function's.
    #[tactic(auto, unfolding(crate::specs::GuestDevices::AreApart))]
    pub fn push(&mut self, block: MappedBlock)
        requires room { are_all_mapped self.old ≡ false }
        requires apart { meets_another block.function block.span self.old ≡ false }
        ensures { self.new ≡ block ∷ self.old }
    {
        match self.mapped.insert(0, block) {
            Ok(()) => {}
            Err(_) => unreachable!(),
        }
    }

    /// No block begins at this address of the function's guest any more.
    pub fn remove(&mut self, function: u8, at: u64)
        ensures { self.new ≡ without_mapped_at function at self.old }
    {
        keep_others(&mut self.mapped, function, at);
    }

    /// No block is the function's any more.
    pub fn remove_all(&mut self, function: u8)
        ensures { self.new ≡ without_function function self.old }
    {
        keep_of_others(&mut self.mapped, function);
    }
}

// Keeps the blocks but those that begin at this address of the function's guest.
fn keep_others(mapped: &mut Vec<MappedBlock>, function: u8, at: u64)
    ensures items { mapped.new.items ≡ without_mapped_at function at mapped.old.items }
    ensures capacity { vec_capacity mapped.new ≡ vec_capacity mapped.old }
{
    mapped.retain(|block| !is_mapped_at(function, at, *block));
}

// Keeps the blocks of other functions.
fn keep_of_others(mapped: &mut Vec<MappedBlock>, function: u8)
    ensures items { mapped.new.items ≡ without_function function mapped.old.items }
    ensures capacity { vec_capacity mapped.new ≡ vec_capacity mapped.old }
{
    mapped.retain(|block| block.function != function);
}

// Whether one of the blocks is another function's, with a byte of these.
fn is_any_anothers(mapped: &[MappedBlock], function: u8, span: BlockSpan) -> bool
    ensures { result ≡ list_any (is_anothers function span) mapped.now }
{
    mapped
        .iter()
        .any(|block| is_anothers(function, span, *block))
}

// Whether a block is another function's, with a byte of these.
fn is_anothers(function: u8, span: BlockSpan, block: MappedBlock) -> bool
    ensures { result ≡ is_anothers function span block }
{
    block.function != function && overlap(span, block.span)
}

// Whether a block begins at this address of the function's guest.
fn is_mapped_at(function: u8, at: u64, block: MappedBlock) -> bool
    ensures { result ≡ is_mapped_at function at block }
{
    block.function == function && block.at == at
}
