//! Slots that frames are laid into, all in one room.
ghost use Rattle.std.specs.Prelude.{◌≡◌, ◌≤◌, ◌<◌, ◌+◌, ◌*◌, [], ◌∷◌, ◌++◌, true, length, replicate, take, slice_index_or, slice_range, slice_set, vec_capacity, IfOk};
ghost use Rattle.guest_memory.specs.Memory.{overwrite};
ghost use Rattle.wire_frame.specs.Frame.{IsFrame, is_frame};
ghost use Rattle.device.specs.Slots.{AreSlots, laid_in};

use std::alloc::{AllocError, Global};
use std::marker::Model;
use wire_frame::{Frame, FrameBuf, FrameLimit};

/// How many slots there may be.
pub const MOST_SLOTS: usize = 1024;

/// Up to 1024 slots of as many bytes as a frame may have, with a frame in each. In contracts it is the frames, slot by slot, and how long
/// each may be.
///
/// The room for all slots is reserved at first, and none of it is touched until a frame is laid into it.
#[derive(Drop)]
pub struct FrameSlots {
    limit: FrameLimit,
    // slot behind slot
    bytes: Vec<u8>,
    // how long the frame in each is
    lengths: Vec<u16>,
}

impl Model for FrameSlots {
    ghost use Rattle.std.specs.Prelude.{◌≤◌, ◌*◌, vec_capacity};
    ghost use Rattle.device.specs.Slots.{KeptFrames, AreSlots, laid_in};

    ghost Value = { KeptFrames };

    ghost view = { λ s. record { frames = laid_in s.limit s.lengths.items s.bytes.items; limit = s.limit } };

    ghost invariant = { λ s. AreSlots s.limit s.lengths.items s.bytes.items
        × (1024 ≤ vec_capacity s.lengths) × (1024 * s.limit ≤ vec_capacity s.bytes) };
}

impl FrameSlots {
    /// No slot, and room for all that there may be, of `limit` bytes each.
    #[tactic(auto, using(crate::proofs::SlotBytes::no_slots), unfolding(crate::specs::Slots::laid_in))]
    pub fn new(alloc: Global, limit: FrameLimit) -> Result<FrameSlots, AllocError>
        ensures { IfOk result (λ s. s ≡ record { frames = []; limit = limit }) }
    {
        let bytes = Vec::with_capacity(alloc, MOST_SLOTS * usize::from(limit.get()))?;
        let lengths = Vec::with_capacity(alloc, MOST_SLOTS)?;
        Ok(FrameSlots {
            limit,
            bytes,
            lengths,
        })
    }

    /// How many slots there are.
    #[tactic(auto, using(crate::proofs::SlotBytes::as_many))]
    #[inline]
    pub fn len(&self) -> usize
        ensures len { result ≡ length self.now.frames }
        ensures few { result ≤ 1024 }
    {
        self.lengths.len()
    }

    /// One slot more, with a frame. To take a slot writes all its bytes, which no later frame in it does.
    #[cold]
    #[inline(never)]
    pub fn add(&mut self, frame: Frame<'_>)
        requires few { length self.old.frames < 1024 }
        requires short { length frame.bytes.now ≤ self.old.limit }
        ensures frames { self.new.frames ≡ self.old.frames ++ frame.entry.bytes.now ∷ [] }
        ensures limit { self.new.limit ≡ self.old.limit }
    {
        let bytes = frame.bytes();
        append(&mut self.bytes, bytes, usize::from(self.limit.get()));
        self.lengths.push_reserved(bytes.len() as u16);
    }

    /// Lays a frame into a slot, in place of the one that is there.
    #[inline]
    pub fn lay(&mut self, slot: u16, frame: Frame<'_>)
        requires there { slot < length self.old.frames }
        requires short { length frame.bytes.now ≤ self.old.limit }
        ensures frames { self.new.frames ≡ slice_set self.old.frames slot frame.entry.bytes.now }
        ensures limit { self.new.limit ≡ self.old.limit }
    {
        let bytes = frame.bytes();
        let start = start_of(self.limit, slot);
        write_over(&mut self.bytes, start, bytes);
        self.lengths[usize::from(slot)] = bytes.len() as u16;
    }

    /// Makes `room` the frame in a slot.
    pub fn copy_to(&self, slot: u16, room: &mut FrameBuf)
        requires { slot < length self.now.frames }
        ensures { room.new ≡ slice_index_or self.now.frames slot [] }
    {
        let start = start_of(self.limit, slot);
        let end = start + usize::from(self.lengths[usize::from(slot)]);
        refill(room, between(&self.bytes, start, end), self.limit);
    }
}

// Where a slot begins.
#[inline]
fn start_of(limit: FrameLimit, slot: u16) -> usize
    ensures { result ≡ slot * limit }
{
    usize::from(slot) * usize::from(limit.get())
}

// The bytes from one place to another.
#[inline]
fn between(bytes: &[u8], start: usize, end: usize) -> &[u8]
    requires order { start ≤ end }
    requires inside { end ≤ length bytes.now }
    ensures { result.now ≡ slice_range bytes.now start end }
{
    &bytes[start..end]
}

// Makes a frame the bytes, which are one.
fn refill(room: &mut FrameBuf, bytes: &[u8], limit: FrameLimit)
    requires { is_frame limit bytes.now ≡ true }
    ensures { room.new ≡ bytes.now }
{
    room.refill(bytes, limit);
}

// Adds `size` bytes, for which there is room: `first`, and zeros behind them.
fn append(bytes: &mut Vec<u8>, first: &[u8], size: usize)
    requires short { length first.now ≤ size }
    requires room { length bytes.old.items + size ≤ vec_capacity bytes.old }
    ensures before { take (length bytes.old.items) bytes.new.items ≡ bytes.old.items }
    ensures first { slice_range bytes.new.items (length bytes.old.items)
        (length bytes.old.items + length first.now) ≡ first.now }
    ensures len { length bytes.new.items ≡ length bytes.old.items + size }
    ensures capacity { vec_capacity bytes.old ≤ vec_capacity bytes.new }
{
    let start = bytes.len();
    append_zeros(bytes, size);
    write_over(bytes, start, first);
}

// Adds zeros, for which there is room.
fn append_zeros(bytes: &mut Vec<u8>, count: usize)
    requires { length bytes.old.items + count ≤ vec_capacity bytes.old }
    ensures items { bytes.new.items ≡ bytes.old.items ++ replicate count 0 }
    ensures capacity { vec_capacity bytes.old ≤ vec_capacity bytes.new }
{
    match bytes.resize(bytes.len() + count, 0) {
        Ok(()) => {}
        Err(_) => unreachable!(),
    }
}

// Writes bytes over those that are there.
#[inline]
fn write_over(bytes: &mut Vec<u8>, start: usize, source: &[u8])
    requires { start + length source.now ≤ length bytes.old.items }
    ensures items { bytes.new.items ≡ overwrite start source.now bytes.old.items }
    ensures len { length bytes.new.items ≡ length bytes.old.items }
    ensures capacity { vec_capacity bytes.new ≡ vec_capacity bytes.old }
{
    let bytes = bytes.as_mut_slice();
    bytes[start..start + source.len()].copy_from_slice(source);
}
