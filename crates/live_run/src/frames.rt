//! Room for frames that leave.
ghost use Rattle.std.specs.Prelude.{◌≡◌, ◌<◌, ◌≤◌, ◌+◌, ◌++◌, true, [], length, slice_index_or, slice_range, vec_len, vec_capacity, IfOk};
ghost use Rattle.live_run.specs.Frames.{FramesState, has_room, with_frame};
ghost use Rattle.live_run.specs.Stored.{begin_of};

use std::alloc::{AllocError, Global};
use std::marker::Model;
use wire_frame::FrameBuf;

/// How many bytes a frame has at most.
const MOST_FRAME: usize = 9018;

/// Room for frames, which stand there one behind another, in order. In contracts it is the frames, how many bytes they have, and
/// how many frames and bytes there may be.
#[derive(Drop)]
pub struct Frames {
    bytes: Vec<u8>,
    // where each ends
    ends: Vec<usize>,
    most: usize,
    size: usize,
}

impl Model for Frames {
    ghost use Rattle.std.specs.Prelude.{◌≤◌, length, vec_capacity};
    ghost use Rattle.live_run.specs.Frames.{FramesState};
    ghost use Rattle.live_run.specs.Stored.{frames_from, IsCut};

    ghost Value = { FramesState };

    ghost view = { λ f. record {
      frames = frames_from 0 f.ends.items f.bytes.items;
      used = length f.bytes.items;
      most = f.most;
      size = f.size;
    } };

    ghost invariant = { λ f. IsCut 0 f.ends.items (length f.bytes.items) × (length f.ends.items ≤ f.most)
        × (f.most ≤ vec_capacity f.ends) × (length f.bytes.items ≤ f.size)
        × (f.size ≤ vec_capacity f.bytes) };
}

impl Frames {
    /// Room for so many frames, of so many bytes together. A frame is taken where there is room for the longest, so the room of a burst
    /// of frames of 1518 bytes has 9018 bytes more than these. No later call takes memory.
    #[tactic(auto, unfolding(crate::specs::Stored::frames_from, crate::specs::Stored::IsCut))]
    pub fn new(alloc: Global, most: usize, size: usize) -> Result<Frames, AllocError>
        ensures { IfOk result (λ f. f ≡ record { frames = []; used = 0; most = most; size = size }) }
    {
        let ends = Vec::with_capacity(alloc, most)?;
        let bytes = Vec::with_capacity(alloc, size)?;
        Ok(Frames {
            bytes,
            ends,
            most,
            size,
        })
    }

    /// How many frames there are.
    #[tactic(auto, using(crate::proofs::FrameLemmas::as_many))]
    pub fn len(&self) -> usize
        ensures { result ≡ length self.now.frames }
    {
        self.ends.len()
    }

    /// Whether there is room for one more, however long it is.
    #[tactic(auto, using(crate::proofs::FrameLemmas::as_many))]
    pub fn has_room(&self) -> bool
        ensures { result ≡ has_room self.now }
    {
        self.ends.len() < self.most && self.size - self.bytes.len() >= MOST_FRAME
    }

    /// The bytes of a frame that is there, the oldest being number 0.
    pub fn frame(&self, number: usize) -> &[u8]
        requires { number < length self.now.frames }
        ensures { result.now ≡ slice_index_or self.now.frames number [] }
    {
        let start = begin_of(&self.ends, number);
        let end = self.ends[number];
        between(&self.bytes, start, end)
    }

    /// One frame more, for which there is room.
    pub fn push(&mut self, frame: &FrameBuf)
        requires { has_room self.old ≡ true }
        ensures { self.new ≡ with_frame self.old frame.now }
    {
        append(&mut self.bytes, frame.bytes());
        self.ends.push_reserved(self.bytes.len());
    }

    /// No frame any more.
    #[tactic(auto, unfolding(crate::specs::Stored::frames_from, crate::specs::Stored::IsCut))]
    pub fn clear(&mut self)
        ensures { self.new ≡ record self.old { frames = []; used = 0 } }
    {
        self.bytes.clear();
        self.ends.clear();
    }
}

// Where a frame begins, by its number.
#[inline]
fn begin_of(ends: &[usize], number: usize) -> usize
    requires { number < length ends.now }
    ensures { result ≡ begin_of ends.now number }
{
    if number == 0 { 0 } else { ends[number - 1] }
}

// The bytes from one place to another.
#[inline]
fn between(bytes: &[u8], start: usize, end: usize) -> &[u8]
    requires order { start ≤ end }
    requires inside { end ≤ length bytes.now }
    ensures { result.now ≡ slice_range bytes.now start end }
{
    &bytes[start..end]
}

// Adds bytes, for which there is room.
#[inline]
fn append(store: &mut Vec<u8>, more: &[u8])
    requires { vec_len store.old + length more.now ≤ vec_capacity store.old }
    ensures items { store.new.items ≡ store.old.items ++ more.now }
    ensures len { vec_len store.new ≡ vec_len store.old + length more.now }
    ensures capacity { vec_capacity store.old ≤ vec_capacity store.new }
{
    match store.extend_from_slice(more) {
        Ok(()) => {}
        Err(_) => unreachable!(),
    }
}
