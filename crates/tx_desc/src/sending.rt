//! What is being sent from a queue whose driver leaves work to the card.
ghost use Rattle.std.specs.Prelude.{◌≡◌, ◌<◌, IfOk, if◌then◌else◌};
ghost use Rattle.tx_desc.specs.Offloaded.{nothing_sent, emptied, first_word, segments_of, context_for, with_context, after_joining, next_segment};
ghost use Rattle.tx_desc.specs.Serves.{Ends};
ghost use Rattle.tx_desc.specs.declared.outcome.Progress.TheVariants.{Ended, Dropped};
ghost use Rattle.offload.specs.Context.{context_of};

use crate::Pending;
use crate::descriptor::TxDescriptor;
use crate::outcome::{Ending, Progress};
use crate::terms::Terms;
use offload::Context;
use std::alloc::{AllocError, Global};
use wire_frame::{FrameBuf, field};

/// The lowest bit of IDX, which of its queue's two contexts a data descriptor means.
const IDX: u32 = 36;
/// How many bits of it are looked at.
const IDX_SIZE: u32 = 1;

/// A frame that is being cut into segments.
#[derive(Clone, Copy, Debug)]
pub struct Segments {
    /// The second word of the descriptor with which it began.
    pub first: u64,
    /// The second word of its last descriptor, which stays the head of the ring until the last segment is sent.
    pub last: u64,
    /// The number of the next segment, from 0 on.
    pub number: usize,
}

/// How far a frame is.
#[derive(Clone, Copy, Debug)]
pub enum Stage {
    /// None has begun.
    Between,
    /// It is being gathered; it began with a descriptor of this second word.
    Begun(u64),
    /// All of it is gathered, and it is being cut.
    Cutting(Segments),
}

/// What is being sent from a queue, with the two contexts that its driver may set.
#[derive(Drop)]
pub struct Sending {
    /// The bytes of the frame that is being sent.
    pub pending: Pending,
    /// How far it is.
    pub stage: Stage,
    /// The context 0 of the queue.
    pub context_0: Context,
    /// The context 1 of the queue.
    pub context_1: Context,
}

impl Sending {
    /// Nothing, with no context set, and room for the longest frame.
    pub fn new(alloc: Global) -> Result<Sending, AllocError>
        ensures { IfOk result (λ s. s ≡ nothing_sent) }
    {
        let pending = Pending::new(alloc)?;
        Ok(Sending {
            pending,
            stage: Stage::Between,
            context_0: Context::decode(0, 0),
            context_1: Context::decode(0, 0),
        })
    }

    /// Forgets all of it, as where the queue goes off.
    pub fn clear(&mut self)
        ensures { self.new ≡ nothing_sent }
    {
        self.pending.clear();
        self.stage = Stage::Between;
        self.context_0 = Context::decode(0, 0);
        self.context_1 = Context::decode(0, 0);
    }

    // Sets the context that a context descriptor holds.
    pub(crate) fn set_context(&mut self, descriptor: TxDescriptor)
        ensures { self.new ≡ with_context self.old (context_of descriptor.buffer descriptor.word) }
    {
        let context = Context::decode(descriptor.buffer, descriptor.word);
        if context.index == 0 {
            self.context_0 = context;
        } else {
            self.context_1 = context;
        }
    }

    // The word with which the frame began that a descriptor of this word joins.
    #[inline]
    pub(crate) fn first_word(&self, word: u64) -> u64
        ensures { result ≡ first_word self.now.stage word }
    {
        match self.stage {
            Stage::Between => word,
            Stage::Begun(first) => first,
            Stage::Cutting(segments) => segments.first,
        }
    }

    // The context that a frame means which began with this word.
    #[inline]
    pub(crate) fn context(&self, first: u64) -> Context
        ensures { result ≡ context_for self.now first }
    {
        if field(first, IDX, IDX_SIZE) == 0 {
            self.context_0
        } else {
            self.context_1
        }
    }

    // The frame that is being cut, if one is.
    #[inline]
    pub(crate) fn segments(&self) -> Option<Segments>
        ensures { result ≡ segments_of self.now.stage }
    {
        match self.stage {
            Stage::Between | Stage::Begun(_) => None,
            Stage::Cutting(segments) => Some(segments),
        }
    }

    // Forgets the frame.
    fn empty(&mut self)
        ensures { self.new ≡ emptied self.old }
    {
        self.pending.clear();
        self.stage = Stage::Between;
    }

    // The bytes of a descriptor of this word were joined: a frame that began with the word `first` goes on, or ends, or is to be cut.
    pub(crate) fn after_joining(
        &mut self,
        frame: &mut FrameBuf,
        first: u64,
        word: u64,
        terms: &Terms,
    ) -> Ending
        ensures { Ends (after_joining terms.now self.old first word self.old.pending) result self.new frame.old frame.new }
    {
        let descriptor = TxDescriptor {
            at: 0,
            buffer: 0,
            word,
        };
        if !descriptor.ends_frame() {
            self.stage = Stage::Begun(first);
            return Ending {
                outcome: Progress::More,
                is_done: true,
                falls_short: false,
            };
        }
        if terms.cuts(first) {
            self.stage = Stage::Cutting(Segments {
                first,
                last: word,
                number: 0,
            });
            return Ending {
                outcome: Progress::More,
                is_done: false,
                falls_short: false,
            };
        }
        let context = self.context(first);
        let (is_frame, lacks) = self.pending.end_with(frame, &context, first, word, terms);
        self.stage = Stage::Between;
        Ending {
            outcome: ended(is_frame),
            is_done: true,
            falls_short: lacks,
        }
    }

    // The next segment of a frame leaves, or the whole frame is dropped where it can't be cut.
    #[tactic(auto, unfolding(crate::specs::Offloaded::next_segment))]
    pub(crate) fn next_segment(
        &mut self,
        frame: &mut FrameBuf,
        segments: Segments,
        terms: &Terms,
    ) -> Ending
        ensures { Ends (next_segment terms.now self.old segments) result self.new frame.old frame.new }
    {
        let context = self.context(segments.first);
        let tag = terms.tag(&context, segments.first, segments.last);
        let Some((is_frame, is_last)) = self
            .pending
            .segment(frame, &context, segments.number, tag, terms)
        else {
            self.empty();
            return Ending {
                outcome: Progress::Dropped,
                is_done: true,
                falls_short: true,
            };
        };
        if is_last {
            self.empty();
        } else {
            self.stage = Stage::Cutting(Segments {
                first: segments.first,
                last: segments.last,
                number: segments.number + 1,
            });
        }
        Ending {
            outcome: ended(is_frame),
            is_done: is_last,
            falls_short: false,
        }
    }
}

// What came of bytes that were to leave.
#[inline]
fn ended(is_frame: bool) -> Progress
    ensures { result ≡ (if is_frame then Ended else Dropped) }
{
    if is_frame {
        Progress::Ended
    } else {
        Progress::Dropped
    }
}
