//! One step of a queue whose driver leaves work to the card.
ghost use Rattle.std.specs.Prelude.{◌≡◌, ◌+◌, ◌^◌, ◌<◌, ◌≤◌, ◌++◌, ◌&&◌, true, false, length, None, if◌then◌else◌};
ghost use Rattle.guest_memory.specs.Memory.{overwrite, word_bytes};
ghost use Rattle.live_memory.specs.Trace.{met, IsTraced};
ghost use Rattle.rings.specs.Ring.{LiesInside, owned, head_slot};
ghost use Rattle.tx_desc.specs.Transmit.{wants_report, done_word, next, descriptor_at, fetch};
ghost use Rattle.tx_desc.specs.Fetches.{Stands, KeepsApart};
ghost use Rattle.tx_desc.specs.Accesses.{fetch_accesses};
ghost use Rattle.tx_desc.specs.Offloaded.{fetch_with, plainly, served_next, next_taken, taken_with, segments_of, is_plain};
ghost use Rattle.tx_desc.specs.OffloadedAccesses.{fetch_with_accesses, step_accesses, descriptor_accesses, taken_with_accesses, done_write};
ghost use Rattle.tx_desc.specs.Serves.{Serves};
ghost use Rattle.tx_desc.specs.Misuses.{misuse_of, misuse_there, misuse_unless, misuse_at};

use crate::descriptor::{Kind, TxDescriptor};
use crate::fetching::{fetch_into, report};
use crate::outcome::{Ending, Progress, Turn};
use crate::reading::read_descriptor;
use crate::sending::Sending;
use crate::terms::Terms;
use live_memory::{Dma, Traced};
use rings::Ring;
use wire_frame::FrameBuf;

/// Makes one step of a queue whose driver leaves work to the card: takes the one descriptor at the head of the ring, if there is one, as
/// [`fetch_into`] does, or sends the next segment of the frame that ends with it.
///
/// A context descriptor sets one of the queue's two contexts. A frame is asked for what its first data descriptor says: a tag and sums are
/// put in where it ends, and a frame that is to be cut gives one segment a step; the descriptor that it ends with stays at the head until
/// the last of them. What leaves is left in `frame`, as it leaves. Where the terms have no offloads it is [`fetch_into`].
///
/// What holds there of memory that others write holds here. A segment reads no memory.
#[inline(always)]
#[tactic(auto, unfolding(crate::specs::Offloaded::fetch_with, crate::specs::OffloadedAccesses::fetch_with_accesses, crate::specs::Misuses::misuse_at))]
pub fn fetch_with_offloads<D: Dma<K>, K>(
    memory: &mut Traced<D, K>,
    ring: &mut Ring,
    sending: &mut Sending,
    frame: &mut FrameBuf,
    terms: &Terms,
) -> Turn
    requires inside { LiesInside (length (D.seen memory.old.memory)) ring.old }
    ensures serves { Serves
        (fetch_with terms.now
        (met memory.old.accesses memory.new.accesses (D.seen memory.old.memory)) ring.old sending.old)
        result (D.seen memory.new.memory) ring.new sending.new frame.old frame.new }
    ensures misuse { result.misuse ≡ misuse_at terms.now
        (met memory.old.accesses memory.new.accesses (D.seen memory.old.memory)) ring.old sending.old }
    ensures listed { memory.new.accesses ≡ memory.old.accesses
        ++ fetch_with_accesses terms.now
        (met memory.old.accesses memory.new.accesses (D.seen memory.old.memory)) ring.old sending.old }
    ensures traced { IsTraced D.shared (D.seen memory.old.memory)
        memory.old.accesses memory.new.accesses }
    ensures size { length (D.seen memory.new.memory) ≡ length (D.seen memory.old.memory) }
    ensures inside { LiesInside (length (D.seen memory.new.memory)) ring.new }
{
    if terms.are_plain() {
        fetch_plainly(memory, ring, sending, frame, terms)
    } else {
        // copies, so that what a plain step needs and gives stays in registers
        let offered = *terms;
        let Turn {
            outcome,
            reported,
            falls_short,
            misuse,
        } = fetch_next(memory, ring, sending, frame, &offered);
        Turn {
            outcome,
            reported,
            falls_short,
            misuse,
        }
    }
}

// Takes a descriptor as a card does that does nothing for its driver.
#[inline(always)]
fn fetch_plainly<D: Dma<K>, K>(
    memory: &mut Traced<D, K>,
    ring: &mut Ring,
    sending: &mut Sending,
    frame: &mut FrameBuf,
    terms: &Terms,
) -> Turn
    requires plain { is_plain terms.now.offloads ≡ true }
    requires inside { LiesInside (length (D.seen memory.old.memory)) ring.old }
    ensures serves { Serves
        (plainly sending.old (fetch terms.now.limit terms.now.rule
        (met memory.old.accesses memory.new.accesses (D.seen memory.old.memory)) ring.old sending.old.pending))
        result (D.seen memory.new.memory) ring.new sending.new frame.old frame.new }
    ensures misuse { result.misuse ≡ misuse_there terms.now.offloads
        (met memory.old.accesses memory.new.accesses (D.seen memory.old.memory)) (head_slot ring.old) }
    ensures listed { memory.new.accesses ≡ memory.old.accesses
        ++ fetch_accesses terms.now.limit
        (met memory.old.accesses memory.new.accesses (D.seen memory.old.memory)) ring.old sending.old.pending }
    ensures traced { IsTraced D.shared (D.seen memory.old.memory)
        memory.old.accesses memory.new.accesses }
    ensures size { length (D.seen memory.new.memory) ≡ length (D.seen memory.old.memory) }
    ensures inside { LiesInside (length (D.seen memory.new.memory)) ring.new }
{
    let served = fetch_into(
        memory,
        ring,
        &mut sending.pending,
        frame,
        terms.rule,
        terms.limit,
    );
    Turn {
        outcome: served.outcome,
        reported: served.reported,
        falls_short: false,
        misuse: served.misuse,
    }
}

// Takes the descriptor at the head, or sends the next segment of the frame that ends with it.
#[inline(never)]
fn fetch_next<D: Dma<K>, K>(
    memory: &mut Traced<D, K>,
    ring: &mut Ring,
    sending: &mut Sending,
    frame: &mut FrameBuf,
    terms: &Terms,
) -> Turn
    requires inside { LiesInside (length (D.seen memory.old.memory)) ring.old }
    ensures serves { Serves
        (served_next terms.now
        (met memory.old.accesses memory.new.accesses (D.seen memory.old.memory)) ring.old sending.old (head_slot ring.old))
        result (D.seen memory.new.memory) ring.new sending.new frame.old frame.new }
    ensures misuse { result.misuse ≡ misuse_unless (segments_of sending.old.stage) terms.now.offloads
        (met memory.old.accesses memory.new.accesses (D.seen memory.old.memory)) (head_slot ring.old) }
    ensures listed { memory.new.accesses ≡ memory.old.accesses
        ++ step_accesses terms.now
        (met memory.old.accesses memory.new.accesses (D.seen memory.old.memory)) sending.old (head_slot ring.old) }
    ensures traced { IsTraced D.shared (D.seen memory.old.memory)
        memory.old.accesses memory.new.accesses }
    ensures size { length (D.seen memory.new.memory) ≡ length (D.seen memory.old.memory) }
    ensures inside { LiesInside (length (D.seen memory.new.memory)) ring.new }
{
    let Some(at) = ring.head_slot() else {
        return Turn::unreported(Progress::Idle);
    };
    let Some(segments) = sending.segments() else {
        return take_next(memory, ring, sending, frame, at, terms);
    };
    let ending = sending.next_segment(frame, segments, terms);
    let last = TxDescriptor {
        at,
        buffer: 0,
        word: segments.last,
    };
    conclude(memory, ring, last, ending)
}

// Takes the descriptor that stands at an address, the head of the ring.
fn take_next<D: Dma<K>, K>(
    memory: &mut Traced<D, K>,
    ring: &mut Ring,
    sending: &mut Sending,
    frame: &mut FrameBuf,
    at: u64,
    terms: &Terms,
) -> Turn
    requires place { at + 16 ≤ length (D.seen memory.old.memory) }
    requires owned { 1 ≤ length (owned ring.old) }
    requires inside { LiesInside (length (D.seen memory.old.memory)) ring.old }
    ensures serves { Serves
        (next_taken terms.now
        (met memory.old.accesses memory.new.accesses (D.seen memory.old.memory)) ring.old sending.old
        (descriptor_at at (met memory.old.accesses memory.new.accesses (D.seen memory.old.memory))))
        result (D.seen memory.new.memory) ring.new sending.new frame.old frame.new }
    ensures misuse { result.misuse ≡ misuse_of terms.now.offloads
        (length (met memory.old.accesses memory.new.accesses (D.seen memory.old.memory)))
        (descriptor_at at (met memory.old.accesses memory.new.accesses (D.seen memory.old.memory))) }
    ensures listed { memory.new.accesses ≡ memory.old.accesses
        ++ descriptor_accesses terms.now
        (met memory.old.accesses memory.new.accesses (D.seen memory.old.memory)) sending.old
        (descriptor_at at (met memory.old.accesses memory.new.accesses (D.seen memory.old.memory))) }
    ensures traced { IsTraced D.shared (D.seen memory.old.memory)
        memory.old.accesses memory.new.accesses }
    ensures size { length (D.seen memory.new.memory) ≡ length (D.seen memory.old.memory) }
    ensures inside { LiesInside (length (D.seen memory.new.memory)) ring.new }
{
    let descriptor = read_descriptor(memory, at);
    match descriptor.kind_with(terms.offloads, memory.size()) {
        Kind::Context => {
            ring.advance(1);
            sending.set_context(descriptor);
            Turn::unreported(Progress::More)
        }
        Kind::Unusable => {
            ring.disable();
            sending.clear();
            Turn {
                misuse: descriptor.misuse(terms.offloads, memory.size()),
                ..Turn::unreported(Progress::Faulted)
            }
        }
        Kind::Data => take_data(memory, ring, sending, frame, descriptor, terms),
    }
}

// Takes a descriptor that has bytes.
fn take_data<D: Dma<K>, K>(
    memory: &mut Traced<D, K>,
    ring: &mut Ring,
    sending: &mut Sending,
    frame: &mut FrameBuf,
    descriptor: TxDescriptor,
    terms: &Terms,
) -> Turn
    requires stands { Stands (D.seen memory.old.memory) descriptor }
    requires owned { 1 ≤ length (owned ring.old) }
    requires inside { LiesInside (length (D.seen memory.old.memory)) ring.old }
    ensures serves { Serves
        (taken_with Kind.Data terms.now
        (met memory.old.accesses memory.new.accesses (D.seen memory.old.memory)) ring.old sending.old descriptor)
        result (D.seen memory.new.memory) ring.new sending.new frame.old frame.new }
    ensures misuse { result.misuse ≡ None }
    ensures listed { memory.new.accesses ≡ memory.old.accesses
        ++ taken_with_accesses Kind.Data terms.now
        (met memory.old.accesses memory.new.accesses (D.seen memory.old.memory)) sending.old descriptor }
    ensures apart { KeepsApart D.shared descriptor.at
        memory.old.accesses memory.new.accesses (D.seen memory.old.memory) }
    ensures size { length (D.seen memory.new.memory) ≡ length (D.seen memory.old.memory) }
    ensures inside { LiesInside (length (D.seen memory.new.memory)) ring.new }
{
    let first = sending.first_word(descriptor.word);
    sending
        .pending
        .join(memory, descriptor, terms.most_bytes(first));
    let ending = sending.after_joining(frame, first, descriptor.word, terms);
    conclude(memory, ring, descriptor, ending)
}

// A queue that is done with its descriptor writes it back where its driver asks for it, and goes on to the next.
#[tactic(auto, unfolding(crate::specs::OffloadedAccesses::done_write))]
fn conclude<D: Dma<K>, K>(
    memory: &mut Traced<D, K>,
    ring: &mut Ring,
    descriptor: TxDescriptor,
    ending: Ending,
) -> Turn
    requires place { descriptor.at + 16 ≤ length (D.seen memory.old.memory) }
    requires fits { descriptor.at + 16 < 2 ^ 64 }
    requires owned { 1 ≤ length (owned ring.old) }
    ensures outcome { result.outcome ≡ ending.outcome }
    ensures reported { result.reported ≡ (ending.is_done && wants_report descriptor.word) }
    ensures falls_short { result.falls_short ≡ ending.falls_short }
    ensures memory { D.seen memory.new.memory
        ≡ (if ending.is_done && wants_report descriptor.word
        then overwrite (descriptor.at + 8) (word_bytes (done_word descriptor.word)) (D.seen memory.old.memory)
        else D.seen memory.old.memory) }
    ensures ring { ring.new ≡ (if ending.is_done then next ring.old else ring.old) }
    ensures size { length (D.seen memory.new.memory) ≡ length (D.seen memory.old.memory) }
    ensures listed { memory.new.accesses ≡ memory.old.accesses ++ done_write ending.is_done descriptor }
    ensures misuse { result.misuse ≡ None }
{
    let mut reported = false;
    if ending.is_done {
        reported = report(memory, descriptor);
        ring.advance(1);
    }
    Turn {
        outcome: ending.outcome,
        reported,
        falls_short: ending.falls_short,
        misuse: None,
    }
}
