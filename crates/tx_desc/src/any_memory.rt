//! Taking a descriptor from a memory of any kind, behind one reference.
ghost use Rattle.std.specs.Prelude.{◌≡◌, ◌+◌, ◌^◌, ◌<◌, ◌≤◌, [], length, slice_range, if◌then◌else◌};
ghost use Rattle.rings.specs.Ring.{LiesInside, owned};
ghost use Rattle.tx_desc.specs.Transmit.{fetch, taken, length_of, ends_frame, ended, Gathered};
ghost use Rattle.tx_desc.specs.declared.outcome.Fetched.TheVariants.{More};

use crate::Pending;
use crate::descriptor::{Kind, TxDescriptor};
use crate::outcome::Fetched;
use guest_memory::GuestMem;
use rings::Ring;
use wire_frame::{FrameBuf, FrameLimit, PortVlan};

/// Takes the one descriptor at the head of the ring, if there is one, and answers what came of it and whether the
/// descriptor was written back.
///
/// It means what [`fetch_into`](crate::fetch_into) does, of a memory of any kind behind one reference that nobody else writes, and each
/// access is a call through its table. Every frame is gathered first.
#[tactic(auto, unfolding(crate::specs::Transmit::fetch))]
pub fn fetch(
    memory: &mut dyn GuestMem,
    ring: &mut Ring,
    pending: &mut Pending,
    rule: PortVlan,
    limit: FrameLimit,
) -> (Fetched, bool)
    requires inside { LiesInside (length (bytes memory.old)) ring.old }
    ensures outcome { result.0
        ≡ (fetch limit rule (bytes memory.old) ring.old pending.old).outcome }
    ensures reported { result.1
        ≡ (fetch limit rule (bytes memory.old) ring.old pending.old).reported }
    ensures memory { bytes memory.new
        ≡ (fetch limit rule (bytes memory.old) ring.old pending.old).memory }
    ensures ring { ring.new ≡ (fetch limit rule (bytes memory.old) ring.old pending.old).ring }
    ensures pending { pending.new
        ≡ (fetch limit rule (bytes memory.old) ring.old pending.old).pending }
    ensures size { length (bytes memory.new) ≡ length (bytes memory.old) }
    ensures inside { LiesInside (length (bytes memory.new)) ring.new }
{
    let Some(at) = ring.head_slot() else {
        return (Fetched::Idle, false);
    };
    let (buffer, word) = memory.read_words(at);
    let descriptor = TxDescriptor { at, buffer, word };
    match descriptor.kind(memory.size()) {
        Kind::Context => {
            ring.advance(1);
            (Fetched::More, false)
        }
        Kind::Unusable => {
            ring.disable();
            pending.clear();
            (Fetched::Faulted, false)
        }
        Kind::Data => take_data(memory, ring, pending, descriptor, rule, limit),
    }
}

// Takes a descriptor that has bytes.
fn take_data(
    memory: &mut dyn GuestMem,
    ring: &mut Ring,
    pending: &mut Pending,
    descriptor: TxDescriptor,
    rule: PortVlan,
    limit: FrameLimit,
) -> (Fetched, bool)
    requires place { descriptor.at + 16 ≤ length (bytes memory.old) }
    requires fits { descriptor.at + 16 < 2 ^ 64 }
    requires within { descriptor.buffer + length_of descriptor.word ≤ length (bytes memory.old) }
    requires owned { 1 ≤ length (owned ring.old) }
    requires inside { LiesInside (length (bytes memory.old)) ring.old }
    ensures outcome { result.0
        ≡ (taken Kind.Data limit rule
        (bytes memory.old) ring.old pending.old descriptor).outcome }
    ensures reported { result.1
        ≡ (taken Kind.Data limit rule
        (bytes memory.old) ring.old pending.old descriptor).reported }
    ensures memory { bytes memory.new
        ≡ (taken Kind.Data limit rule (bytes memory.old) ring.old pending.old descriptor).memory }
    ensures ring { ring.new
        ≡ (taken Kind.Data limit rule (bytes memory.old) ring.old pending.old descriptor).ring }
    ensures pending { pending.new
        ≡ (taken Kind.Data limit rule
        (bytes memory.old) ring.old pending.old descriptor).pending }
    ensures size { length (bytes memory.new) ≡ length (bytes memory.old) }
    ensures inside { LiesInside (length (bytes memory.new)) ring.new }
{
    let size = descriptor.length() as usize;
    pending.join_any(memory, descriptor.buffer, size, limit);
    let fetched = end(pending, descriptor, rule, limit);
    let reported = descriptor.wants_report();
    if reported {
        memory.write_word(descriptor.at + 8, descriptor.done_word());
    }
    ring.advance(1);
    (fetched, reported)
}

// Ends the gathered frame, where the descriptor is its last one.
fn end(
    pending: &mut Pending,
    descriptor: TxDescriptor,
    rule: PortVlan,
    limit: FrameLimit,
) -> Fetched
    ensures outcome { result
        ≡ (if ends_frame descriptor.word
        then ended limit rule descriptor.word pending.old else More) }
    ensures pending { pending.new
        ≡ (if ends_frame descriptor.word then Gathered [] else pending.old) }
{
    if !descriptor.ends_frame() {
        return Fetched::More;
    }
    let mut frame = FrameBuf::blank();
    let is_frame = pending.end(&mut frame, descriptor, rule, limit);
    pending.clear();
    if is_frame {
        Fetched::Frame(frame)
    } else {
        Fetched::Dropped
    }
}
