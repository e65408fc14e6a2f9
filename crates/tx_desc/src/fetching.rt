//! Taking the descriptor at the head of a ring.
ghost use Rattle.std.specs.Prelude.{◌≡◌, ◌+◌, ◌^◌, ◌<◌, ◌≤◌, ◌++◌, IsTrue, [], length, None, if◌then◌else◌};
ghost use Rattle.guest_memory.specs.Memory.{overwrite, word_bytes};
ghost use Rattle.live_memory.specs.Trace.{met, IsTraced};
ghost use Rattle.rings.specs.Ring.{LiesInside, no_ring, owned, head_slot};
ghost use Rattle.tx_desc.specs.Transmit.{fetch, taken, joined, ended, wants_report, done_word, Gathered};
ghost use Rattle.tx_desc.specs.declared.outcome.Fetched.TheVariants.{Frame};
ghost use Rattle.tx_desc.specs.Lent.{fetched_in, lent_after};
ghost use Rattle.tx_desc.specs.Fetches.{Fetches, Stands, ReadsApart, KeepsApart, IsWhole, data_of};
ghost use Rattle.offload.specs.Offloads.{no_offloads};
ghost use Rattle.tx_desc.specs.Misuses.{misuse_there};
ghost use Rattle.tx_desc.specs.Accesses.{fetch_accesses, taken_accesses, joined_reads, data_reads, report_write};

use crate::Pending;
use crate::descriptor::{Kind, TxDescriptor};
use crate::outcome::{Progress, Served};
use crate::reading::{read_data, read_descriptor};
use live_memory::{Dma, Traced};
use offload::Offloads;
use rings::Ring;
use wire_frame::{FrameBuf, FrameLimit, PortVlan};

/// Takes the one descriptor at the head of the ring, if there is one, and tells what came of it.
///
/// A frame that ends with it is left in `frame`, which otherwise stays as it was. `rule` is the port's VLAN rule, and no
/// frame is longer than `limit`, its tag included. A ring that is on has to lie inside the memory, and still does then.
///
/// Others may write the memory meanwhile. It does what is due on the memory that it met: the one that was, with all bytes written
/// into it that were read from it. It makes just the accesses that `fetch_accesses` lists, in that order, and no byte is read twice,
/// so there is one such memory whatever others write, and whenever. The memory's type is known where it is called;
/// [`fetch`](crate::fetch) takes one of any kind behind a reference.
#[inline(always)]
pub fn fetch_into<D: Dma<K>, K>(
    memory: &mut Traced<D, K>,
    ring: &mut Ring,
    pending: &mut Pending,
    frame: &mut FrameBuf,
    rule: PortVlan,
    limit: FrameLimit,
) -> Served
    requires inside { LiesInside (length (D.seen memory.old.memory)) ring.old }
    ensures fetches { Fetches
        (fetch limit rule
        (met memory.old.accesses memory.new.accesses (D.seen memory.old.memory)) ring.old pending.old)
        result (D.seen memory.new.memory) ring.new pending.new frame.old frame.new }
    ensures misuse { result.misuse ≡ misuse_there no_offloads
        (met memory.old.accesses memory.new.accesses (D.seen memory.old.memory)) (head_slot ring.old) }
    ensures listed { memory.new.accesses ≡ memory.old.accesses
        ++ fetch_accesses limit
        (met memory.old.accesses memory.new.accesses (D.seen memory.old.memory)) ring.old pending.old }
    ensures traced { IsTraced D.shared (D.seen memory.old.memory)
        memory.old.accesses memory.new.accesses }
    ensures size { length (D.seen memory.new.memory) ≡ length (D.seen memory.old.memory) }
    ensures inside { LiesInside (length (D.seen memory.new.memory)) ring.new }
{
    let Some(at) = ring.head_slot() else {
        return Served::unreported(Progress::Idle);
    };
    let descriptor = read_descriptor(memory, at);
    match descriptor.kind(memory.size()) {
        Kind::Context => {
            ring.advance(1);
            Served::unreported(Progress::More)
        }
        Kind::Unusable => {
            ring.disable();
            pending.clear();
            Served {
                misuse: descriptor.misuse(Offloads::none(), memory.size()),
                ..Served::unreported(Progress::Faulted)
            }
        }
        Kind::Data => take_data(memory, ring, pending, frame, descriptor, rule, limit),
    }
}

// Takes a descriptor that has bytes.
#[inline(always)]
fn take_data<D: Dma<K>, K>(
    memory: &mut Traced<D, K>,
    ring: &mut Ring,
    pending: &mut Pending,
    frame: &mut FrameBuf,
    descriptor: TxDescriptor,
    rule: PortVlan,
    limit: FrameLimit,
) -> Served
    requires stands { Stands (D.seen memory.old.memory) descriptor }
    requires owned { 1 ≤ length (owned ring.old) }
    requires inside { LiesInside (length (D.seen memory.old.memory)) ring.old }
    ensures fetches { Fetches
        (taken Kind.Data limit rule
        (met memory.old.accesses memory.new.accesses (D.seen memory.old.memory)) ring.old pending.old descriptor)
        result (D.seen memory.new.memory) ring.new pending.new frame.old frame.new }
    ensures misuse { result.misuse ≡ None }
    ensures listed { memory.new.accesses ≡ memory.old.accesses
        ++ taken_accesses Kind.Data limit
        (met memory.old.accesses memory.new.accesses (D.seen memory.old.memory))
        pending.old descriptor }
    ensures apart { KeepsApart D.shared descriptor.at
        memory.old.accesses memory.new.accesses (D.seen memory.old.memory) }
    ensures size { length (D.seen memory.new.memory) ≡ length (D.seen memory.old.memory) }
    ensures inside { LiesInside (length (D.seen memory.new.memory)) ring.new }
{
    let outcome = gather(memory, pending, frame, descriptor, rule, limit);
    let reported = report(memory, descriptor);
    ring.advance(1);
    Served {
        outcome,
        reported,
        misuse: None,
    }
}

// Writes a descriptor back where its driver asks for it, and tells whether it was.
#[inline(always)]
#[tactic(auto, unfolding(crate::specs::Accesses::report_write))]
pub(crate) fn report<D: Dma<K>, K>(memory: &mut Traced<D, K>, descriptor: TxDescriptor) -> bool
    requires place { descriptor.at + 16 ≤ length (D.seen memory.old.memory) }
    requires fits { descriptor.at + 16 < 2 ^ 64 }
    ensures value { result ≡ wants_report descriptor.word }
    ensures memory { D.seen memory.new.memory
        ≡ (if wants_report descriptor.word
        then overwrite (descriptor.at + 8) (word_bytes (done_word descriptor.word)) (D.seen memory.old.memory)
        else D.seen memory.old.memory) }
    ensures size { length (D.seen memory.new.memory) ≡ length (D.seen memory.old.memory) }
    ensures listed { memory.new.accesses ≡ memory.old.accesses ++ report_write descriptor }
{
    let wanted = descriptor.wants_report();
    if wanted {
        memory.store_word(descriptor.at + 8, descriptor.done_word());
    }
    wanted
}

// Gathers the bytes of a descriptor, and ends the frame where it is the last one.
#[inline(always)]
fn gather<D: Dma<K>, K>(
    memory: &mut Traced<D, K>,
    pending: &mut Pending,
    frame: &mut FrameBuf,
    descriptor: TxDescriptor,
    rule: PortVlan,
    limit: FrameLimit,
) -> Progress
    requires { Stands (D.seen memory.old.memory) descriptor }
    ensures outcome { fetched_in result frame.new
        ≡ (taken Kind.Data limit rule (D.seen memory.new.memory) no_ring pending.old descriptor).outcome }
    ensures frame { frame.new
        ≡ lent_after
        (taken Kind.Data limit rule
        (D.seen memory.new.memory) no_ring pending.old descriptor).outcome frame.old }
    ensures pending { pending.new
        ≡ (taken Kind.Data limit rule (D.seen memory.new.memory) no_ring pending.old descriptor).pending }
    ensures listed { memory.new.accesses ≡ memory.old.accesses
        ++ joined_reads limit pending.old descriptor (D.seen memory.new.memory) }
    ensures reads { ReadsApart D.shared descriptor.at
        memory.old.accesses memory.new.accesses (D.seen memory.old.memory) (D.seen memory.new.memory) }
{
    // copies, so that the descriptor stays in registers where these calls aren't made
    let TxDescriptor { at, buffer, word } = descriptor;
    if !descriptor.ends_frame() {
        let part = TxDescriptor { at, buffer, word };
        pending.join(memory, part, usize::from(limit.get()));
        return Progress::More;
    }
    if pending.is_empty() && is_whole(frame, descriptor, rule, limit) {
        take_whole(memory, frame, descriptor, rule, limit);
        return Progress::Ended;
    }
    let last = TxDescriptor { at, buffer, word };
    pending.join(memory, last, usize::from(limit.get()));
    let is_frame = pending.end(frame, last, rule, limit);
    pending.clear();
    if is_frame {
        Progress::Ended
    } else {
        Progress::Dropped
    }
}

// Whether the bytes of a descriptor are a frame as they stand, and the lent frame is as long at least. Shorter ones may be none,
// and a longer one would have to be made room for.
#[inline(always)]
fn is_whole(frame: &FrameBuf, descriptor: TxDescriptor, rule: PortVlan, limit: FrameLimit) -> bool
    ensures { IsTrue result → IsWhole limit rule descriptor.word (length frame.now) }
{
    let len = descriptor.length() as usize;
    if len < 18 || len > usize::from(limit.get()) || len > frame.bytes().len() {
        return false;
    }
    !matches!(rule, PortVlan::Always(_)) && descriptor.tag(rule).is_none()
}

// Makes the lent frame the bytes of a descriptor, straight from the memory.
#[inline(always)]
#[tactic(auto, unfolding(crate::specs::Transmit::joined, crate::specs::Transmit::ended))]
fn take_whole<D: Dma<K>, K>(
    memory: &mut Traced<D, K>,
    frame: &mut FrameBuf,
    descriptor: TxDescriptor,
    rule: PortVlan,
    limit: FrameLimit,
)
    requires stands { Stands (D.seen memory.old.memory) descriptor }
    requires whole { IsWhole limit rule descriptor.word (length frame.old) }
    ensures whole { ended limit rule descriptor.word
        (joined limit (Gathered []) (data_of (D.seen memory.new.memory) descriptor)) ≡ Frame frame.new }
    ensures listed { memory.new.accesses ≡ memory.old.accesses
        ++ data_reads descriptor (D.seen memory.new.memory) }
    ensures reads { ReadsApart D.shared descriptor.at
        memory.old.accesses memory.new.accesses (D.seen memory.old.memory) (D.seen memory.new.memory) }
{
    let len = descriptor.length() as usize;
    read_data(memory, descriptor, frame.cut(len));
}
