//! The frame that is being sent, as far as it is gathered.
ghost use Rattle.std.specs.Prelude.{◌≡◌, ◌↔◌, IsTrue, ℕ, ◌+◌, ◌-◌, ◌≤◌, ◌++◌, [], length, take, replicate, slice_range, vec_capacity, IfOk, IfSome, is_some, nat_lt, ◌<◌, ◌^◌, ◌==◌, None, if◌then◌else◌};
ghost use Rattle.tx_desc.specs.Transmit.{Gathering, Gathered, Overlong, joined, ended, refuses, length_of};
ghost use Rattle.offload.specs.Context.{payload_at};
ghost use Rattle.offload.specs.Cut.{segment_count};
ghost use Rattle.offload.specs.Segment.{segment_of};
ghost use Rattle.offload.specs.Sums.{refusal};
ghost use Rattle.tx_desc.specs.Offloaded.{ended_with, lacks_sums, leaving, with_sums, room_beside, bytes_of, segments_in};
ghost use Rattle.tx_desc.specs.Fetches.{Stands, ReadsApart, data_of};
ghost use Rattle.tx_desc.specs.Lent.{lent_after};
ghost use Rattle.tx_desc.specs.Accesses.{joined_reads, data_reads};
ghost use Rattle.tx_desc.specs.declared.outcome.Fetched.TheVariants.{Frame, Dropped};

use crate::descriptor::TxDescriptor;
use crate::reading::read_data;
use crate::terms::{MOST_CUT, Terms};
use guest_memory::GuestMem;
use live_memory::{Dma, Traced};
use offload::{Context, Cut, Sums, insert_sums};
use std::alloc::{AllocError, Global};
use std::marker::Model;
use wire_frame::{FrameBuf, FrameLimit, PortVlan, is_tagged};

/// How many bytes there is room for: those of the longest frame that is to be cut, and behind them what stands where the headers of one
/// segment are made meanwhile, which are no longer than the longest frame that may leave.
const ROOM: usize = MOST_CUT + 9018;

/// The bytes gathered so far of the frame that is being sent, or that they are too many.
///
/// The room for the longest frame is taken when it is made, and stays untouched as far as no frame has come yet.
#[derive(Drop)]
pub struct Pending {
    // the first `len` are gathered; what earlier frames left stands behind them
    cells: Vec<u8>,
    len: usize,
    is_overlong: bool,
}

impl Model for Pending {
    ghost use Rattle.std.specs.Prelude.{take, length, vec_capacity, ◌≤◌, if◌then◌else◌};
    ghost use Rattle.tx_desc.specs.Transmit.{Gathering, Gathered, Overlong};

    ghost Value = { Gathering };

    ghost view = { λ p. if p.is_overlong then Overlong else Gathered (take p.len p.cells.items) };

    ghost invariant = { λ p. (p.len ≤ length p.cells.items) × ((p.len ≤ 66428) × (75446 ≤ vec_capacity p.cells)) };
}

impl Pending {
    /// No bytes, and room for those of the longest frame.
    pub fn new(alloc: Global) -> Result<Pending, AllocError>
        ensures { IfOk result (λ p. p ≡ Gathered []) }
    {
        let cells = Vec::with_capacity(alloc, ROOM)?;
        Ok(Pending {
            cells,
            len: 0,
            is_overlong: false,
        })
    }

    /// Forgets what is gathered, as where a queue goes off.
    #[inline]
    pub fn clear(&mut self)
        ensures { self.new ≡ Gathered [] }
    {
        self.len = 0;
        self.is_overlong = false;
    }

    // Whether nothing is gathered.
    #[inline]
    pub(crate) fn is_empty(&self) -> bool
        ensures { IsTrue result ↔ (self.now ≡ Gathered []) }
    {
        self.len == 0 && !self.is_overlong
    }

    // Joins the bytes of a descriptor, unless there are more than `most` then. If they are too many, none is read.
    #[inline]
    #[tactic(auto, using(crate::proofs::Unread::reads_none), unfolding(crate::specs::Transmit::joined, crate::specs::Accesses::joined_reads))]
    pub(crate) fn join<D: Dma<K>, K>(
        &mut self,
        memory: &mut Traced<D, K>,
        descriptor: TxDescriptor,
        most: usize,
    )
        requires stands { Stands (D.seen memory.old.memory) descriptor }
        requires most { most ≤ 66428 }
        ensures joined { self.new
            ≡ joined most self.old (data_of (D.seen memory.new.memory) descriptor) }
        ensures listed { memory.new.accesses ≡ memory.old.accesses
            ++ joined_reads most self.old descriptor (D.seen memory.new.memory) }
        ensures reads { ReadsApart D.shared descriptor.at
            memory.old.accesses memory.new.accesses (D.seen memory.old.memory) (D.seen memory.new.memory) }
    {
        let size = descriptor.length() as usize;
        if self.is_overlong || size > most || self.len > most - size {
            self.is_overlong = true;
            return;
        }
        let end = self.len + size;
        read_behind(memory, descriptor, &mut self.cells, self.len, end);
        self.len = end;
    }

    // Joins the `size` bytes from `at` on as `join` does, of a memory of any kind.
    #[tactic(auto, unfolding(crate::specs::Transmit::joined))]
    pub(crate) fn join_any(
        &mut self,
        memory: &dyn GuestMem,
        at: u64,
        size: usize,
        limit: FrameLimit,
    )
        requires { at + size ≤ length (bytes memory.now) }
        ensures { self.new
            ≡ joined limit self.old (slice_range (bytes memory.now) at (at + size)) }
    {
        let most = usize::from(limit.get());
        if self.is_overlong || size > most || self.len > most - size {
            self.is_overlong = true;
            return;
        }
        let end = self.len + size;
        if end > self.cells.len() {
            reach(&mut self.cells, end);
        }
        memory.read_at(at, &mut self.cells[self.len..end]);
        self.len = end;
    }

    // Ends the frame under the last descriptor, and tells whether it is a frame; then `frame` is it, else what it was.
    #[tactic(auto, unfolding(crate::specs::Transmit::ended))]
    pub(crate) fn end(
        &self,
        frame: &mut FrameBuf,
        last: TxDescriptor,
        rule: PortVlan,
        limit: FrameLimit,
    ) -> bool
        ensures value { ended limit rule last.word self.now
            ≡ (if result then Frame frame.new else Dropped) }
        ensures frame { frame.new ≡ lent_after (ended limit rule last.word self.now) frame.old }
    {
        if self.is_overlong {
            return false;
        }
        leave(frame, &self.cells[..self.len], last.tag(rule), rule, limit)
    }

    // Ends the frame under the last descriptor, as `end` does, with what its first one asked for. Nothing is gathered then. Tells whether
    // it is a frame, and whether sums were asked for that can't be made.
    #[tactic(auto, unfolding(crate::specs::Offloaded::ended_with, crate::specs::Offloaded::lacks_sums))]
    pub(crate) fn end_with(
        &mut self,
        frame: &mut FrameBuf,
        context: &Context,
        first: u64,
        last: u64,
        terms: &Terms,
    ) -> (bool, bool)
        ensures value { ended_with terms.now context.now first last self.old
            ≡ (if result.0 then Frame frame.new else Dropped) }
        ensures frame { frame.new
            ≡ lent_after (ended_with terms.now context.now first last self.old) frame.old }
        ensures lacks { result.1 ≡ lacks_sums terms.now context.now first self.old }
        ensures emptied { self.new ≡ Gathered [] }
    {
        if self.is_overlong {
            self.clear();
            return (false, false);
        }
        let lacks = sum_front(&mut self.cells, self.len, context, terms.sums(first));
        let tag = terms.tag(context, first, last);
        let bytes = &self.cells[..self.len];
        let is_frame = leave(frame, bytes, tag, terms.rule, terms.limit);
        self.clear();
        (is_frame, lacks)
    }

    // Makes the lent frame a segment of the bytes that are gathered, by its number, with a tag, if any. Tells whether it is a frame then,
    // and whether it is the last one; None where the bytes have no such segment, or can't be cut.
    #[tactic(auto, unfolding(crate::specs::Offloaded::segments_in))]
    pub(crate) fn segment(
        &mut self,
        frame: &mut FrameBuf,
        context: &Context,
        number: usize,
        tag: Option<u16>,
        terms: &Terms,
    ) -> Option<(bool, bool)>
        ensures pending { self.new ≡ self.old }
        ensures there { is_some result
            ≡ nat_lt number (segments_in (room_beside tag terms.now.limit) context.now self.old) }
        ensures value { IfSome result (λ r.
            leaving terms.now.rule terms.now.limit tag (segment_of context.now (bytes_of self.old) number)
            ≡ (if r.0 then Frame frame.new else Dropped)) }
        ensures frame { IfSome result (λ r. frame.new
            ≡ lent_after (leaving terms.now.rule terms.now.limit tag
            (segment_of context.now (bytes_of self.old) number)) frame.old) }
        ensures last { IfSome result (λ r. r.1
            ≡ (number + 1 == segments_in (room_beside tag terms.now.limit) context.now self.old)) }
        ensures below { IfSome result (λ r. number + 1 < 2 ^ 64) }
        ensures left { result ≡ None → frame.new ≡ frame.old }
    {
        if self.is_overlong {
            return None;
        }
        let Ok(cut) = Cut::of(context, self.len, room_beside(tag, terms.limit)) else {
            return None;
        };
        if !cut.has(number) {
            return None;
        }
        let is_frame = leave_front(frame, &mut self.cells, self.len, &cut, number, tag, terms);
        Some((is_frame, cut.is_last(number)))
    }
}

// Makes the lent frame a segment of the first `len` bytes, as `leave_segment` does, with the room behind them. There is room, so nothing
// is allocated.
fn leave_front(
    frame: &mut FrameBuf,
    cells: &mut Vec<u8>,
    len: usize,
    cut: &Cut,
    number: usize,
    tag: Option<u16>,
    terms: &Terms,
) -> bool
    requires start { len ≤ length cells.old.items }
    requires size { cut.now.size ≡ len }
    requires number { number < segment_count cut.now.context len }
    requires room { len + payload_at cut.now.context ≤ vec_capacity cells.old }
    ensures kept { take len cells.new.items ≡ take len cells.old.items }
    ensures inside { len ≤ length cells.new.items }
    ensures value { leaving terms.now.rule terms.now.limit tag
        (segment_of cut.now.context (take len cells.old.items) number)
        ≡ (if result then Frame frame.new else Dropped) }
    ensures frame { frame.new ≡ lent_after (leaving terms.now.rule terms.now.limit tag
        (segment_of cut.now.context (take len cells.old.items) number)) frame.old }
    ensures capacity { vec_capacity cells.old ≤ vec_capacity cells.new }
{
    let end = len + cut.headers();
    if end > cells.len() {
        reach(cells, end);
    }
    let (bytes, room) = cells.split_at_mut(len);
    leave_segment(frame, bytes, room, cut, number, tag, terms)
}

// Makes the lent frame a segment of the bytes with a tag, if any, as `leave` does. It is made among the bytes, which are as they were
// then: what stands in its place goes into the room meanwhile. So the payload is copied once.
fn leave_segment(
    frame: &mut FrameBuf,
    bytes: &mut [u8],
    room: &mut [u8],
    cut: &Cut,
    number: usize,
    tag: Option<u16>,
    terms: &Terms,
) -> bool
    requires size { cut.now.size ≡ length bytes.old }
    requires number { number < segment_count cut.now.context (length bytes.old) }
    requires room { payload_at cut.now.context ≤ length room.old }
    ensures bytes { bytes.new ≡ bytes.old }
    ensures value { leaving terms.now.rule terms.now.limit tag
        (segment_of cut.now.context bytes.old number) ≡ (if result then Frame frame.new else Dropped) }
    ensures frame { frame.new ≡ lent_after (leaving terms.now.rule terms.now.limit tag
        (segment_of cut.now.context bytes.old number)) frame.old }
{
    let start = cut.place(number);
    let size = cut.segment(bytes, number, room);
    let is_frame = leave(
        frame,
        &bytes[start..start + size],
        tag,
        terms.rule,
        terms.limit,
    );
    cut.put_back(bytes, number, room);
    is_frame
}

// Puts the sums that are asked for into the first `len` bytes, as `make_sums` does.
#[inline]
fn sum_front(cells: &mut Vec<u8>, len: usize, context: &Context, sums: Sums) -> bool
    requires { len ≤ length cells.old.items }
    ensures cells { take len cells.new.items
        ≡ with_sums (refusal context.now sums len) context.now sums (take len cells.old.items) }
    ensures len { length cells.new.items ≡ length cells.old.items }
    ensures capacity { vec_capacity cells.old ≤ vec_capacity cells.new }
    ensures lacks { result ≡ is_some (refusal context.now sums len) }
{
    let (front, _) = cells.split_at_mut(len);
    make_sums(front, context, sums)
}

// Puts the sums that are asked for into bytes, which stay as they are where that can't be done; and tells whether it can't.
#[inline]
fn make_sums(bytes: &mut [u8], context: &Context, sums: Sums) -> bool
    ensures bytes { bytes.new
        ≡ with_sums (refusal context.now sums (length bytes.old)) context.now sums bytes.old }
    ensures len { length bytes.new ≡ length bytes.old }
    ensures lacks { result ≡ is_some (refusal context.now sums (length bytes.old)) }
{
    match insert_sums(bytes, context, sums) {
        Ok(()) => false,
        Err(_) => true,
    }
}

// How long a segment may be that a tag comes to.
#[inline]
fn room_beside(tag: Option<u16>, limit: FrameLimit) -> u16
    ensures value { result ≡ room_beside tag limit }
    ensures most { result ≤ 9018 }
{
    match tag {
        None => limit.get(),
        Some(_) => limit.get() - 4,
    }
}

// Makes the lent frame the bytes with a tag, if any, where they may leave by the port's rule and are a frame then, and tells whether they
// are.
#[inline]
fn leave(
    frame: &mut FrameBuf,
    bytes: &[u8],
    tag: Option<u16>,
    rule: PortVlan,
    limit: FrameLimit,
) -> bool
    ensures value { leaving rule limit tag bytes.now ≡ (if result then Frame frame.new else Dropped) }
    ensures frame { frame.new ≡ lent_after (leaving rule limit tag bytes.now) frame.old }
{
    if refuses(rule, bytes) {
        return false;
    }
    match tag {
        None => frame.refill(bytes, limit),
        Some(tag) => frame.refill_tagged(tag, bytes, limit),
    }
}

// Reads the bytes of a descriptor into the cells from `start` up to `end`. There is room, so nothing is allocated.
#[inline]
fn read_behind<D: Dma<K>, K>(
    memory: &mut Traced<D, K>,
    descriptor: TxDescriptor,
    cells: &mut Vec<u8>,
    start: usize,
    end: usize,
)
    requires stands { Stands (D.seen memory.old.memory) descriptor }
    requires start { start ≤ length cells.old.items }
    requires end { end ≡ start + length_of descriptor.word }
    requires room { end ≤ vec_capacity cells.old }
    ensures len { end ≤ length cells.new.items }
    ensures capacity { vec_capacity cells.old ≤ vec_capacity cells.new }
    ensures cells { take end cells.new.items
        ≡ take start cells.old.items ++ data_of (D.seen memory.new.memory) descriptor }
    ensures listed { memory.new.accesses ≡ memory.old.accesses
        ++ data_reads descriptor (D.seen memory.new.memory) }
    ensures reads { ReadsApart D.shared descriptor.at
        memory.old.accesses memory.new.accesses (D.seen memory.old.memory) (D.seen memory.new.memory) }
{
    if end > cells.len() {
        reach(cells, end);
    }
    read_data(memory, descriptor, &mut cells[start..end]);
}

// Makes the cells that long, by zeros behind those that there are. There is room, so nothing is allocated.
#[cold]
#[inline(never)]
fn reach(cells: &mut Vec<u8>, len: usize)
    requires longer { length cells.old.items ≤ len }
    requires room { len ≤ vec_capacity cells.old }
    ensures cells { cells.new.items
        ≡ cells.old.items ++ replicate (len - length cells.old.items) 0 }
    ensures len { length cells.new.items ≡ len }
    ensures capacity { vec_capacity cells.old ≤ vec_capacity cells.new }
{
    match cells.resize(len, 0) {
        Ok(()) => {}
        Err(_) => unreachable!(),
    }
}

// Whether the port lets no such bytes pass: it has a tag of its own, and they are tagged already.
#[inline]
fn refuses(rule: PortVlan, bytes: &[u8]) -> bool
    ensures { result ≡ refuses rule bytes.now }
{
    matches!(rule, PortVlan::Always(_)) && is_tagged(bytes)
}
