//! The history.
ghost use Rattle.std.specs.Prelude.{◌≡◌, ◌≤◌, ◌<◌, ◌*◌, ◌++◌, ◌∷◌, [], length, vec_len, vec_capacity, true, false, IsTrue, ◌↔◌, IfOk, IfErr};
ghost use Rattle.device.specs.declared.event.Reply.TheVariants.{Done};
ghost use Rattle.device.specs.Outcome.{answer_of};
ghost use Rattle.device.specs.Request.{event_of};
ghost use Rattle.wire_frame.specs.Frame.{IsFrame};
ghost use Rattle.history.specs.Entries.{entry, entry_at, is_cap, brings};
ghost use Rattle.history.specs.Heads.{reads};

use crate::bytes::{append, part};
use crate::caller::Caller;
use crate::head::{EventHead, Head, PackedCaller, ReplyKind, head_of, is_event, kind_of, moved};
use crate::reply::is_reply;
use crate::words::{append_words, are_messages, words_len};
use device::{MemSlice, Request, Response, Room};
use std::alloc::{AllocError, Global};
use std::marker::Model;
use wire_frame::{Fault, Frame, FrameLimit};

/// How many entries a history may have at most.
pub const MOST_CALLS: usize = 65_536;

// How many bytes of the store one entry takes at most: those of the longest frame, which is longer than any access to a
// memory, and a word of messages for each of three vectors.
const MOST_BYTES: usize = 9018 + 3 * 8;

/// The calls of a device, the oldest first.
#[derive(Drop)]
pub struct History {
    heads: Vec<Head>,
    store: Vec<u8>,
    cap: usize,
}

impl Model for History {
    ghost use Rattle.history.specs.Entries.{Kept};

    ghost Value = { Kept };

    ghost use Rattle.history.specs.Inside.{kept_of, IsKept};

    ghost view = { kept_of };

    ghost invariant = { IsKept };
}

impl History {
    /// A history without entries, with room for `cap` of any bytes, 1 to 65,536. [`Fault::BadMake`] comes exactly where it is
    /// none of these numbers; [`Fault::NoMemory`] only where the host refused the room.
    ///
    /// ```
    /// let mut memories = Vec::new(rt.alloc());
    /// memories.push(FlatMem::new(rt.alloc(), 4096)?)?;
    /// let mut device = Device::new(rt.alloc(), memories)?;
    /// let mut history = History::new(rt.alloc(), 16)?;
    /// let mut room = Room::new();
    /// assert!(rt; !history.is_full());
    /// history.record(Caller::Service, Request::Open(0), &mut device, &mut room);
    /// assert!(rt; history.len() == 1);
    /// assert!(rt; history.caller(0) == Caller::Service);
    /// ```
    pub fn new(alloc: Global, cap: usize) -> Result<History, Fault>
        ensures empty { IfOk result (λ h. h.entries ≡ []) }
        ensures cap { IfOk result (λ h. h.cap ≡ cap) }
        ensures bad_make { is_cap cap ≡ false → result ≡ Err Fault.BadMake }
        ensures no_memory { IfErr result (λ e. is_cap cap ≡ true → e ≡ Fault.NoMemory) }
    {
        if cap < 1 || cap > MOST_CALLS {
            return Err(Fault::BadMake);
        }
        let heads = Vec::with_capacity(alloc, cap)?;
        let store = room_for(alloc, cap)?;
        Ok(History { heads, store, cap })
    }

    /// How many entries there are.
    #[inline]
    pub fn len(&self) -> usize
        ensures len { result ≡ length self.now.entries }
        ensures most { result ≤ self.now.cap }
    {
        self.heads.len()
    }

    /// Whether there are no entries.
    #[inline]
    pub fn is_empty(&self) -> bool
        ensures { IsTrue result ↔ (self.now.entries ≡ []) }
    {
        self.heads.is_empty()
    }

    /// How many entries there may be, 1 to 65,536.
    #[inline]
    pub fn cap(&self) -> usize
        ensures { result ≡ self.now.cap }
    {
        self.cap
    }

    /// Whether there is no room for one more.
    #[inline]
    pub fn is_full(&self) -> bool
        ensures full { IsTrue result ↔ (length self.now.entries ≡ self.now.cap) }
        ensures most { length self.now.entries ≤ self.now.cap }
    {
        self.heads.len() == self.cap
    }

    // One more entry, for which there is room: who called, what was asked of a device, and what came of it. An event that brings bytes
    // reads none.
    #[inline]
    pub(crate) fn push(
        &mut self,
        caller: Caller,
        request: Request<'_>,
        response: &Response,
        room: &Room,
    )
        requires room { length self.old.entries < self.old.cap }
        requires alone { brings (event_of request) ≡ true → reads response.now.outcome ≡ false }
        ensures entries { self.new.entries ≡ self.old.entries
            ++ entry caller (event_of request.entry) (answer_of room.now response.now) ∷ [] }
        ensures cap { self.new.cap ≡ self.old.cap }
    {
        let start = self.store.len() as u32;
        let bytes = moved(request, response.outcome, room);
        append(&mut self.store, bytes);
        let vectors = append_words(&mut self.store, response.messages.words());
        self.heads.push_reserved(Head {
            event: head_of(request),
            reply: kind_of(response.outcome),
            start,
            count: bytes.len() as u16,
            caller: PackedCaller::new(caller),
            vectors,
        });
    }

    /// No entries. The room stays.
    pub fn clear(&mut self)
        ensures entries { self.new.entries ≡ [] }
        ensures cap { self.new.cap ≡ self.old.cap }
    {
        self.heads.clear();
        self.store.clear();
    }

    /// Who made a call, counted from the oldest.
    #[inline]
    pub fn caller(&self, index: usize) -> Caller
        requires { index < length self.now.entries }
        ensures { result ≡ (entry_at self.now index).caller }
    {
        self.heads[index].caller.get()
    }

    /// What was asked in a call, counted from the oldest. Its bytes stand where they are kept.
    #[inline]
    pub fn request(&self, index: usize) -> Request<'_>
        requires { index < length self.now.entries }
        ensures { event_of result ≡ (entry_at self.now index).event }
    {
        let head = self.heads[index];
        let start = head.start as usize;
        let bytes = part(self.store.as_slice(), start, usize::from(head.count));
        match head.event {
            EventHead::Open(pool) => Request::Open(pool),
            EventHead::End(pool) => Request::End(pool),
            EventHead::VfRead(pool, offset) => Request::VfRead(pool, offset),
            EventHead::VfWrite(pool, offset, value) => Request::VfWrite(pool, offset, value),
            EventHead::MemRead(pool, count, at) => Request::MemRead(pool, at, count),
            EventHead::MemWrite(pool, at) => Request::MemWrite(pool, at, written(bytes)),
            EventHead::Serve(pool, queue) => Request::Serve(pool, queue),
            EventHead::Flr(pool) => Request::Flr(pool),
            EventHead::PfRead(offset) => Request::PfRead(offset),
            EventHead::PfWrite(offset, value) => Request::PfWrite(offset, value),
            EventHead::PfReset => Request::PfReset,
            EventHead::Wire => Request::Wire(frame_of(bytes)),
        }
    }

    /// Whether an event is what was asked in a call, counted from the oldest.
    #[inline]
    pub fn asks(&self, index: usize, request: Request<'_>) -> bool
        requires { index < length self.now.entries }
        ensures { IsTrue result ↔ (event_of request.entry ≡ (entry_at self.now index).event) }
    {
        let head = self.heads[index];
        let start = head.start as usize;
        let bytes = part(self.store.as_slice(), start, usize::from(head.count));
        is_event(head.event, bytes, request)
    }

    /// Whether a call, counted from the oldest, was replied that it was done.
    #[inline]
    #[tactic(auto, using(crate::proofs::HeadLemmas::done_by, crate::proofs::HeadLemmas::done_alone))]
    pub fn is_done(&self, index: usize) -> bool
        requires { index < length self.now.entries }
        ensures { IsTrue result ↔ ((entry_at self.now index).answer.reply ≡ Done) }
    {
        matches!(self.heads[index].reply, ReplyKind::Done)
    }

    // Whether a call, counted from the oldest, was answered so, where this is the room that was lent.
    #[inline]
    pub(crate) fn is_answer(&self, index: usize, response: &Response, room: &Room) -> bool
        requires { index < length self.now.entries }
        ensures { IsTrue result
            ↔ (answer_of room.now response.now ≡ (entry_at self.now index).answer) }
    {
        let head = self.heads[index];
        let store = self.store.as_slice();
        let (start, count) = (head.start as usize, usize::from(head.count));
        let bytes = part(store, start, count);
        let words = part(store, start + count, words_len(head.vectors));
        let same_reply = is_reply(head.reply, bytes, response.outcome, room);
        let same_messages = are_messages(response.messages, head.vectors, words);
        same_reply && same_messages
    }
}

// Room for the bytes of so many entries, and for no more.
fn room_for(alloc: Global, cap: usize) -> Result<Vec<u8>, AllocError>
    requires few { cap ≤ 65536 }
    ensures none { IfOk result (λ store. vec_len store ≡ 0) }
    ensures room { IfOk result (λ store. vec_capacity store ≡ cap * 9042) }
{
    Vec::with_capacity(alloc, cap * MOST_BYTES)
}

// The bytes of a frame as a frame.
#[inline]
fn frame_of(bytes: &[u8]) -> Frame<'_>
    requires { IsFrame bytes.now }
    ensures { result.bytes.now ≡ bytes.now }
{
    match Frame::new(bytes, FrameLimit::longest()) {
        Ok(frame) => frame,
        Err(_) => unreachable!(),
    }
}

// At most 2048 bytes as those of one access.
#[inline]
fn written(bytes: &[u8]) -> MemSlice<'_>
    requires { length bytes.now ≤ 2048 }
    ensures { result.bytes.now ≡ bytes.now }
{
    match MemSlice::new(bytes) {
        Ok(written) => written,
        Err(_) => unreachable!(),
    }
}
