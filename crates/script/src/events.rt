//! The events of a script, kept in few bytes.
ghost use Rattle.std.specs.Prelude.{◌≡◌, ◌<◌, ◌≤◌, [], length, slice_index_or, IfErr, OnOk, OnErr, Some, None};
ghost use Rattle.wire_frame.specs.Frame.{IsFrame};
ghost use Rattle.device.specs.Request.{event_of};
ghost use Rattle.device.specs.declared.event.Event.TheVariants.{PfReset};
ghost use Rattle.script.specs.Lines.{event_by, Says};

use crate::fault::Refusal;
use crate::kind::Kind;
use crate::record::{Record, record_of_line};
use crate::scratch::Scratch;
use crate::store::Store;
use crate::words::Words;
use device::{MemSlice, Request};
use std::alloc::Global;
use std::marker::Model;
use wire_frame::{Frame, FrameLimit};

/// Events, the first one first.
#[derive(Drop)]
pub struct Events {
    records: Vec<Record>,
    store: Store,
}

impl Model for Events {
    ghost use Rattle.std.specs.Prelude.{List};
    ghost use Rattle.device.specs.Events.{Event};

    ghost Value = { List Event };

    ghost use Rattle.script.specs.Inside.{events_of, IsKept};

    ghost view = { events_of };

    ghost invariant = { IsKept };
}

impl Events {
    /// No events.
    pub fn new(alloc: Global) -> Events
        ensures { result ≡ [] }
    {
        Events {
            records: Vec::new(alloc),
            store: Store::new(alloc),
        }
    }

    /// How many events there are.
    #[inline]
    pub fn len(&self) -> usize
        ensures { result ≡ length self.now }
    {
        self.records.len()
    }

    /// One more event at the end, that of a line of this kind, by the words after its name. Frames may be as long as the
    /// limit, and are tried in `scratch`.
    pub fn push(
        &mut self,
        kind: Kind,
        words: Words<'_>,
        limit: FrameLimit,
        scratch: &mut Scratch,
    ) -> Result<(), Refusal>
        ensures ok { OnOk result (Says (event_by limit kind words.entry) self.old self.new) }
        ensures bad { IfErr result
            (λ e. e ≡ Refusal.BadLine → event_by limit kind words.entry ≡ None) }
        ensures err { OnErr result (self.new ≡ self.old) }
    {
        let record = record_of_line(kind, words, limit, &mut self.store, scratch)?;
        self.records.push(record)?;
        Ok(())
    }

    /// An event, as a device is asked it. Its bytes, where it has some, may be laid out in `scratch`.
    #[inline]
    pub fn request<'a>(&'a self, index: usize, scratch: &'a mut Scratch) -> Request<'a>
        requires { index < length self.now }
        ensures { event_of result ≡ slice_index_or self.now index PfReset }
    {
        match self.records[index] {
            Record::MemWrite(pool, at, span) => {
                Request::MemWrite(pool, at, few(self.store.bytes(span, &mut scratch.bytes)))
            }
            Record::Wire(span) => {
                Request::Wire(framed(self.store.bytes(span, &mut scratch.bytes)))
            }
            Record::Open(pool) => Request::Open(pool),
            Record::End(pool) => Request::End(pool),
            Record::VfRead(pool, offset) => Request::VfRead(pool, offset),
            Record::VfWrite(pool, offset, value) => Request::VfWrite(pool, offset, value),
            Record::MemRead(pool, at, count) => Request::MemRead(pool, at, count),
            Record::Serve(pool, queue) => Request::Serve(pool, queue),
            Record::Flr(pool) => Request::Flr(pool),
            Record::PfRead(offset) => Request::PfRead(offset),
            Record::PfWrite(offset, value) => Request::PfWrite(offset, value),
            Record::PfReset => Request::PfReset,
        }
    }
}

// Bytes that are few enough for one memory write.
#[inline]
fn few(bytes: &[u8]) -> MemSlice<'_>
    requires { length bytes.now ≤ 2048 }
    ensures { result.bytes.now ≡ bytes.now }
{
    match MemSlice::new(bytes) {
        Ok(few) => few,
        Err(_) => unreachable!(),
    }
}

// The bytes of a frame as a frame.
#[inline]
fn framed(bytes: &[u8]) -> Frame<'_>
    requires { IsFrame bytes.now }
    ensures { result.bytes.now ≡ bytes.now }
{
    match Frame::new(bytes, FrameLimit::longest()) {
        Ok(frame) => frame,
        Err(_) => unreachable!(),
    }
}
