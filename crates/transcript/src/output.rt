//! Lines on their way to a writer.
ghost use Rattle.std.specs.Prelude.{◌≡◌, ◌+◌, ◌≤◌, [], ◌++◌, length, IfOk, IfErr, OnOk, OnErr};
ghost use Rattle.std.specs.Io.KnownBytes.{Appends};
ghost use Rattle.hex.specs.Hex.{encode_lower};
ghost use Rattle.device.specs.Outcome.{answer_of};
ghost use Rattle.lone.specs.Kept.{item_of, observation_of};
ghost use Rattle.transcript.specs.Known.{Began, Sent};
ghost use Rattle.transcript.specs.Limits.{MOST_HELD};
ghost use Rattle.transcript.specs.Text.{frame_line, item_line, line, seen_line};

use crate::count::{Count, MOST_DIGITS};
use crate::fault::Fault;
use crate::lines::MOST_ITEM;
use crate::send::send;
use crate::text::put;
use device::{Response, Room};
use lone::{Given, Seen};
use std::alloc::Global;
use std::io::Write;
use std::marker::Model;
use wire_frame::PoolId;

/// How many bytes are held before they are written.
pub(crate) const HELD: usize = 65_536;

/// How many bytes a frame has at most. Digits of more bytes are held in parts.
pub(crate) const MOST_BYTES: usize = 9018;

/// How many bytes stand in the room at most: what is held, and the longest line, which offers a frame.
pub(crate) const ROOM: usize = HELD + MOST_DIGITS + MOST_ITEM + 1;

/// Lines on their way to a writer, which gets many at a time. No more than 83,602 bytes are held.
#[derive(Drop)]
pub struct Output {
    // what is held stands in front, and the bytes behind it mean nothing
    pub(crate) room: Vec<u8>,
    pub(crate) end: usize,
    // the number of the last line that has one
    pub(crate) count: Count,
}

impl Model for Output {
    ghost use Rattle.std.specs.Prelude.{◌≡◌, ◌≤◌, List, ℕ, length, take};
    ghost use Rattle.transcript.specs.declared.output.TheConstants.{ROOM};

    ghost Value = { List ℕ };

    ghost view = { λ o. take o.end o.room.items };

    ghost invariant = { λ o. (length o.room.items ≡ ROOM) × (o.end ≤ ROOM) };
}

impl Output {
    /// No bytes yet. [`Fault::NoMemory`] where the host refused the room; no later call takes memory.
    pub fn new(alloc: Global) -> Result<Output, Fault>
        ensures { IfOk result (λ o. o ≡ []) }
    {
        Ok(Output {
            room: vec![in alloc; 0; ROOM]?,
            end: 0,
            count: Count::new(),
        })
    }

    /// The line of an event's answer: its number, the reply, and a mark for each pool that messages were issued to. The event has just
    /// been taken with this room.
    pub fn answer<W: Write>(
        &mut self,
        number: u64,
        response: &Response,
        lent: &Room,
        writer: &mut W,
    ) -> Result<(), Fault>
        ensures ok { OnOk result
            (Sent (W.contents writer.old) (W.contents writer.new)
            (self.old ++ line number (answer_of lent.now response.now)) self.new) }
        ensures few { OnOk result (length self.new ≤ MOST_HELD) }
        ensures err { OnErr result
            (Began (W.contents writer.old) (W.contents writer.new)
            (self.old ++ line number (answer_of lent.now response.now))) }
        ensures io { IfErr result (λ e. e ≡ Fault.Io) }
    {
        self.relieve(writer)?;
        self.hold_answer(number, response, lent);
        Ok(())
    }

    /// The line of a frame that went to the wire.
    pub fn frame<W: Write>(&mut self, bytes: &[u8], writer: &mut W) -> Result<(), Fault>
        ensures ok { OnOk result
            (Sent (W.contents writer.old) (W.contents writer.new)
            (self.old ++ frame_line bytes.now) self.new) }
        ensures few { OnOk result (length self.new ≤ MOST_HELD) }
        ensures err { OnErr result
            (Began (W.contents writer.old) (W.contents writer.new)
            (self.old ++ frame_line bytes.now)) }
        ensures io { IfErr result (λ e. e ≡ Fault.Io) }
    {
        self.piece(b"out ", writer)?;
        self.digits(bytes, writer)?;
        self.piece(b"\n", writer)
    }

    /// The line of what an event leaves for a pool, with the event's number.
    pub fn item<W: Write>(
        &mut self,
        number: u64,
        given: Given<'_>,
        writer: &mut W,
    ) -> Result<(), Fault>
        ensures ok { OnOk result
            (Sent (W.contents writer.old) (W.contents writer.new)
            (self.old ++ item_line number (item_of given.entry)) self.new) }
        ensures few { OnOk result (length self.new ≤ MOST_HELD) }
        ensures err { OnErr result
            (Began (W.contents writer.old) (W.contents writer.new)
            (self.old ++ item_line number (item_of given.entry))) }
        ensures io { IfErr result (λ e. e ≡ Fault.Io) }
    {
        self.relieve(writer)?;
        self.hold_item(number, given);
        Ok(())
    }

    /// The line of what is seen of a pool's lone function: the number of the event that it comes of, the reply where there
    /// is one, and the pool's mark where messages were issued. The function has just shown it with this room.
    pub fn seen<W: Write>(
        &mut self,
        number: u64,
        pool: PoolId,
        seen: Seen,
        lent: &Room,
        writer: &mut W,
    ) -> Result<(), Fault>
        ensures ok { OnOk result
            (Sent (W.contents writer.old) (W.contents writer.new)
            (self.old ++ seen_line pool number (observation_of lent.now seen)) self.new) }
        ensures few { OnOk result (length self.new ≤ MOST_HELD) }
        ensures err { OnErr result
            (Began (W.contents writer.old) (W.contents writer.new)
            (self.old ++ seen_line pool number (observation_of lent.now seen))) }
        ensures io { IfErr result (λ e. e ≡ Fault.Io) }
    {
        self.relieve(writer)?;
        self.hold_seen(number, pool, seen, lent);
        Ok(())
    }

    /// Hands over what is left, and flushes the writer.
    pub fn finish<W: Write>(mut self, writer: &mut W) -> Result<(), Fault>
        ensures ok { OnOk result (Appends (W.contents writer.old) (W.contents writer.new) self) }
        ensures err { OnErr result (Began (W.contents writer.old) (W.contents writer.new) self) }
        ensures io { IfErr result (λ e. e ≡ Fault.Io) }
    {
        self.hand_over(writer)?;
        writer.flush().map_err(|_| Fault::Io)
    }

    // A few bytes as they are.
    fn piece<W: Write>(&mut self, bytes: &[u8], writer: &mut W) -> Result<(), Fault>
        requires { HELD + length bytes.now ≤ ROOM }
        ensures ok { OnOk result (Sent (W.contents writer.old) (W.contents writer.new)
            (self.old ++ bytes.now) self.new) }
        ensures few { OnOk result (length self.new ≤ MOST_HELD) }
        ensures err { OnErr result (Began (W.contents writer.old) (W.contents writer.new)
            (self.old ++ bytes.now)) }
        ensures io { IfErr result (λ e. e ≡ Fault.Io) }
    {
        self.relieve(writer)?;
        self.end = put(self.room.as_mut_slice(), self.end, bytes);
        Ok(())
    }

    // Two digits for each byte. More bytes than a frame may have go in parts.
    fn digits<W: Write>(&mut self, bytes: &[u8], writer: &mut W) -> Result<(), Fault>
        ensures ok { OnOk result (Sent (W.contents writer.old) (W.contents writer.new)
            (self.old ++ encode_lower bytes.now) self.new) }
        ensures err { OnErr result (Began (W.contents writer.old) (W.contents writer.new)
            (self.old ++ encode_lower bytes.now)) }
        ensures io { IfErr result (λ e. e ≡ Fault.Io) }
    {
        let mut rest = bytes;
        while !rest.is_empty() {
            self.relieve(writer)?;
            let (part, tail) = rest.split_at(rest.len().min(MOST_BYTES));
            self.hold_digits(part);
            rest = tail;
        }
        Ok(())
    }

    // Hands over what is held where it is much.
    #[inline]
    fn relieve<W: Write>(&mut self, writer: &mut W) -> Result<(), Fault>
        ensures ok { OnOk result
            (Sent (W.contents writer.old) (W.contents writer.new) self.old self.new) }
        ensures few { OnOk result (length self.new ≤ HELD) }
        ensures err { OnErr result
            (Began (W.contents writer.old) (W.contents writer.new) self.old) }
        ensures io { IfErr result (λ e. e ≡ Fault.Io) }
    {
        if self.end <= HELD {
            return Ok(());
        }
        self.hand_over(writer)
    }

    // Hands over what is held.
    #[inline(never)]
    fn hand_over<W: Write>(&mut self, writer: &mut W) -> Result<(), Fault>
        ensures ok { OnOk result
            (Appends (W.contents writer.old) (W.contents writer.new) self.old) }
        ensures empty { OnOk result (self.new ≡ []) }
        ensures err { OnErr result
            (Began (W.contents writer.old) (W.contents writer.new) self.old) }
        ensures io { IfErr result (λ e. e ≡ Fault.Io) }
    {
        send(writer, &self.room[..self.end])?;
        self.end = 0;
        Ok(())
    }
}
