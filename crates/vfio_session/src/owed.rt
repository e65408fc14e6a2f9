//! Replies that are owed until what was asked is done.
ghost use Rattle.std.specs.Prelude.{◌≡◌, ◌≤◌, IfSome};
ghost use Rattle.vfio_user.specs.Replies.{HasItsBytes};
ghost use Rattle.vfio_user.specs.Replies.{of_lent};
ghost use Rattle.vfio_session.specs.Decisions.{Says};
ghost use Rattle.vfio_session.specs.Sessions.{reply_to};
ghost use Rattle.vfio_session.specs.Answers.{value_reply, finished_reply, reply_for, answer_to};

use crate::offered::REGISTERS;
use crate::session::ROOM;
use byteorder::{ByteOrder, LittleEndian};
use vfio_user::{Errno, Header, Range, Region, Reply};

// How the reply looks where what was asked was done.
#[derive(Clone, Copy, Debug, PartialEq, Eq)]
pub(crate) enum Form {
    // the four bytes of the register at this offset
    Register(u32),
    // which bytes were written
    Stored(Region),
    // the addresses that have no memory any more
    Unmapped(Range),
    // nothing behind the header
    Plain,
}

/// The reply that is owed to a message of which something was asked. A session makes it, and [`Owed::answer`] uses it up. It can't be
/// copied nor dropped, so each such message is answered once.
#[derive(Debug)]
pub struct Owed {
    pub(crate) header: Header,
    pub(crate) form: Form,
}

/// What came of what was asked.
#[derive(Clone, Copy, Debug, PartialEq, Eq)]
pub enum Settled {
    /// A register was read, and this is its value.
    Value(u32),
    /// All else was done.
    Finished,
    /// It could not be done.
    Refused(Errno),
}

impl Owed {
    /// Lays the reply into the front of the room, and tells how many bytes it has; the rest of the room stays as it was. `None`, and
    /// nothing is laid: the client wants no reply.
    ///
    /// Only a register that was read has a value, and it has to have one. What is settled otherwise is told as refused, by
    /// `Errno::Invalid`.
    pub fn answer(self, settled: Settled, room: &mut [u8; ROOM]) -> Option<usize>
        ensures reply { Says result room.old room.new (answer_to self settled) }
        ensures most { IfSome result (λ count. count ≤ 4128) }
    {
        let Owed { header, form } = self;
        lay_settled(&header, form, settled, room)
    }
}

// The reply to what was asked, by what came of it.
#[tactic(auto, unfolding(crate::specs::Answers::reply_for))]
fn lay_settled(
    header: &Header,
    form: Form,
    settled: Settled,
    room: &mut [u8; ROOM],
) -> Option<usize>
    ensures reply { Says result room.old room.new (reply_to header.now (reply_for form settled)) }
    ensures most { IfSome result (λ count. count ≤ 4128) }
{
    match settled {
        Settled::Value(value) => lay_value(header, form, value, room),
        Settled::Finished => lay_finished(header, form, room),
        Settled::Refused(errno) => lay(header, Reply::Failed(errno), room),
    }
}

// A value that was read.
fn lay_value(header: &Header, form: Form, value: u32, room: &mut [u8; ROOM]) -> Option<usize>
    ensures reply { Says result room.old room.new (reply_to header.now (value_reply form value)) }
    ensures most { IfSome result (λ count. count ≤ 4128) }
{
    match form {
        Form::Register(offset) => {
            let region = Region {
                offset: u64::from(offset),
                index: REGISTERS,
                count: 4,
            };
            let mut bytes = [0u8; 4];
            LittleEndian::write_u32(&mut bytes, value);
            lay(header, Reply::Bytes(region, &bytes), room)
        }
        _ => lay(header, Reply::Failed(Errno::Invalid), room),
    }
}

// All else that was done.
fn lay_finished(header: &Header, form: Form, room: &mut [u8; ROOM]) -> Option<usize>
    ensures reply { Says result room.old room.new (reply_to header.now (finished_reply form)) }
    ensures most { IfSome result (λ count. count ≤ 4128) }
{
    match form {
        Form::Register(_) => lay(header, Reply::Failed(Errno::Invalid), room),
        Form::Stored(region) => lay(header, Reply::Written(region), room),
        Form::Unmapped(range) => lay(header, Reply::Unmapped(range), room),
        Form::Plain => lay(header, Reply::Done, room),
    }
}

// Lays a reply where one is wanted.
pub(crate) fn lay(header: &Header, reply: Reply<&[u8]>, room: &mut [u8; ROOM]) -> Option<usize>
    requires { HasItsBytes (of_lent reply) }
    ensures reply { Says result room.old room.new (reply_to header.now (of_lent reply.entry)) }
    ensures most { IfSome result (λ count. count ≤ 4128) }
{
    if !header.wants_reply {
        return None;
    }
    Some(reply.encode(header, room))
}
