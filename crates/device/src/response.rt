//! What came of an event, with its messages and the frame that it sent.
ghost use Rattle.std.specs.Prelude.{◌≡◌, false};
ghost use Rattle.irq_causes.specs.Messages.{no_messages};
ghost use Rattle.device.specs.declared.event.Reply.{Reply};
ghost use Rattle.device.specs.declared.room.Room.{Room};
ghost use Rattle.device.specs.Replies.{is_sent};
ghost use Rattle.device.specs.World.{silently};
ghost use Rattle.device.specs.Outcome.{answer_of, done_or_refused, value_or_refused, messages_or_refused};

use crate::bytes::MemBytes;
use crate::event::{Answer, Reply};
use crate::outcome::Outcome;
use crate::room::Room;
use irq_causes::Messages;
use wire_frame::Fault;

/// What came of an event, with the messages that it issued. It has a few words, and is copied: bytes that were read and a frame that was
/// sent stand in the [`Room`] that was lent.
#[derive(Clone, Copy)]
pub struct Response {
    /// What came of the event.
    pub outcome: Outcome,
    /// The interrupt messages that it issued, to each pool.
    pub messages: Messages,
    /// Whether a frame that it sent left for the wire.
    pub left: bool,
}

impl Response {
    // An outcome without messages, of an event that sent no frame.
    #[inline]
    pub(crate) fn silent(outcome: Outcome) -> Response
        ensures outcome { result.outcome ≡ outcome }
        ensures messages { result.messages ≡ no_messages }
        ensures left { result.left ≡ false }
    {
        Response {
            outcome,
            messages: Messages::none(),
            left: false,
        }
    }

    // An event that was done, with messages. They are taken by words: as one piece they would be moved with what stands
    // beside them, and who reads a word would wait for the whole move.
    #[inline]
    pub(crate) fn done_with(messages: Messages) -> Response
        ensures outcome { result.outcome ≡ Reply.Done }
        ensures messages { result.messages ≡ messages }
        ensures left { result.left ≡ false }
    {
        Response {
            outcome: Outcome::Done,
            messages: Messages::from_words(messages.words()),
            left: false,
        }
    }

    // What was done, or refused.
    #[inline]
    pub(crate) fn done_or_refused(done: Result<(), Fault>) -> Response
        ensures answer { (room : Room) → answer_of room result ≡ silently (done_or_refused done) }
        ensures unsent { is_sent result.outcome ≡ false }
        ensures left { result.left ≡ false }
    {
        match done {
            Ok(()) => Response::done_with(Messages::none()),
            Err(fault) => Response::silent(Outcome::Refused(fault)),
        }
    }

    // A value, or a refusal.
    #[inline]
    pub(crate) fn value_or_refused(value: Result<u32, Fault>) -> Response
        ensures answer { (room : Room) → answer_of room result ≡ silently (value_or_refused value) }
        ensures unsent { is_sent result.outcome ≡ false }
        ensures left { result.left ≡ false }
    {
        match value {
            Ok(value) => Response::silent(Outcome::Value(value)),
            Err(fault) => Response::silent(Outcome::Refused(fault)),
        }
    }

    // What was done with these messages, or refused.
    #[inline]
    pub(crate) fn issued(messages: Result<Messages, Fault>) -> Response
        ensures answer { (room : Room) → answer_of room result ≡ messages_or_refused messages }
        ensures unsent { is_sent result.outcome ≡ false }
        ensures left { result.left ≡ false }
    {
        match messages {
            Ok(messages) => Response::done_with(messages),
            Err(fault) => Response::silent(Outcome::Refused(fault)),
        }
    }

    /// The answer, where this is the room that was lent. Each arm makes it where it is to stand: one made before the arms meet would be
    /// copied.
    #[inline]
    pub fn answer(&self, room: &Room) -> Answer
        ensures { result ≡ answer_of room.now self.now }
    {
        match self.outcome {
            Outcome::Bytes(_) => Answer {
                reply: Reply::Bytes(MemBytes::copied(room.read(self.outcome))),
                raised: self.messages.to_masks(),
            },
            Outcome::Refused(fault) => Answer {
                reply: Reply::Refused(fault.number()),
                raised: self.messages.to_masks(),
            },
            outcome => Answer {
                reply: outcome.with(MemBytes::new(), 0),
                raised: self.messages.to_masks(),
            },
        }
    }
}
