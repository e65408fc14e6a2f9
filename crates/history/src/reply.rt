//! A kept reply beside one that is given.
ghost use Rattle.std.specs.Prelude.{◌≡◌, IsTrue, ◌↔◌};
ghost use Rattle.device.specs.Outcome.{reply_of};
ghost use Rattle.history.specs.Heads.{reply_with};

use crate::head::{ReplyKind, kind_of};
use device::{Outcome, Room};

/// Whether a reply, whose bytes stand in the room that was lent, is this one, of these bytes.
#[inline]
pub fn is_reply(kind: ReplyKind, bytes: &[u8], outcome: Outcome, room: &Room) -> bool
    ensures { IsTrue result ↔ (reply_of room.now.bytes outcome ≡ reply_with bytes.now kind) }
{
    match outcome {
        Outcome::Bytes(_) => matches!(kind, ReplyKind::Bytes(_)) && room.read(outcome) == bytes,
        _ => kind == kind_of(outcome),
    }
}
