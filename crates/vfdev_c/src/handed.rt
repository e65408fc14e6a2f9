//! What a call hands to C, but for what its handle leads to.
ghost use Rattle.std.specs.Prelude.{◌≡◌, ◌≤◌, length, option_copied, None};
ghost use Rattle.irq_causes.specs.Messages.{no_messages};
ghost use Rattle.vfdev_c.specs.Handle.{frame_in, length_in};
ghost use Rattle.vfdev_c.specs.Wanted.{HandsOver, put_read};

use crate::reply::VfdevReply;
use device::{Response, Room};
use irq_causes::Messages;
use wire_frame::FrameBuf;

/// What a call hands to C, but for what its handle leads to.
#[derive(Clone, Copy)]
pub struct Handed {
    /// What is replied.
    pub reply: VfdevReply,
    /// The interrupt messages that it issued, to each pool.
    pub messages: Messages,
    /// How long the frame is that left for the wire, and 0 where none did.
    pub left: usize,
}

impl Handed {
    // A reply alone, of a call that asked no device.
    #[inline]
    pub(crate) fn none(reply: VfdevReply) -> Handed
        ensures reply { result.reply ≡ reply }
        ensures messages { result.messages ≡ no_messages }
        ensures left { result.left ≡ 0 }
    {
        Handed {
            reply,
            messages: Messages::none(),
            left: 0,
        }
    }

    // The same, part by part.
    #[inline(always)]
    pub(crate) fn apart(self) -> Handed
        ensures { result ≡ self }
    {
        let Handed {
            reply,
            messages,
            left,
        } = self;
        Handed {
            reply,
            messages,
            left,
        }
    }

    // What comes of a response and of the room that was lent. Bytes that were read fill `out`, where it has as many, and a frame that left
    // stands in its first bytes, where it has room.
    #[inline(always)]
    pub(crate) fn of(response: &Response, room: &Room, out: &mut [u8]) -> Handed
        ensures { HandsOver response.now room.now result out.old out.new }
    {
        put_read(room.read(response.outcome), out);
        let left = put_frame(room.left(response), out);
        Handed {
            reply: VfdevReply::of(response.outcome),
            messages: Messages::from_words(response.messages.words()),
            left,
        }
    }
}

// Lays bytes that were read into `out`, where it has as many.
#[inline]
fn put_read(bytes: &[u8], out: &mut [u8])
    ensures { out.new ≡ put_read bytes.now out.old }
{
    if bytes.len() == out.len() {
        out.copy_from_slice(bytes);
    }
}

// Lays a frame that left into the first bytes of `out`, where there is room, and tells its length.
#[inline]
fn put_frame(frame: Option<&FrameBuf>, out: &mut [u8]) -> usize
    ensures none { option_copied frame.entry ≡ None → out.new ≡ out.old }
    ensures bytes { 9018 ≤ length out.old → out.new ≡ frame_in (option_copied frame.entry) out.old }
    ensures len { result ≡ length_in (option_copied frame.entry) }
{
    match frame {
        Some(frame) => {
            let bytes = frame.bytes();
            if bytes.len() <= out.len() {
                out[..bytes.len()].copy_from_slice(bytes);
            }
            bytes.len()
        }
        None => 0,
    }
}
