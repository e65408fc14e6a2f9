//! The service of a transmit queue, with the frame that leaves.
ghost use Rattle.std.specs.Prelude.{◌≡◌};
ghost use Rattle.vfdev_c.specs.Handle.{Calls, raised_on, messages_in, left_on, frame_in, length_in, where_room, serve_asked, queue_of};

use crate::events::{POOLS, put_messages};
use crate::handle::Vfdev;
use crate::handle_state::MOST_FRAME;
use crate::reply::VfdevReply;
use crate::wanted::Wanted;
use device::{Queue, Request};
use irq_causes::Messages;
use std::alloc::Global;

/// Takes the next descriptor of transmit queue 0 or 1 of a function. A frame that leaves for the wire stands in the first
/// `left` bytes of `out`, and `left` is 0 where none leaves. The messages stand in the first 64 bytes of `messages`.
///
/// No room is replied where `messages` has fewer than 64 bytes, or `out` fewer than 9018, and no queue where there is no
/// such queue, before the device is asked.
#[unsafe(no_mangle)]
pub extern "C" fn vfdev_serve_frame(
    alloc: Global,
    handle: &mut Vfdev,
    function: u8,
    queue: u8,
    out: &mut [u8],
    left: &mut usize,
    messages: &mut [u8],
) -> VfdevReply
    ensures called { Calls handle.old.owner.held (where_room messages.old (serve_asked function queue out.old)) handle.new.owner.held result }
    ensures messages { messages.new
        ≡ messages_in (raised_on handle.old.owner.held (where_room messages.old (serve_asked function queue out.old)) handle.new.owner.held) messages.old }
    ensures frame { out.new
        ≡ frame_in (left_on handle.old.owner.held (where_room messages.old (serve_asked function queue out.old)) handle.new.owner.held) out.old }
    ensures left { left.new
        ≡ length_in (left_on handle.old.owner.held (where_room messages.old (serve_asked function queue out.old)) handle.new.owner.held) }
{
    *left = 0;
    if messages.len() < POOLS {
        return VfdevReply::no_room();
    }
    let Some(queue) = queue_of(queue) else {
        put_messages(Messages::none(), messages);
        return VfdevReply::no_queue();
    };
    if out.len() < MOST_FRAME {
        put_messages(Messages::none(), messages);
        return VfdevReply::no_room();
    }
    let request = Request::Serve(function, queue);
    let handed = handle.give(alloc, Wanted::Other(request), out);
    put_messages(handed.messages, messages);
    *left = handed.left;
    handed.reply
}

// The transmit queue of that number.
#[inline]
pub(crate) fn queue_of(number: u8) -> Option<Queue>
    ensures { result ≡ queue_of number }
{
    match number {
        0 => Some(Queue::Q0),
        1 => Some(Queue::Q1),
        _ => None,
    }
}
