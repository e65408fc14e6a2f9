//! Frames into the channel.
ghost use Rattle.std.specs.Prelude.{◌≡◌, ◌++◌, ◌≤◌, true, length};
ghost use Rattle.wire_pump.specs.Pump.{is_proper};
ghost use Rattle.wire_pump.specs.Ends.{fed, HasSent, IsCounted};

use crate::ends::FrameSender;
use std::sync::Wait;
use wire_frame::FrameBuf;

/// How a feed ended.
#[derive(Clone, Copy, Debug, PartialEq, Eq)]
pub enum FeedEnd {
    /// All frames were sent, and `Last` after them.
    All,
    /// That many of the frames were sent, the first ones, and no `Last`: the receiver is gone, or `Last` was sent before.
    Gone(usize),
}

/// Sends the frames in order, and then `Last`. It waits while 64 messages are under way.
pub fn feed<R: Wait>(sender: &mut FrameSender, rt: &R, frames: &[FrameBuf]) -> FeedEnd
    ensures sent { HasSent (fed frames.now result) sender.old sender.new }
    ensures count { IsCounted (length frames.now) result }
    ensures proper { is_proper sender.new.sent ≡ true }
{
    for (sent, frame) in frames.iter().enumerate() {
        if !sender.frame(rt, frame.as_frame()) {
            return FeedEnd::Gone(sent);
        }
    }
    if sender.last(rt) {
        FeedEnd::All
    } else {
        FeedEnd::Gone(frames.len())
    }
}
