//! The messages of the channel, and what moves through it.
ghost use Rattle.std.specs.Prelude.{◌≡◌, IfSome, IfNone};
ghost use Rattle.std.specs.Box.{box_value};
ghost use Rattle.wire_pump.specs.declared.message.WireMsg.TheVariants.{Frame, Last};

use std::marker::Model;
use wire_frame::FrameBuf;

/// A message from the wire's reader. Contracts speak of these, and no code makes one: what moves through the channel is a
/// `Parcel`.
pub enum WireMsg {
    /// A frame.
    Frame(FrameBuf),
    /// No frame comes any more.
    Last,
}

/// A message as it moves: its frame stays where it is, in a box. Contracts see the message.
#[derive(Drop)]
pub struct Parcel {
    frame: Option<Box<FrameBuf>>,
}

impl Model for Parcel {
    ghost use Rattle.wire_pump.specs.declared.message.WireMsg.{WireMsg};

    ghost Value = { WireMsg };

    ghost use Rattle.wire_pump.specs.Parcel.{message_in};

    ghost view = { λ p. message_in p.frame };
}

impl Parcel {
    /// The message of a frame.
    pub fn of(frame: Box<FrameBuf>) -> Parcel
        ensures { result ≡ Frame (box_value frame) }
    {
        Parcel { frame: Some(frame) }
    }

    /// The message `Last`.
    pub fn last() -> Parcel
        ensures { result ≡ Last }
    {
        Parcel { frame: None }
    }

    /// The frame of the message, where it is not `Last`.
    pub fn frame(self) -> Option<Box<FrameBuf>>
        ensures some { IfSome result (λ frame. self ≡ Frame (box_value frame)) }
        ensures none { IfNone result (self ≡ Last) }
    {
        self.frame
    }
}
