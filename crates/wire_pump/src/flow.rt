//! The rule of the channel, and the kinds of step on it. No value of these types is made but in proofs.
ghost use Rattle.std.specs.Prelude.{◌≡◌, [], ◌∷◌, ◌++◌, ⊤};
ghost use Rattle.wire_pump.specs.Pump.{IsFlow, IsSent, IsReceived, IsBeside, sender, receiver, both, neither};

use crate::message::{Parcel, WireMsg};
use crossbeam_channel::protocol::{Join, Lesson, Outcome, Protocol, Split};
use std::collections::LinkedList;

/// What an end of the channel did.
pub struct Hand {
    /// Whether it may send.
    pub sends: bool,
    /// Whether it may receive.
    pub receives: bool,
    /// What it sent, in order.
    pub sent: LinkedList<WireMsg>,
    /// What it received, in order.
    pub received: LinkedList<WireMsg>,
}

/// The rule of the channel, which every step keeps.
pub struct Flow;

impl Protocol<Parcel, Hand> for Flow {
    ghost holds = { IsFlow };

    ghost first = { both [] [] };
}

/// The two ends, which one hand has at first, and may have again.
pub(crate) struct Ends;

impl Split<Hand> for Ends {
    ghost left = { λ hand. sender hand.sent };

    ghost right = { λ hand. receiver hand.received };
}

impl Join<Hand> for Ends {
    ghost both = { λ sending receiving. both sending.sent receiving.received };

    ghost spent = { neither };
}

impl Lesson<Parcel, Hand> for Ends {
    ghost fact = { IsBeside };
}

/// The same two ends, put together by the hand that receives.
pub(crate) struct Back;

impl Split<Hand> for Back {
    ghost left = { λ hand. receiver hand.received };

    ghost right = { λ hand. sender hand.sent };
}

impl Join<Hand> for Back {
    ghost both = { λ receiving sending. both sending.sent receiving.received };

    ghost spent = { neither };
}

impl Lesson<Parcel, Hand> for Back {
    ghost fact = { IsBeside };
}

/// A message that is sent.
pub(crate) struct Sends;

impl Outcome<Parcel, Hand> for Sends {
    ghost then = { IsSent };
}

impl Lesson<Parcel, Hand> for Sends {
    ghost fact = { λ hand under_way. ⊤ };
}

/// A message that is received.
pub(crate) struct Receives;

impl Outcome<Parcel, Hand> for Receives {
    ghost then = { IsReceived };
}

impl Lesson<Parcel, Hand> for Receives {
    ghost fact = { λ hand under_way. ⊤ };
}
