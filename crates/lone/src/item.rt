//! What a lone function is given, and what is seen of it.

use device::{Outcome, Request, Room};
use irq_causes::Vectors;
use pool_filter::Own;
use wire_frame::Frame;

/// What a lone function is given. It has a few words: settings and frames stand elsewhere.
#[derive(Clone, Copy)]
pub enum Given<'a> {
    /// An event of its own.
    OwnEvent(Request<'a>),
    /// Own settings, in place of those that it has.
    NewSettings(&'a Own),
    /// The device was reset: the function is closed, and has no settings.
    Gone,
    /// A frame, and whether it came from another pool.
    Offer(Frame<'a>, bool),
}

/// What is seen of a function, in few words. Bytes that were read stand in the [`Room`] that was lent.
#[derive(Clone, Copy, Debug, PartialEq, Eq)]
pub enum Seen {
    /// What came of an event of its own, and the vectors whose messages it issued.
    Replied(Outcome, Vectors),
    /// Messages alone.
    Interrupted(Vectors),
}

/// What a watched device hands over to a function by itself: the pool's own settings, and the room in which a frame of another function
/// stands. It is made once, and lent for each event.
#[derive(Drop)]
pub struct Handover {
    pub(crate) settings: Own,
    pub(crate) room: Room,
}

impl Handover {
    /// Nothing is handed over yet.
    pub fn new() -> Handover {
        Handover {
            settings: Own::none(),
            room: Room::new(),
        }
    }
}

impl Default for Handover {
    fn default() -> Handover {
        Handover::new()
    }
}
