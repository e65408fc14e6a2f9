//! Frames from the wire's reader to the device: in order, none lost, none invented.
//!
//! [`channel`] makes the two ends of a channel. The wire's reader sends frames by the [`FrameSender`], one by one or by
//! [`feed`], and then `Last`, after which it sends nothing. [`pump`] gives each frame that comes out of the
//! [`FrameReceiver`] to a [`Door`], as the event that it comes from the wire, until `Last` comes, the door is full, or the
//! sender is gone. [`LockedDoor`] is the door to a device that threads share.
//!
//! Between any two steps, of whatever threads, what was received is a beginning of what was sent, and `Last` was sent once at
//! most and at the end: this is the rule `IsFlow` of `specs/Pump.antt`, which every step keeps. [`FrameSender::beside`] says
//! it of the two ends, where one thread has both. No call but the maker takes memory: frames move in the 66 boxes that the maker
//! made, which come back by a second channel under the same rule, whether the door took their frames or not. The crate stands on
//! `crossbeam_channel`, which keeps the rule, on `device` for the event, on `device_lock` for the shared device, and on
//! `shadow`, by which contracts speak of a frame that came back.
#![tactic(auto)]

mod ends;
mod feeding;
mod flow;
mod locked;
mod making;
mod message;
mod pumping;

pub use ends::{FrameReceiver, FrameSender};
pub use feeding::{FeedEnd, feed};
pub use locked::LockedDoor;
pub use making::channel;
pub use message::WireMsg;
pub use pumping::{Door, PumpEnd, pump};
