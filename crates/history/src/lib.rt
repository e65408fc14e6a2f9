//! The calls of a device, kept in few bytes.
//!
//! A [`History`] has of each call who made it, what was asked and what was answered. Its meaning is the list of these
//! entries, the oldest first. [`History::record`] takes an event on a device and keeps the call, also where others may write the
//! memories of the functions meanwhile: bytes of a memory are read once, and kept as they were handed out. [`History::step`] steps a second device by an entry, and
//! [`History::gives`] tells besides whether that device answers as was kept; both go through all entries as
//! [`History::step_all`] and [`History::gives_all`]. A [`Recording`] is a device with the history of the calls that it took since
//! a base, from which they lead to it.
//!
//! An entry is a head of 32 bytes and, in a store that all entries share, the bytes of its frame, or those that it wrote to or
//! read from a memory, and 8 bytes for each vector of which some pool got a message. The room for as many entries as there
//! may be, of any bytes, is taken when a history is made, and no other call takes memory. It is not touched before it is
//! used, so a host that gives memory as it is touched holds no more than the entries take. Nothing here waits. The crate
//! stands on `device`.
#![tactic(auto)]

mod bytes;
mod caller;
pub mod head;
mod history;
mod recording;
mod replay;
mod reply;
mod words;

pub use caller::Caller;
pub use history::{History, MOST_CALLS};
pub use recording::Recording;
