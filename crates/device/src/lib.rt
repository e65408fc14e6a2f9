//! A device: the settings of the physical function, the virtual functions over their memories, and the frames that went to
//! the wire.
//!
//! A [`Device`] takes one [`Request`] at a time and tells in few words what came of it, or has a call by name for each kind.
//! Its meaning is the world of `specs/`, over [`Event`]s and [`Answer`]s, and each event that it takes keeps the isolation
//! law: each virtual function sees what a lone function would see that is given only its own events, its own settings and
//! the frames that its filters accept. [`Device::run`] promises so of every list of events, and [`laws`] of a device as it
//! is made. What it is made with, its [`Profile`], never changes. Where the settings keep a group of functions apart, [`erased`] promises that no other function can tell whether
//! the group's own events were left out. [`act::act`] and [`serve_queue`] are what an event does to one function by itself;
//! the device does the same, and so may whoever has a function without a device. The crate stands on `vf_unit`,
//! `local_switch` and `anti_spoof`; no call takes memory but the makers and [`Device::run`], which takes it before its first
//! step.
#![tactic(auto)]

pub mod act;
pub mod bytes;
mod calls;
pub mod device;
pub mod erased;
pub mod event;
pub mod guests;
pub mod laws;
mod outcome;
mod profile;
mod prompts;
mod read_count;
mod resets;
mod response;
mod room;
mod service;
mod slots;
mod switching;
mod take;
mod unclaimed;
pub mod wire_out;

pub use bytes::{MemBytes, MemSlice};
pub use device::Device;
pub use event::{Answer, Event, Reply, Request, Whose};
pub use guests::NotTaken;
pub use outcome::{Acted, Outcome};
pub use profile::Profile;
pub use read_count::ReadCount;
pub use response::Response;
pub use room::Room;
pub use service::serve_queue;
pub use vf_unit::{Counts, Queue, Vector};
