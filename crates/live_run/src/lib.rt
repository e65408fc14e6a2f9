//! Runs of a device while guests write their memories.
//!
//! [`run_live`] gives a device events in turn, as `Device::run` does, and asks nothing of its memories: what a read gives is whatever
//! the guest wrote by then. To each virtual function the run is as if it were alone, given its own events, its own settings, the
//! frames that its filters accept, and what its own memory answered: its replies and messages, its registers and memory, and the reads
//! and writes of its memory in their order. [`laws`] says so of every run. [`erased`] says that a group of functions that the settings keep apart
//! can be erased from it. [`serve_burst`] takes many descriptors of a queue in one call, which is such a run of services, and
//! [`wire_burst`] many frames from the wire.
#![tactic(auto)]

pub mod bursts;
pub mod erased;
pub mod frames;
pub mod laws;
mod run;
pub mod wire_bursts;

pub use bursts::{Burst, serve_burst};
pub use frames::Frames;
pub use run::run_live;
pub use wire_bursts::{WireBurst, wire_burst};
