//! Memories for the guests of a card, or of a device without one, made beforehand, so that guests come and go, and their regions are mapped
//! and unmapped, and no call takes memory.
//!
//! A function is vacant over a memory of no bytes, and has one of 64 TiB of addresses while a guest is there
//! ([`LiveMem`](mapped_memory::LiveMem)). [`Spares`] has the other one of the two for each of 64 functions, and exchanges them. A region is
//! mapped while the memory is out of the device, and a spare one stands in its place.
#![tactic(auto)]

pub mod guests;
pub mod guests_of_device;
pub mod regions;
pub mod regions_of_device;
pub mod spares;

pub use regions::NotMapped;
pub use spares::Spares;
