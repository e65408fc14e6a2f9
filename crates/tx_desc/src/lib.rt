//! Taking one descriptor of a transmit queue, and the frame that its descriptors give.
//!
//! [`fetch_into`] takes the descriptor at the head of a ring: it gathers the bytes of the frame that is being sent, writes
//! the descriptor back where the driver asks for it, and at the last descriptor of a frame ends it under the port's VLAN
//! rule and the limit on frames (82599 datasheet, transmit descriptors). All of it is one definition, `fetch` in `specs/`;
//! [`fetch`] is the same of a memory of any kind behind one reference, with the frame in the answer.
//!
//! Others may write the memory meanwhile. What is done is what `fetch` says of the memory that was met: the one that was, with all
//! bytes written into it that were read from it. The accesses are just those that `fetch_accesses` in `specs/` lists, in that order.
//! No byte is read twice, so the memory that was met is one and the same for all that is done. Bytes of a frame that lie in the
//! descriptor itself are those that were read with it.
//!
//! The bytes of a frame go straight from the guest's memory into [`Pending`], or into the lent frame where one descriptor is all
//! of it. Nothing is asked of the descriptor: whatever the guest wrote there, the call returns. No call takes memory but
//! [`Pending::new`].
//!
//! The crate stands on `rings`, `guest_memory`, `live_memory`, `wire_frame` and `byteorder`.
#![tactic(auto)]

pub mod any_memory;
mod descriptor;
pub mod fetching;
pub mod offloaded;
pub mod outcome;
pub mod pending;
mod reading;
pub mod sending;
mod terms;

pub use any_memory::fetch;
pub use fetching::fetch_into;
pub use offloaded::fetch_with_offloads;
pub use outcome::{Fetched, Misuse, Progress, Served, Turn};
pub use pending::Pending;
pub use sending::{Segments, Sending, Stage};
pub use terms::Terms;
