//! Laws of queues whose driver leaves work to the card (`tx_desc`), in one step and over several. A function here does nothing: its contract is the law.
//!
//! [`segments_leave_in_order`] is about a frame that is being cut: its segments leave one after the other, each once, as long as nobody
//! touches the ring, and then the queue is done with it. What a segment is, that its sums verify and that the payloads of all of them are the
//! payload of the frame, are laws of the crate `offload`. [`faults_have_a_reason`] is about one step: it stops its queue just where
//! there is a reason why its descriptor cannot be used.
#![tactic(auto)]

mod laws;

pub use laws::{faults_have_a_reason, segments_leave_in_order};
