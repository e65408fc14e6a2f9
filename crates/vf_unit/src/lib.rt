//! One virtual function, whole: its registers, its two receive and two transmit queues, its causes and its memory.
//!
//! A [`VfUnit`] is closed, with the size of its memory, or open with its whole state. Opening it makes every register
//! initial and every byte of the memory zero, whatever it was, so that nothing of an earlier tenant is left. Each call is
//! one definition of `specs/`, answers with the interrupt messages that it issued, and is `None` or nothing where the
//! function is closed. The type ties every ring that is on to the memory. It stands on `rx_desc`, `tx_desc` and
//! `irq_causes`, and takes no memory of the host once it is made. What the device does for its driver beyond frames as they stand,
//! its [`Offloads`](offload::Offloads), it is told as its guest comes; no register changes it, and no reset.
#![tactic(auto)]

pub mod counts;
pub mod intervals;
pub mod offsets;
mod open;
mod queues;
pub mod registers;
pub mod unit;

pub use counts::{Counts, Losses, QueueFault};
pub use intervals::{Intervals, Vector};
pub use open::Service;
pub use registers::{Queue, Register};
pub use unit::VfUnit;
