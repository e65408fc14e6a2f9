//! The interrupt line: the messages that a device has raised for the guests of its 64 pools, and that they have not taken.
//!
//! A line has one word for each pool, whose bits 2:0 are the messages of the pool's vectors 0 to 2. The [`DeviceSeat`] raises
//! messages for any pool, and a pool's [`GuestSeat`] takes or peeks those of its own pool alone; [`make`] hands out all seats
//! of a line. Each call is one atomic step of the caller's own thread: it takes no lock, waits for nobody and takes no memory.
//! Between any two steps, of whatever threads, the words and what the seats did fit by one rule, `IsLine` of `specs/Line.antt`:
//! a message that was raised where none stood is taken once, or stands still. The crate stands on `wire_frame`, for pools and
//! faults, on `irq_causes`, for sets of vectors, and on `atomic_table`, which keeps the rule.
#![tactic(auto)]

pub mod laws;
mod line;
mod making;
pub mod seats;
mod views;

pub use making::make;
pub use seats::{DeviceSeat, GuestSeat};
