//! A script that is done by many threads: one for each guest, and one each for the physical function, the wire, the pump and
//! the service.
//!
//! [`prepare`] records the events before `go`, and answers the pools that are open there. [`run_workers`] does those after it:
//! each worker does its own events in the order of the script, and nothing is said of the order between two workers. Which
//! caller an event is done by is one definition, `caller_of`. When all have ended, the service records the end of each port.
//! Where the device has a twin, a call that finds the history full folds it and is made again. The crate stands on
//! `guest_port`, `wire_pump` and `script`.
#![tactic(auto)]

mod asking;
mod calling;
mod context;
mod crew;
mod door;
mod gate;
pub mod opens;
mod pair;
mod plan;
mod preparing;
mod running;
mod starting;
mod sweeping;
mod work;
mod worker;

pub use asking::ask;
pub use crew::Ended;
pub use gate::{Gate, OpenGate};
pub use plan::{Plan, Ports, caller_before};
pub use preparing::prepare;
pub use running::run_workers;
pub use sweeping::{sweep, sweep_into};
