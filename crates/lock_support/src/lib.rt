//! Shared by tests of what stands on `device_lock`: a recorded device with its shares, and a script of 18 events by which function 3
//! receives a frame, with the answers to them worked out by hand.
#![tactic(auto)]

mod events;
mod seats;
mod stage;

pub use events::{arrival, frame_to_3, is_scripted, opening, script, settings};
pub use seats::{last_seat, line, line_of, port_share};
pub use stage::{answer, locked, recorded};
