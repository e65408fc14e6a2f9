//! The four modes of the program, between any reader and any writer: `run`, `keep` and `lone` by one thread, and `threads` by a thread
//! for each guest.
//!
//! The words of the command line are a [`Command`]: a [`Mode`] for one thread, or threads. A [`Script`](script::Script) is read and
//! checked whole before the first event. A [`Fault`] is a line of text and a status.
//!
//! - [`drive`](drive::drive) gives a script's events to a device over memories in boxes and writes the text of the mode.
//!   [`run`](run::run) does one mode over memories of any kind, and hands the device back.
//! - [`drive_threads`](threads::drive_threads) has the events done by the workers of [`workers`] on a recorded device behind one lock,
//!   and takes the device out of its lock when all have ended. The report says how many calls it kept, whose they are, and whether a
//!   device as it is made gives the kept answers; [`write_report`](report::write_report) writes one of any recorded device.
//!
//! The crate stands on `script` and `transcript`, and on `lone` for one thread and `workers` for many.
#![tactic(auto)]

mod alone;
pub mod drive;
pub mod fault;
mod keep;
mod making;
pub mod mode;
mod of_script;
pub mod report;
pub mod run;
pub mod status;
pub mod threads;

pub use fault::Fault;
pub use making::{drop_boxed, make_device};
pub use mode::{Command, Mode};
