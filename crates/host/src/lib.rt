//! The host's calls by name: what does a whole script on a device, by one thread or by many. Nothing is made here; the names stand
//! together, and each says where it comes from.
//!
//! | Name | What it is | Where it stands |
//! |---|---|---|
//! | [`Command`], [`Mode`] | what the words of a command line ask for | `modes` |
//! | [`drive`] | reads a script, gives its events to a device by one thread, and writes the text of a mode | `modes` |
//! | [`drive_threads`] | reads a script, has its events done by a thread for each guest, and writes what was kept of them | `modes` |
//! | [`Fault`], [`status`] | why a script was not done, and the status that a program ends with then | `modes` |
//! | [`Script`] | a script, which [`Script::read`] reads and checks whole | `script` |
//! | [`prepare`] | records the events before `go`, and answers the pools that are open there | `workers` |
//! | [`run_workers`], [`Ended`] | does the events after `go`, each worker in a thread of its own; the shares that they leave | `workers` |
//! | [`Gate`], [`OpenGate`] | what each worker calls round each of its events; one that holds nobody back | `workers` |
//! | [`sweep`], [`sweep_into`] | records the end of each function whose port has ended; with the notes that told so | `workers` |
//!
//! The program `vfdev` stands on this crate alone.
#![tactic(auto)]

pub use modes::drive::drive;
pub use modes::status::status;
pub use modes::threads::drive_threads;
pub use modes::{Command, Fault, Mode};
pub use script::Script;
pub use workers::{Ended, Gate, OpenGate, prepare, run_workers, sweep, sweep_into};
