//! Whether a pool may send a frame.
//!
//! [`passes_anti_spoof`] is the check on senders (82599 datasheet, anti-spoofing): it looks at the pool's own settings and at the
//! frame, and at nothing else. [`honest`] asks it of a pool whose settings stand in the tables. They stand on
//! [`pool_filter`], and take no memory.
#![tactic(auto)]

pub mod sender;

pub use sender::{honest, passes_anti_spoof};
