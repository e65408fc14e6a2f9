//! A recorded device that threads share, behind one lock.
//!
//! A [`LockedDevice`] is a [`Recorded`] device, which the crate `recorder` makes, behind a lock: one call at a time is inside,
//! and the others wait. Each caller has its [`Share`], and of each call that it makes the share has, from then on, the event
//! and the very answer that is handed back. A share grows inside `recorder` alone, by the call that the device kept. So this
//! crate can't answer what was not kept, can't keep what it does not tell, and can't make a call that nobody asked for.
//!
//! All names of `recorder` are handed on. Only the calls of a locked device wait, for the lock; none but its maker takes
//! memory. The crate stands on `recorder` and `device`.
#![tactic(auto)]

mod locked;

pub use locked::{LockedDevice, WhenFull};
pub use recorder::{CALLERS, Caller, Full, Recorded, Share, Shares, Tally};
