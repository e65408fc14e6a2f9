//! What a host of mailboxes does to a device: its first writes make the device's settings those that it stands for, every
//! message and every policy leaves them so, and in a run in which nobody else writes to the physical function's registers, no
//! message, reset or policy of one virtual function leaves anything for another, unless a policy takes an address from it.
//!
//! The crate has no code: each function's contract is a law over the definitions of `mailbox` and `device`.
#![tactic(auto)]

pub mod laws;
