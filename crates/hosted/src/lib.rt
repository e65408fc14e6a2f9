//! A device whose physical function is driven by a host of mailboxes, in one.
//!
//! A stock driver of a virtual function asks the physical function's driver for its address, its VLANs and its multicast by a
//! mailbox. The crate `mailbox` answers, and says which registers of the physical function are to be written; the crate `device`
//! is those registers. A [`HostedDevice`] owns both, with the mailbox of each function: no other hand writes a register of the
//! physical function. So what a host must not forget can't be forgotten: the writes of an answer are done before anything else
//! happens, a message is answered in its own function's mailbox, a reset is told to device, host and mailbox, and the host's own message
//! raises the cause by which the driver looks at its mailbox.
//!
//! Between two calls the device's settings are those that the host stands for, and no function has more than its policy grants.
//! A function's access to its registers, whatever it says in its mailbox, and its reset leave every other function as it was:
//! registers, memory and own settings, what the host holds of it, and its mailbox. That is a clause of each call.
#![tactic(auto)]

mod doing;
pub mod frames;
pub mod guests;
pub mod hosted;
pub mod policies;
pub mod registers;

pub use hosted::HostedDevice;
pub use policies::Notified;
