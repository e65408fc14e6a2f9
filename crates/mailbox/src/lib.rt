//! The host's answer to the mailbox of a guest's driver.
//!
//! A stock driver of a virtual function asks for its address, its VLANs and its multicast by sixteen words and one register. A
//! [`Mailbox`] is these registers of one function. A [`Host`] keeps for each of 64 functions what its [`Policy`] grants and what
//! it has asked for, answers the message that stands in a mailbox ([`Host::answer`]), and gives the [`Writes`] to the physical
//! function's registers that are to be done. It stands beside a device and holds none; no call takes memory.
//!
//! The reply to each message, what it makes of the function, and the writes are definitions, which the calls meet. A host stands
//! for settings of the physical function: [`Host::first_write`] gives the writes that make a device's registers these, whatever
//! they held, and the writes of each answer and each reset keep them so. After each single one of these writes every other pool
//! has what it had: its own settings, which frames it accepts and which it may send. From [`Host::new`] on no function has more
//! than its policy grants, and no two hold one address. What comes of it in a device, the crate `mailbox_laws` says.
#![tactic(auto)]

pub mod address;
pub mod admitting;
pub mod changed;
pub mod granting;
pub mod host;
pub mod keeping;
pub mod laws;
pub mod mailbox;
pub mod message;
pub mod not_admitted;
pub mod policy;
pub mod registers;
pub mod reply;
pub mod slot;
pub mod start;
pub mod words;
pub mod writes;

pub use address::Address;
pub use admitting::Admission;
pub use host::Host;
pub use mailbox::{Mailbox, Notice, Rang};
pub use message::{Api, Message, Multicast, Reply};
pub use not_admitted::NotAdmitted;
pub use policy::{Policy, VlanPolicy};
pub use slot::{Guest, Slot};
pub use start::Register;
pub use writes::{Write, Writes};
