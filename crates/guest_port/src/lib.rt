//! A guest's port: what a guest has of its virtual function.
//!
//! A [`LockedPort`] reads and writes the registers and the memory of its own pool's function, resets it, and takes the
//! function's interrupt messages. Each call that waits is one event of that pool, which the device keeps with its answer, and
//! its result is the reply of that very answer. The calls for messages wait for nobody: they are those of a
//! [`GuestPort`], such as the [`IrqPort`] over a seat of the interrupt line. A port ends when it is told to, closed or dropped,
//! which takes no lock and no memory, and its [`EndNote`]s tell so from then on. A port that is closed hands back, once, its
//! seat, its note and its share, and so nothing of them is lost. None but the makers of an [`IrqPort`] takes memory.
//!
//! The crate stands on `device_lock` for the device, on `irq_line` for the seat, on `once_cell` for the note of the end, and on
//! `shadow`, by which contracts speak of a seat and a share that were handed back.
#![tactic(auto)]

mod boxes;
mod irq_port;
mod locked_port;
mod note;
mod port;

pub use irq_port::{IrqPort, Refused};
pub use locked_port::LockedPort;
pub use note::EndNote;
pub use port::{GuestPort, Tokens};
