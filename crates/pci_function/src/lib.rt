//! The PCI configuration space of one virtual function of the 82599, as a guest's driver and its hypervisor read and write it.
//!
//! A [`PciFunction`] is the 256 bytes of that space. Their registers are rows of one table: where a register stands, how many bytes it
//! has, what it holds at first, and which of its bits a write sets. A read takes any bytes of the space, and zeros behind it. A write sets
//! those bits, and no others; one that sets Initiate Function Level Reset makes the space as it was at first, and says so
//! ([`Effect::Reset`]), so that the caller resets the function behind it. No call takes memory, and each offset and length is allowed.
//!
//! What the table has:
//!
//! - vendor 8086h, device 10EDh, the class of an Ethernet controller, no interrupt pin;
//! - BAR 0 for the registers and BAR 3 for the MSI-X table, both of 16 KiB in memory space with 64 bits of address ([`bar_size`]);
//! - MSI-X at 70h, with three vectors, the table at the begin of BAR 3 and the pending bits at 2000h;
//! - PCI Express at A0h, with function-level reset.
//!
//! Places and numbers of both capabilities are those of the 82599 Datasheet, "Virtual Functions Configuration Space".
//!
//! # What is this model's choice
//!
//! The space is that of a virtual function as a hypervisor shows it to a guest, that is, as an endpoint of its own. So vendor, device,
//! and the bits of Command for memory space and interrupts are here, which SR-IOV keeps in the physical function, or reads as all
//! ones or zero. The subsystem id, the link's speed and width and the payload size are fixed numbers that say nothing of a real link.
//! All of Device Control but the reset bit is reserved in a virtual function, and reads 0 (SR-IOV 1.1, Device Control Register). There
//! is no extended configuration space: from byte 256 on all reads 0.
//!
//! A base address register keeps its type and no address. The size of a BAR can't be found by writing all ones to it: QEMU and Linux's
//! VFIO emulate the base addresses, ask the size by a message of their own, and read only the type here. QEMU also emulates the table and
//! the pending bits of MSI-X, and never asks for BAR 3 by message; a caller that is asked answers zeros.
#![tactic(auto)]

pub mod laws;
mod space;
mod table;

pub use space::{Effect, PciFunction, bar_size};
