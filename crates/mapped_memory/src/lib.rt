//! A guest's memory in regions of bytes that the host lends, which the guest's processors write too.
//!
//! [`LiveMem`] has the bytes of up to 64 regions. The host maps each, and unmaps it, between two events of a device. To a device it
//! is a [`Dma`](live_memory::Dma) that is shared: each access is kept in the trace, and `seen` is what the device knows of the
//! bytes, which contracts alone see. The crate stands on [`guest_memory`] for which sizes a memory may have. All room is taken by
//! [`LiveMem::new`].
//!
//! # What a device reads and writes
//!
//! An address is the number of a byte, from 0 on. An address that no region has is in a hole: it reads as zero, and what is written
//! there is dropped. What is written to a read-only region is dropped too, and [`laws`] shows that all else is read back. An access may
//! lie across regions and holes.
//!
//! # What a guest sees
//!
//! What a device writes stands in the region's bytes as soon as the access is done, and the accesses are made in the order in which
//! the device makes them, as the posted writes of a PCI Express function are. Each is one copy for each region that it meets, so a
//! descriptor of 16 bytes in one region is written by one. The order of the bytes within a copy isn't said.
//!
//! # What is trusted
//!
//! The logic takes lent bytes as bytes that this program alone writes: by the contracts here, a read gives what the host lent, and what
//! a device wrote over it. What a guest's processors write meanwhile is what [`Dma`](live_memory::Dma) leaves open. Code that is
//! generic in it knows nothing of an answer, so what is proved of that code holds of any.
//!
//! That needs each access of a device to be one read or one write of the memory, and there the compiler is trusted: the toolchain has
//! neither volatile nor atomic accesses to lent bytes. So all bytes pass through small functions of `region`, each of which makes one
//! copy and is never inlined, and code around a call that isn't inlined can't be compiled to make it more often, or less, or in another
//! order. A word of 8 bytes and a descriptor of 16 are copied by one load and one store, as the compiler has it on x86-64.
//!
//! Nobody but a guest writes bytes while they are lent, and a guest does no more to them than to give them other values. Who lends them
//! answers for that.
#![tactic(auto)]

pub mod laws;
pub mod live_mem;
pub mod map_error;
mod region;
mod scans;

pub use live_mem::LiveMem;
pub use map_error::{MapError, RefusedBytes};
