//! A guest's memory while others write it.
//!
//! A guest's processors write its memory whenever they like, between any two accesses of a device. So [`Dma`] says nothing of the
//! bytes that a read gives where the memory is shared. A device holds each memory in a [`Traced`], which has all accesses that were
//! made to it, in order, each with its bytes. Only the accesses themselves make that list grow, and nothing makes it shorter: so code
//! that holds a `Traced` can't say that it read what it wrote, leave an access out, or begin anew. What is proved of code that is
//! generic in a [`Dma`] holds whatever a guest writes, and whenever.
//!
//! Each `GuestMem` is a [`Dma`] that isn't shared: what a read gives is what stands there. So what is proved of code over any
//! [`Dma`] says of a `GuestMem` what each call makes of its bytes.
//!
//! The list has no bytes and costs nothing at run time: contracts alone see it. A type for memory that is shared notes its accesses
//! by [`Step`].
#![tactic(auto)]

pub mod dma;
mod steady;
pub mod step;
pub mod trace;
pub mod traced;
mod words;

pub use dma::{Alone, Dma, Shared};
pub use step::Step;
pub use trace::Trace;
pub use traced::Traced;
