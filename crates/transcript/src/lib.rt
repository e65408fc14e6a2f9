//! What the program writes, as text with a meaning.
//!
//! An [`Output`] holds lines on their way to a writer, which is lent to each call, and is seen as the bytes that it holds.
//! Each line is made where it is to stand, of a response and the room that was lent: no answer and no frame is copied. Its
//! text is that of `specs/`, by the grammar of outputs; a writer has got a beginning of the text at any time, and all of it
//! but what is held. [`send`](send::send) hands bytes to a writer, which has a beginning of them where that fails. [`laws`] tie
//! the numbered lines to what a device keeps for a pool and to what a lone function shows. The crate stands on `device` and `lone`.
#![tactic(auto)]

mod count;
mod digits;
mod fault;
pub mod laws;
mod lines;
mod output;
pub mod send;
mod text;

pub use fault::Fault;
pub use output::Output;
