//! Scripts of events: read, checked whole, and told one event at a time.
//!
//! A [`Script`] is read from its text and seen as what the text says by the grammar of `specs/`: the device that it asks for
//! and the list of its events, or the first bad line. It is kept in few bytes; a request is made of a record where it is
//! asked for, in a [`Scratch`] that is lent. The crate stands on `device`.
#![tactic(auto)]

mod chunks;
mod events;
pub mod fault;
mod hexadecimal;
mod kind;
mod numbers;
mod reader;
mod record;
pub mod scratch;
pub mod script;
pub mod shape;
mod store;
mod text;
mod words;

pub use fault::Fault;
pub use numbers::number;
pub use scratch::Scratch;
pub use script::Script;
pub use shape::Shape;
