//! Tests of card: frames from the wire, what clients say on their sockets, and what is left of a guest that has gone. (Guests that come and go by
//! spare memories, frames from guest to guest, and messages by chance are tested through the archive by C and Rust.)
//!
//! What a client sends is worked out by hand from the protocol and the datasheet.
#![tactic(auto)]

#[cfg(test)]
mod areas;
#[cfg(test)]
mod client;
#[cfg(test)]
mod compare;
#[cfg(test)]
mod examples;
#[cfg(test)]
mod frames;
#[cfg(test)]
mod policies;
#[cfg(test)]
mod prompts;
#[cfg(test)]
mod resets;
