//! Tests of a device with its host: drivers that ask by their mailboxes, guests that come and go, and frames between them.
//!
//! What a stock driver writes and reads is worked out by hand from the datasheet and from Linux ixgbevf.
#![tactic(auto)]

#[cfg(test)]
mod compare;
#[cfg(test)]
mod drivers;
#[cfg(test)]
mod support;
