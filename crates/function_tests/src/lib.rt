//! Tests of a virtual function and of what it stands on: frames, guest memory, lent blocks, rings, interrupt causes, receive and
//! transmit descriptors, and the function itself.
//!
//! The values come from outside, from the datasheet and by hand. The tests stand apart from the crates that they try, since a
//! crate that has tests is proved twice; they reach what is public and no more.
#![tactic(auto)]

#[cfg(test)]
mod causes;
#[cfg(test)]
mod checksums;
#[cfg(test)]
mod compare;
#[cfg(test)]
mod counting;
#[cfg(test)]
mod frames;
#[cfg(test)]
mod function;
#[cfg(test)]
#[cfg(test)]
mod memory;
#[cfg(test)]
mod receiving;
#[cfg(test)]
mod ring;
#[cfg(test)]
mod sending;
#[cfg(test)]
mod steps;
#[cfg(test)]
mod vectors;
