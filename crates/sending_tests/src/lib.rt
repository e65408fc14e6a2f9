//! Tests of what a transmit queue does that its driver leaves to the card: sums, tags by context and segments; what can't be done; cards
//! that do some of it or none; and what a queue forgets where it goes off.
//!
//! A test hands a driver's descriptors to a card, and compares what each step gives: what came of it, the head, which descriptors are done,
//! and the frame that leaves, with one that scapy built.
#![tactic(auto)]

#[cfg(test)]
mod card;
#[cfg(test)]
mod compare;
#[cfg(test)]
mod contexts;
#[cfg(test)]
mod flags;
#[cfg(test)]
mod queue;
#[cfg(test)]
mod refused;
#[cfg(test)]
mod segments;
#[cfg(test)]
mod sums;
#[cfg(test)]
mod tags;
