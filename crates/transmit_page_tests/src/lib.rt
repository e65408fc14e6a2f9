//! Tests of what a queue's changed words become, of what messages touch, and of where the registers stand.
//!
//! The values come from outside: what a stock Linux driver writes when it sets a queue up and takes it down, the offsets of the
//! datasheet, and messages as QEMU spells them.
#![tactic(auto)]

#[cfg(test)]
mod changes;
#[cfg(test)]
mod compare;
#[cfg(test)]
mod examples;
#[cfg(test)]
mod messages;
#[cfg(test)]
mod places;
#[cfg(test)]
mod queue;
