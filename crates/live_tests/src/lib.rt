//! Tests of memories that others write too, and of those that nobody else writes.
//!
//! Contracts alone see the list of accesses to a memory, so it can't be printed and compared. Here functions have the accesses that
//! they make in their contracts, written by hand, and the definitions are tried on lists written by hand. What a history keeps of a
//! memory's bytes is printed and compared. A memory that keeps its accesses at run time too serves to replay random events while
//! threads write it: what a device did is compared with what the events say, worked out a second time without the device's code.
#![tactic(auto)]

#[cfg(test)]
mod alone;
#[cfg(test)]
mod bursts;
#[cfg(test)]
mod by_hand;
#[cfg(test)]
mod compare;
#[cfg(test)]
mod guests;
#[cfg(test)]
mod kept;
#[cfg(test)]
mod mapped;
#[cfg(test)]
mod restless;
#[cfg(test)]
mod turning;
#[cfg(test)]
mod watched;
#[cfg(test)]
mod wire_bursts;
