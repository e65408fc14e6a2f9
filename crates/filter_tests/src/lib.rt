//! Tests of the physical function's settings: the index of pools, the address and VLAN tables, the pool filter, the sender
//! check and the local switch.
//!
//! The values come from outside, from the datasheet and by hand.
#![tactic(auto)]

#[cfg(test)]
mod addresses;
#[cfg(test)]
mod compare;
#[cfg(test)]
mod filter;
#[cfg(test)]
mod index;
#[cfg(test)]
mod reach;
#[cfg(test)]
mod sender;
#[cfg(test)]
mod switch;
#[cfg(test)]
mod vlans;
