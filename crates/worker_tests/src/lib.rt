//! Tests of workers: guests in threads of their own, frames through the pump, ends that the service records, and histories that are
//! folded. The scripts and the numbers are worked out by hand.
#![tactic(auto)]

#[cfg(test)]
mod calls;
#[cfg(test)]
mod ends;
#[cfg(test)]
mod guests;
#[cfg(test)]
mod shares;
#[cfg(test)]
mod stage;
