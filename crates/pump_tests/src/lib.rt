//! Tests of the pump: frames that come through a channel in order, how feeds and pumps end, and the door to a device that threads
//! share. What no contract says is tried: that frames come through at all, ends that are gone, and threads.
#![tactic(auto)]

#[cfg(test)]
mod doors;
#[cfg(test)]
mod examples;
#[cfg(test)]
mod sending;
#[cfg(test)]
mod shelf;
#[cfg(test)]
mod threads;
