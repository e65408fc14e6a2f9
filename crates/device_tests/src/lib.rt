//! Tests of the whole device, of one function alone beside it, and of the history of its calls.
//!
//! The values come from outside, as a host would see them.
#![tactic(auto)]

#[cfg(test)]
mod compare;
#[cfg(test)]
mod examples;
#[cfg(test)]
mod histories;
#[cfg(test)]
mod lone_function;
#[cfg(test)]
mod whole_device;
