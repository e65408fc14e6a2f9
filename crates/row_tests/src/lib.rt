//! Tests of whole scripts by one thread: each has to have its output, in the modes `run`, `keep` and `lone`.
//!
//! The outputs come from worked examples outside.
#![tactic(auto)]

#[cfg(test)]
mod accesses;
#[cfg(test)]
mod check;
#[cfg(test)]
mod grammar;
#[cfg(test)]
mod kinds_of_memory;
#[cfg(test)]
mod one_function;
#[cfg(test)]
mod receiving;
#[cfg(test)]
mod sending;
#[cfg(test)]
mod wire_out;
