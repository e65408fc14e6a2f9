//! Tests of the mailbox: what a driver says at its start and what it is answered, every refusal, and 64 functions beside one
//! another.
//!
//! The values come from outside: the driver's words as they were seen when a stock Linux guest was run, and the datasheet.
#![tactic(auto)]

#[cfg(test)]
mod driver;
#[cfg(test)]
mod examples;
#[cfg(test)]
mod first_writes;
#[cfg(test)]
mod notices;
#[cfg(test)]
mod policies;
#[cfg(test)]
mod pools;
#[cfg(test)]
mod refusals;
#[cfg(test)]
mod seconds;
#[cfg(test)]
mod start;
