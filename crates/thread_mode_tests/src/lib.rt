//! Tests of the mode `threads` by whole scripts: who made how many calls, beginnings of a script, and readers and writers that break;
//! and of its report by itself, of devices that give the kept answers and that don't.
//!
//! The calls are counted by hand: they are as many in whatever order the threads run.
#![tactic(auto)]

#[cfg(test)]
mod beginnings;
#[cfg(test)]
mod breaking_streams;
#[cfg(test)]
mod callers;
#[cfg(test)]
mod played;
#[cfg(test)]
mod reports;
