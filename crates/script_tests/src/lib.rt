//! Tests of what is read and written: scripts, and the lines of a run.
//!
//! The texts are written out by hand, after the language's grammar.
#![tactic(auto)]

#[cfg(test)]
mod compare;
#[cfg(test)]
mod reading;
#[cfg(test)]
mod writing;
