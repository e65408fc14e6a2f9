//! Each virtual function alone: over scripts by chance, what a lone function shows is what a run shows of it.
//!
//! No output is worked out here: the modes `run` and `lone` are compared, and the kinds of lines that came up are counted.
#![tactic(auto)]

#[cfg(test)]
mod agreeing;
#[cfg(test)]
mod cut_down;
#[cfg(test)]
mod tally;
