//! A device behind its lock, over the scripts by chance: what its calls answer is what a device answers that took the events
//! itself.
#![tactic(auto)]

#[cfg(test)]
mod acts;
