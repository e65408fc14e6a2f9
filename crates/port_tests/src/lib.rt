//! Tests of ports: what a guest sees of its port, what its calls are answered and how many are kept, and how a port ends, also in
//! another thread. The values are worked out by hand.
#![tactic(auto)]

#[cfg(test)]
mod calls;
#[cfg(test)]
mod ends;
#[cfg(test)]
mod examples;
#[cfg(test)]
mod guests;
#[cfg(test)]
mod stage;
