//! Tests of the interrupt line: what a driver sees of its messages, also where one thread raises them and another takes them. The
//! masks are worked out by hand.
#![tactic(auto)]

#[cfg(test)]
mod examples;
#[cfg(test)]
mod raising;
