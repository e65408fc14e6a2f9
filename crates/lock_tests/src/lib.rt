//! Tests of a recorded device: how it is made, what each caller may ask, histories that are full, and threads that share it. The
//! events are those that callers of a host make, and what is answered, kept and raised is worked out by hand.
#![tactic(auto)]

#[cfg(test)]
mod compared;
#[cfg(test)]
mod full;
#[cfg(test)]
mod making;
#[cfg(test)]
mod rights;
#[cfg(test)]
mod taken_out;
#[cfg(test)]
mod threads;
#[cfg(test)]
mod when_full;
