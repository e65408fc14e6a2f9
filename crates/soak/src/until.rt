//! When a soak is over.
use std::time::{Clock, Instant};

/// How many turns pass between two looks at the clock.
const LOOKS: u64 = 256;

/// When the threads of a round end.
#[derive(Clone, Copy)]
pub struct Until {
    /// When the round began.
    pub start: Instant,
    /// After how many seconds it is over.
    pub seconds: u64,
    /// How many turns a thread does at most.
    pub turns: u64,
}

impl Until {
    /// Whether a thread that did so many turns ends. It ends too where there is no clock.
    pub fn is_over<R: Clock>(&self, rt: &R, turns: u64) -> bool {
        turns >= self.turns || (turns % LOOKS == 0 && self.is_past(rt))
    }

    /// Whether the time is over.
    pub fn is_past<R: Clock>(&self, rt: &R) -> bool {
        match self.start.elapsed(rt) {
            Ok(time) => time.as_secs() >= self.seconds,
            Err(_) => true,
        }
    }
}
