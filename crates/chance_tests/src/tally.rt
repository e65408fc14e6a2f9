//! What came up in some runs, counted.
use super::cut_down::{is_own, mark_of};
use script_support::seeded::FUNCTIONS;
use std::process::Abort;
use std::test::Fail;

// Kinds of lines: what the event begins with, what its reply begins with, and how many functions other than its own have
// messages of it at least.
static KINDS: [(&str, &str, u32); 30] = [
    ("open ", "ok", 0),
    ("end ", "ok", 0),
    ("flr ", "ok", 0),
    ("r ", "= ", 0),
    ("w ", "ok", 0),
    ("mr ", "bytes ", 0),
    ("mw ", "ok", 0),
    ("pr ", "= ", 0),
    ("pw ", "ok", 0),
    ("preset", "ok", 0),
    ("wire ", "ok", 0),
    ("serve ", "idle", 0),
    ("serve ", "more", 0),
    ("serve ", "sent", 0),
    ("serve ", "dropped", 0),
    ("serve ", "faulted", 0),
    ("", "refused 1", 0),
    ("", "refused 2", 0),
    ("", "refused 3", 0),
    ("", "refused 4", 0),
    ("", "refused 5", 0),
    ("", "refused 7", 0),
    // messages that a write of a register issues, and a service
    ("w ", "ok !", 0),
    ("serve ", "sent !", 0),
    ("serve ", "dropped !", 0),
    // frames from the wire that one function receives, or several
    ("wire ", "ok", 1),
    ("wire ", "ok", 2),
    // frames to nobody, which are received by the default pool
    ("wire 020000000109", "ok", 1),
    // frames from another function that one function receives, or several
    ("serve ", "sent", 1),
    ("serve ", "sent", 2),
];

/// How many lines of each kind came up.
#[derive(Drop)]
pub struct Tally {
    counts: [u32; 30],
}

impl Tally {
    /// Nothing yet.
    pub fn new() -> Tally {
        Tally { counts: [0; 30] }
    }

    /// Counts the lines of a script's output.
    pub fn add(&mut self, script: &str, output: &str) -> Result<(), Fail> {
        for (event, line) in script.lines().skip(1).zip(output.lines()) {
            let (_, reply) = line.split_once(' ').ok_or("no reply")?;
            let others = others_with_messages(event, reply)?;
            for ((begins, answered, least), count) in KINDS.iter().zip(&mut self.counts) {
                if event.starts_with(*begins) && reply.starts_with(*answered) && others >= *least {
                    *count = count.wrapping_add(1);
                }
            }
        }
        Ok(())
    }

    /// Each kind has to have come up so many times.
    pub fn check(&self, rt: &impl Abort, least: u32) {
        for ((event, reply, others), count) in KINDS.iter().zip(&self.counts) {
            assert!(rt; *count >= least, "{event:?} {reply:?} {others}: {count}");
        }
    }
}

// How many functions have messages of an event that isn't their own.
fn others_with_messages(event: &str, reply: &str) -> Result<u32, Fail> {
    let mut others = 0u32;
    if let Some((_, marks)) = reply.split_once(" !") {
        for pool in 0..FUNCTIONS {
            if mark_of(marks, pool)?.is_some() && !is_own(event, pool)? {
                others = others.wrapping_add(1);
            }
        }
    }
    Ok(others)
}
