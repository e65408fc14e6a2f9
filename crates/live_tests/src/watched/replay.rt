//! What a device does while guests write their memories is what it does where each wrote before just what was read, and it reads and
//! writes what is due of each event, in that order.
use super::drawn::{Drawn, FUNCTIONS, set_up};
use super::guests::{Seeded, Threaded, Words, words, write_on};
use super::memory::Guest;
use super::pair::Pair;
use super::tally::Tally;
use std::alloc::Global;
use std::process::Abort;
use std::sync::Arc;
use std::sync::atomic::{AtomicU64, Ordering};
use std::test::Fail;
use std::thread;
use std::thread::{JoinHandle, Threads};

// Gives a pair of devices so many events, and tells what came up.
fn replay<G: Guest>(
    rt: &impl Abort,
    alloc: Global,
    guests: Vec<G>,
    events: u64,
    seed: u64,
) -> Result<Tally, Fail> {
    let mut pair = Pair::new(alloc, guests)?;
    set_up(&mut pair)?;
    let mut drawn = Drawn::new(seed);
    for number in 0..events {
        if let Err(wrong) = pair.take(drawn.next()) {
            assert!(rt; false, "event {number} of seed {seed}: {wrong}");
        }
    }
    Ok(pair.tally)
}

#[test]
fn a_hundred_thousand_events_while_guests_write(rt: HostRuntime) -> Result<(), Fail> {
    let mut tally = Tally::default();
    for seed in 1..11 {
        let mut guests = Vec::new(rt.alloc());
        for pool in 0..u64::from(FUNCTIONS) {
            guests.push(Seeded::new(100 * seed + pool))?;
        }
        tally = tally.and(replay(&rt, rt.alloc(), guests, 10_000, seed)?);
    }
    tally.check(&rt, 400, 100);
    Ok(())
}

// Starts threads that write to these memories.
fn start<R: Threads>(
    rt: &R,
    alloc: Global,
    memories: &[Words],
    over: &Arc<AtomicU64>,
    count: u64,
) -> Result<Vec<JoinHandle<u64>>, Fail> {
    let mut threads = Vec::new(alloc);
    for seed in 0..count {
        let mut theirs = Vec::new(alloc);
        for memory in memories {
            theirs.push(Arc::try_clone(memory)?)?;
        }
        let over = Arc::try_clone(over)?;
        let work = move || write_on(theirs.as_slice(), &over, seed);
        threads.push(thread::spawn(rt, work)?)?;
    }
    Ok(threads)
}

#[test]
fn a_million_events_while_threads_write(rt: HostRuntime) -> Result<(), Fail> {
    let alloc = rt.alloc();
    let (mut memories, mut guests) = (Vec::new(alloc), Vec::new(alloc));
    for _ in 0..FUNCTIONS {
        let words = words(alloc)?;
        guests.push(Threaded::new(Arc::try_clone(&words)?))?;
        memories.push(words)?;
    }
    let over = Arc::new(alloc, AtomicU64::new(0))?;
    let threads = start(&rt, alloc, memories.as_slice(), &over, 3)?;
    let tally = replay(&rt, alloc, guests, 1_000_000, 7);
    over.store(1, Ordering::Relaxed);
    let mut written = 0u64;
    for thread in threads {
        written = written.saturating_add(thread.join(&rt));
    }
    tally?.check(&rt, 500, 500);
    assert!(rt; written >= 1000, "{written}");
    Ok(())
}
