//! A soak, no part of the product: 64 guests, each in a thread of its own, ask one recorded device as fast as they can, while
//! frames come from the wire, the physical function's driver changes what pools accept, and the service serves queues.
//!
//! - With no arguments each soak is done once with few calls, and the output says whether it came out right.
//! - `fold SECONDS`: the history is folded as it fills. At the end the shares are gathered, and the calls that were folded away
//!   and those that are kept are their sum.
//! - `fill SECONDS`: there is no twin. A device is asked until its history is full, and then a fresh one gives the kept
//!   answers; this is done anew until the time is over.
//!
//! Status 1: something came out wrong.
#![tactic(auto)]

mod crew;
mod driver;
mod guest;
mod report;
mod round;
mod until;
mod wire;

use crate::report::print;
use crate::round::{Figures, Kind, Plan, Stage, round};
use crate::until::Until;
use anyhow::{Result, anyhow};
use guest_memory::FlatMem;
use lock_support::line;
use std::alloc::Global;
use std::env;
use std::marker::Brand;
use std::sync::ledger::Blank;
use std::time::Instant;
use test_support::memories;

/// How many guests there are: all that a card can have.
const GUESTS: u8 = 64;
/// How many bytes the memory of each has.
const MEMORY: u64 = 65_536;
/// How many calls a history keeps.
const CAP: usize = 65_536;
/// How many it keeps where each soak is done once, and how many turns a thread does then.
const FEW: usize = 600;

const TURNS: u64 = 40;

// What a round is done on.
fn stage(alloc: Global) -> Result<Stage<FlatMem>> {
    let (line, seats) = line(alloc)?;
    Ok(Stage {
        line,
        seats,
        live: memories(alloc, usize::from(GUESTS), MEMORY)?,
        other: memories(alloc, usize::from(GUESTS), MEMORY)?,
    })
}

// What is asked for: a kind, and for how many seconds; or each kind once.
fn asked(words: &[String]) -> Option<Option<(Kind, u64)>> {
    let [kind, seconds] = words else {
        return if words.is_empty() { Some(None) } else { None };
    };
    let seconds = seconds.as_str().parse::<u64>().ok()?;
    match kind.as_str() {
        "fold" => Some(Some((Kind::Fold, seconds))),
        "fill" => Some(Some((Kind::Fill, seconds))),
        _ => None,
    }
}

// How a round is done: of the kind that is asked for, or of each kind in turn.
fn plan_of(asked: Option<(Kind, u64)>, begin: Instant, seed: u64) -> Plan {
    let (kind, cap, turns, seconds) = match asked {
        Some((Kind::Fold, seconds)) => (Kind::Fold, CAP, u64::MAX, seconds),
        Some((Kind::Fill, _)) => (Kind::Fill, CAP, u64::MAX, u64::MAX),
        None if seed == 0 => (Kind::Fold, FEW, TURNS, u64::MAX),
        None => (Kind::Fill, FEW, TURNS, u64::MAX),
    };
    Plan {
        kind,
        cap,
        until: Until {
            start: begin,
            seconds,
            turns,
        },
        seed,
    }
}

// Whether no round comes after this one.
fn is_last(asked: Option<(Kind, u64)>, seed: u64, seconds: u64) -> bool {
    match asked {
        Some((Kind::Fold, _)) => true,
        Some((Kind::Fill, most)) => seconds >= most,
        None => seed == 1,
    }
}

fn main(rt: HostRuntime) -> Result<()> {
    let alloc = rt.alloc();
    let words = env::args(&rt)?.skip(1).collect::<Vec<String>>(alloc)?;
    let Some(asked) = asked(&words) else {
        return Err(anyhow!("soak: `fold SECONDS`, `fill SECONDS`, or no arguments"));
    };
    let begin = Instant::now(&rt)?;
    let (mut seed, mut all) = (0u64, Figures::default());
    for _ in rt.forever() {
        let plan = plan_of(asked, begin, seed);
        let figures = round::<FlatMem, Brand, HostRuntime>(
            rt,
            alloc,
            Blank::new(67),
            stage(alloc)?,
            plan,
        )?;
        if !figures.is_right(plan.kind, plan.cap) {
            return Err(anyhow!("soak: a round came out wrong"));
        }
        all = all.and(figures);
        if asked.is_none() {
            println!(rt; "{:?}: right", plan.kind)?;
        }
        let seconds = begin.elapsed(&rt)?.as_secs();
        if is_last(asked, seed, seconds) {
            if asked.is_some() {
                print(
                    &mut rt.stdout(),
                    plan.kind,
                    &all,
                    seed.wrapping_add(1),
                    seconds,
                )?;
            }
            return Ok(());
        }
        seed = seed.wrapping_add(1);
    }
    unreachable!()
}
