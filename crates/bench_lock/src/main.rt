//! A small benchmark, no part of the product: what a call costs a device behind its lock, from one thread.
//!
//! - With no arguments each workload is done 300 times, and the output says how many calls were kept.
//! - `times` prints a table: nanoseconds a call, where the history's room is first used and where it was used before.
//!
//! There is one memory of 256 KiB, and a history of 65,536 calls with a twin, which is folded after each round.
#![tactic(auto)]

mod calls;

use crate::calls::{Figures, Plan, Workload, measure};
use anyhow::{Result, anyhow};
use guest_memory::FlatMem;
use std::alloc::Global;
use std::env;
use std::marker::Brand;
use std::sync::ledger::Blank;
use test_support::memories;

/// How many calls a workload has where nothing is timed.
const FEW: u32 = 300;
/// How many calls a round has that is timed: nearly as many as the history keeps.
const TURNS: u32 = 65_000;
/// How many rounds are timed.
const ROUNDS: u32 = 20;

fn main(rt: HostRuntime) -> Result<()> {
    let alloc = rt.alloc();
    let words = env::args(&rt)?.skip(1).collect::<Vec<String>>(alloc)?;
    let timed = words.len() == 1 && words[0].as_str() == "times";
    if timed {
        println!(rt; "| Call | First use, ns | Later, ns |")?;
        println!(rt; "|---|---|---|")?;
    }
    for (name, workload) in [
        ("VfRead", Workload::VfRead),
        ("Wire, 60 bytes", Workload::Wire),
    ] {
        let plan = Plan {
            workload,
            turns: if timed { TURNS } else { FEW },
            rounds: if timed { ROUNDS } else { 2 },
        };
        let live = memories(alloc, 1, 262_144)?;
        let twin = memories(alloc, 1, 262_144)?;
        let figures = measure::<HostRuntime, FlatMem, Brand>(
            &rt,
            alloc,
            Blank::new(67),
            live,
            twin,
            plan,
        )?;
        if timed {
            let (first, later) = (
                figures.first.saturating_mul(10) / u128::from(TURNS),
                figures.later.saturating_mul(10) / u128::from(TURNS),
            );
            println!(rt;
                "| {name} | {}.{} | {}.{} |",
                first / 10,
                first % 10,
                later / 10,
                later % 10
            )?;
        } else {
            println!(rt; "{name} {FEW}: {}", figures.done)?;
        }
    }
    Ok(())
}
