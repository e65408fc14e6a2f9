//! Scripts of four times fifty seeds, in the mode `run` and in `lone` for each function.
use super::cut_down::cut_down;
use super::tally::Tally;
use modes::Mode;
use modes::drive::drive;
use script_support::seeded::{FUNCTIONS, script};
use std::alloc::Global;
use std::process::Abort;
use std::test::Fail;

// How often each kind of line has to come up in the scripts of a test.
const LEAST: u32 = 10;

// How many lines the output of a lone function has at least.
const LINES: usize = 12;

// The output of a script in a mode.
fn output(alloc: Global, mode: Mode, script: &str) -> Result<String, Fail> {
    let mut written = Vec::new(alloc);
    drive(alloc, mode, &mut script.as_bytes(), &mut written)?;
    Ok(String::from_utf8(written)?)
}

// Whether what a lone function shows is what a run's output shows of it, and has enough lines.
fn agrees(alloc: Global, script: &str, run: &str, pool: u32) -> Result<bool, Fail> {
    let left = cut_down(alloc, script, run, pool)?;
    let lone = output(alloc, Mode::Lone(u64::from(pool)), script)?;
    Ok(lone.as_str() == left.as_str() && left.as_str().lines().count() >= LINES)
}

// The scripts of the fifty seeds from this one on.
fn all_agree(rt: &(impl Abort + AllocGlobal), first: u64) -> Result<(), Fail> {
    let alloc = rt.alloc();
    let mut tally = Tally::new();
    for seed in first..first.saturating_add(50) {
        let script = script(alloc, seed)?;
        let run = output(alloc, Mode::Run, script.as_str())?;
        tally.add(script.as_str(), run.as_str())?;
        for pool in 0..FUNCTIONS {
            let agrees = agrees(alloc, script.as_str(), run.as_str(), pool)?;
            assert!(rt; agrees, "seed {seed}, function {pool}");
        }
    }
    tally.check(rt, LEAST);
    Ok(())
}

#[test]
fn lone_agrees_from_1(rt: HostRuntime) -> Result<(), Fail> {
    all_agree(&rt, 1)
}

#[test]
fn lone_agrees_from_51(rt: HostRuntime) -> Result<(), Fail> {
    all_agree(&rt, 51)
}

#[test]
fn lone_agrees_from_101(rt: HostRuntime) -> Result<(), Fail> {
    all_agree(&rt, 101)
}

#[test]
fn lone_agrees_from_151(rt: HostRuntime) -> Result<(), Fail> {
    all_agree(&rt, 151)
}
