//! A small benchmark, no part of the product: what an event costs a device, by `Device::take_live`, which `take` calls, and by the call by its
//! name.
//!
//! - With no words each workload is done 300 times both ways over both kinds of memories, and the output says how many turns did what they
//!   should.
//! - `own times` and `lent times` print a table of nanoseconds an event, the best of 400 rounds of 4096 turns.
//! - `own|lent WORKLOAD take|name TURNS` does one workload one way, so that its instructions can be counted. bench/device.sh does.
//!
//! There are 64 memories of 256 KiB and rings of 4096 descriptors. Own memories stand behind boxes, as in the program; lent ones are bytes
//! that the device is lent, one region each, as in the C interface. Every 2048 turns the device is given as many descriptors; the rest
//! of a turn is the event alone.
#![tactic(auto)]

mod calls;
mod measure;
mod setup;
mod workload;

use crate::measure::{Plan, Way, measure};
use crate::setup::{COUNT, MEMORY};
use crate::workload::{WORKLOADS, Workload};
use anyhow::{Result, anyhow};
use device::Device;
use guest_memory::{FlatMem, GuestMem};
use live_memory::Dma;
use mapped_memory::LiveMem;
use std::alloc::Global;
use std::env;

/// What is said of words that mean nothing.
const USAGE: &str = "usage: bench_device [own|lent [times | WORKLOAD take|name TURNS]]";
/// How many turns a workload has where nothing is timed.
const FEW: u32 = 300;
/// How many rounds are timed, each of as many turns as a ring has descriptors.
const ROUNDS: u32 = 400;

// The workload of that name.
fn workload_of(name: &str) -> Result<Workload> {
    for workload in WORKLOADS {
        if workload.name() == name {
            return Ok(workload);
        }
    }
    Err(anyhow!("no such workload"))
}

// The way of that name.
fn way_of(name: &str) -> Result<Way> {
    match name {
        "take" => Ok(Way::Take),
        "name" => Ok(Way::Name),
        _ => Err(anyhow!("no such way")),
    }
}

// Prints how many turns of each workload did what they should.
fn print_counts<D: Dma<K>, K>(rt: &HostRuntime, device: &mut Device<D, K>) -> Result<()> {
    for workload in WORKLOADS {
        let plan = Plan {
            workload,
            turns: FEW,
            rounds: 1,
        };
        let take = measure(rt, device, plan, Way::Take)?.done;
        let name = measure(rt, device, plan, Way::Name)?.done;
        println!(rt; "{} {FEW}: take {take}, name {name}", workload.name())?;
    }
    Ok(())
}

// What an event costs, in tenths of a nanosecond.
fn time<D: Dma<K>, K>(
    rt: &HostRuntime,
    device: &mut Device<D, K>,
    workload: Workload,
    way: Way,
) -> Result<u128> {
    let plan = Plan {
        workload,
        turns: COUNT,
        rounds: ROUNDS,
    };
    let nanos = measure(rt, device, plan, way)?.nanos;
    Ok(nanos.saturating_mul(10) / u128::from(COUNT))
}

// Prints the table of nanoseconds.
fn print_times<D: Dma<K>, K>(rt: &HostRuntime, device: &mut Device<D, K>) -> Result<()> {
    println!(rt; "| Workload | By `take`, ns | By name, ns |")?;
    println!(rt; "|---|---|---|")?;
    for workload in WORKLOADS {
        let take = time(rt, device, workload, Way::Take)?;
        let name = time(rt, device, workload, Way::Name)?;
        let (row, take_tenths, name_tenths) = (workload.name(), take % 10, name % 10);
        println!(rt;
            "| {row} | {}.{take_tenths} | {}.{name_tenths} |",
            take / 10,
            name / 10
        )?;
    }
    Ok(())
}

// Does what the words of the command line ask for, over these memories.
fn answer<D: Dma<K>, K>(rt: &HostRuntime, memories: Vec<D>, words: &[String]) -> Result<()> {
    let mut device = Device::new(rt.alloc(), memories)?;
    if words.is_empty() {
        return print_counts(rt, &mut device);
    }
    if words.len() == 1 && words[0].as_str() == "times" {
        return print_times(rt, &mut device);
    }
    if words.len() != 3 {
        return Err(anyhow!("{USAGE}"));
    }
    let plan = Plan {
        workload: workload_of(&words[0])?,
        turns: words[2].parse()?,
        rounds: 1,
    };
    let done = measure(rt, &mut device, plan, way_of(&words[1])?)?.done;
    println!(rt; "{} {} {}: {done}", words[0], words[1], words[2])?;
    Ok(())
}

// Does it over memories of the device's own, behind boxes.
fn answer_own(rt: &HostRuntime, words: &[String]) -> Result<()> {
    let alloc = rt.alloc();
    let mut memories = Vec::new(alloc);
    for _ in 0..64 {
        let memory: Box<dyn GuestMem + Send> = Box::new(alloc, FlatMem::new(alloc, MEMORY)?)?;
        memories.push(memory)?;
    }
    answer(rt, memories, words)
}

// Does it over bytes that are lent.
fn answer_lent(rt: &HostRuntime, words: &[String]) -> Result<()> {
    let alloc = rt.alloc();
    let mut cells = Vec::new(alloc);
    cells.resize(64 * MEMORY as usize, 0u8)?;
    let mut memories = Vec::new(alloc);
    for block in cells.chunks_mut(MEMORY as usize) {
        memories.push(lent_memory(alloc, block)?)?;
    }
    answer(rt, memories, words)
}

// A memory of these bytes, in one region.
fn lent_memory<'a>(alloc: Global, cells: &'a mut [u8]) -> Result<LiveMem<'a>> {
    let mut memory = LiveMem::new(alloc, MEMORY)?;
    match memory.map(0, cells, false) {
        Ok(()) => Ok(memory),
        Err(refused) => Err(anyhow!("not mapped: {}", refused.why)),
    }
}

fn main(rt: HostRuntime) -> Result<()> {
    let words = env::args(&rt)?.skip(1).collect::<Vec<String>>(rt.alloc())?;
    if words.is_empty() {
        println!(rt; "own memories")?;
        answer_own(&rt, &words)?;
        println!(rt; "lent memories")?;
        return answer_lent(&rt, &words);
    }
    match words[0].as_str() {
        "own" => answer_own(&rt, &words[1..]),
        "lent" => answer_lent(&rt, &words[1..]),
        _ => Err(anyhow!("{USAGE}")),
    }
}
