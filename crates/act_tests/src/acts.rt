//! The service makes all the calls, or two guests make theirs in threads of their own.
ghost use Rattle.std.specs.Prelude.{◌≡◌};

use device::{Answer, Device, Event, MemBytes, Request};
use device_lock::{LockedDevice, Share, Shares};
use guest_memory::FlatMem;
use lock_support::{answer, line_of, locked};
use script::{Scratch, Script};
use script_support::seeded;
use std::alloc::Global;
use std::marker::Brand;
use std::process::Abort;
use std::sync::atomic::{AtomicU64, Ordering};
use std::sync::ledger::{Blank, Ledger};
use std::sync::{Arc, Wait};
use std::test::Fail;
use std::thread;
use std::thread::Threads;
use test_support::memories;
use wire_frame::{Fault, FrameBuf};

// How many scripts a test has.
const SCRIPTS: u64 = 50;

// How many calls of each kind each guest has to make in the scripts of a test.
const LEAST: u32 = 100;

// The event that a request stands for.
fn event_of(request: Request<'_>) -> Result<Event, Fault> {
    Ok(match request {
        Request::Open(pool) => Event::Open(pool),
        Request::End(pool) => Event::End(pool),
        Request::VfRead(pool, offset) => Event::VfRead(pool, offset),
        Request::VfWrite(pool, offset, value) => Event::VfWrite(pool, offset, value),
        Request::MemRead(pool, at, count) => Event::MemRead(pool, at, count),
        Request::MemWrite(pool, at, bytes) => {
            Event::MemWrite(pool, at, MemBytes::from_bytes(bytes.bytes())?)
        }
        Request::Serve(pool, queue) => Event::Serve(pool, queue),
        Request::Flr(pool) => Event::Flr(pool),
        Request::PfRead(offset) => Event::PfRead(offset),
        Request::PfWrite(offset, value) => Event::PfWrite(offset, value),
        Request::PfReset => Event::PfReset,
        Request::Wire(frame) => Event::Wire(FrameBuf::from_bytes(frame.bytes())?),
    })
}

// The events of a script.
fn events_of(alloc: Global, script: &Script) -> Result<Vec<Event>, Fail> {
    let mut scratch = Scratch::new();
    let mut events = Vec::with_capacity(alloc, script.len())?;
    for index in 0..script.len() {
        events.push(event_of(script.request(index, &mut scratch))?)?;
    }
    Ok(events)
}

// The memories of the device that a script asks for.
fn memories_of(alloc: Global, script: &Script) -> Result<Vec<FlatMem>, Fault> {
    let shape = script.shape();
    memories(alloc, usize::from(shape.functions), shape.memory_size)
}

// The device that a script asks for.
fn fresh(alloc: Global, script: &Script) -> Result<Device<FlatMem>, Fault> {
    Device::new(alloc, memories_of(alloc, script)?)
}

// The same behind a lock, with room for so many calls.
fn locked_for<L: Ledger>(
    alloc: Global,
    blank: Blank,
    script: &Script,
    cap: usize,
) -> Result<(Arc<LockedDevice<FlatMem, L>>, Shares<L>), Fault>
    requires name { blank.name ≡ L.name }
    requires parts { (blank.parts ≡ L.parts) × (blank.parts ≡ 67) }
{
    let (line, _guest) = line_of(alloc, 0)?;
    let memories = memories_of(alloc, script)?;
    locked(alloc, blank, line, memories, None, cap)
}

// How many of the answers to a script's events in order, by `act` of the service, are those of `run`, and how many events
// there are.
fn agreed<L: Ledger, R: Wait>(
    rt: &R,
    alloc: Global,
    blank: Blank,
    script: &Script,
) -> Result<(usize, usize, usize), Fail>
    requires name { blank.name ≡ L.name }
    requires parts { (blank.parts ≡ L.parts) × (blank.parts ≡ 67) }
{
    let events = events_of(alloc, script)?;
    let count = events.len();
    let wanted = fresh(alloc, script)?.run(alloc, events.as_slice())?;
    let (device, mut shares) = locked_for::<L>(alloc, blank, script, count)?;
    let mut same = 0usize;
    for (event, wanted) in events.into_iter().zip(wanted) {
        if answer(rt, &device, &mut shares.service, event) == Some(wanted) {
            same = same.wrapping_add(1);
        }
    }
    Ok((same, device.kept(rt), count))
}

// The scripts of the seeds of a test.
fn service_agrees<R: Abort + Wait + AllocGlobal>(rt: &R, first: u64) -> Result<(), Fail> {
    let alloc = rt.alloc();
    for step in 0..SCRIPTS {
        let seed = first.wrapping_add(step);
        let text = seeded::script(alloc, seed)?;
        let script = Script::read(alloc, &mut text.as_bytes())?;
        let seen = agreed::<Brand, R>(rt, alloc, Blank::new(67), &script)?;
        let events = seeded::EVENTS as usize;
        assert_eq!(rt; seen, (events, events, events), "seed {seed}");
    }
    Ok(())
}

#[test]
fn act_agrees_from_1(rt: HostRuntime) -> Result<(), Fail> {
    service_agrees(&rt, 1)
}

#[test]
fn act_agrees_from_51(rt: HostRuntime) -> Result<(), Fail> {
    service_agrees(&rt, 51)
}

#[test]
fn act_agrees_from_101(rt: HostRuntime) -> Result<(), Fail> {
    service_agrees(&rt, 101)
}

#[test]
fn act_agrees_from_151(rt: HostRuntime) -> Result<(), Fail> {
    service_agrees(&rt, 151)
}

// What a guest made: how many calls of each kind, reads and writes of registers and then of memory, and how many of them
// were answered otherwise than to a device that took them alone.
#[derive(Clone, Copy, Debug, PartialEq, Eq)]
struct Made {
    calls: [u32; 4],
    others: u32,
}

// The place of a guest's request among its kinds.
fn kind_of(request: Request<'_>, pool: u8) -> Option<usize> {
    match request {
        Request::VfRead(of, _) if of == pool => Some(0),
        Request::VfWrite(of, _, _) if of == pool => Some(1),
        Request::MemRead(of, _, _) if of == pool => Some(2),
        Request::MemWrite(of, _, _) if of == pool => Some(3),
        _ => None,
    }
}

// The events of a script that a guest makes.
fn own_events(alloc: Global, script: &Script, pool: u8) -> Result<Vec<Event>, Fail> {
    let mut scratch = Scratch::new();
    let mut own = Vec::new(alloc);
    for index in 0..script.len() {
        let request = script.request(index, &mut scratch);
        if kind_of(request, pool).is_some() {
            own.push(event_of(request)?)?;
        }
    }
    Ok(own)
}

// What a guest's thread has: its share of the device, its events, and a device that takes these alone.
#[derive(Drop)]
struct Guest<L: Ledger> {
    device: Arc<LockedDevice<FlatMem, L>>,
    share: Share<L>,
    pool: u8,
    events: Vec<Event>,
    alone: Device<FlatMem>,
    // how many guests have begun
    begun: Arc<AtomicU64>,
}

// Waits until both guests have begun, or for long.
fn meet(begun: &AtomicU64) {
    begun.fetch_add(1, Ordering::SeqCst);
    for _ in 0..10_000_000u32 {
        if begun.load(Ordering::SeqCst) == 2 {
            return;
        }
        thread::yield_now();
    }
}

// Makes a guest's calls, and lets the other run after each eight of them.
fn calls<L: Ledger, R: Wait>(rt: &R, guest: Guest<L>) -> Made {
    let Guest {
        device,
        mut share,
        pool,
        events,
        mut alone,
        begun,
    } = guest;
    meet(&begun);
    let mut made = Made {
        calls: [0; 4],
        others: 0,
    };
    for (place, event) in events.into_iter().enumerate() {
        let kind = kind_of(event.as_request(), pool);
        let wanted = alone.step(&event);
        if answer(rt, &device, &mut share, event) != Some(wanted) {
            made.others = made.others.wrapping_add(1);
        }
        made.add(kind);
        if place % 8 == 7 {
            thread::yield_now();
        }
    }
    made
}

impl Made {
    // Counts a call.
    fn add(&mut self, kind: Option<usize>) {
        if let Some(kind) = kind {
            if let Some(count) = self.calls.get_mut(kind) {
                *count = count.wrapping_add(1);
            }
        }
    }

    // Adds what the same guest made of another script.
    fn add_all(&mut self, more: Made) {
        for (count, more) in self.calls.iter_mut().zip(more.calls) {
            *count = count.wrapping_add(more);
        }
        self.others = self.others.wrapping_add(more.others);
    }
}

// A guest of a script: its device has both guests' functions open, as the one behind the lock has.
fn guest_of<L: Ledger>(
    alloc: Global,
    script: &Script,
    device: &Arc<LockedDevice<FlatMem, L>>,
    share: Share<L>,
    begun: &Arc<AtomicU64>,
) -> Result<Guest<L>, Fail> {
    let pool = share.caller();
    let mut alone = fresh(alloc, script)?;
    let _ = alone.step(&Event::Open(0));
    let _ = alone.step(&Event::Open(1));
    Ok(Guest {
        device: Arc::try_clone(device)?,
        share,
        pool,
        events: own_events(alloc, script, pool)?,
        alone,
        begun: Arc::try_clone(begun)?,
    })
}

// What the guests of pools 0 and 1 make of a script, each in a thread of its own, and how many calls are kept then.
fn two_guests<L: Ledger + Send + Sync + 'static, R: Threads + Wait + Copy + Send + 'static>(
    rt: R,
    alloc: Global,
    blank: Blank,
    script: &Script,
) -> Result<(Vec<Made>, usize), Fail>
    requires name { blank.name ≡ L.name }
    requires parts { (blank.parts ≡ L.parts) × (blank.parts ≡ 67) }
{
    let (device, mut shares) = locked_for::<L>(alloc, blank, script, 1000)?;
    let begun = Arc::new(alloc, AtomicU64::new(0))?;
    let first = shares.port(0).ok_or("no share")?;
    let second = shares.port(1).ok_or("no share")?;
    answer(&rt, &device, &mut shares.service, Event::Open(0)).ok_or("not opened")?;
    answer(&rt, &device, &mut shares.service, Event::Open(1)).ok_or("not opened")?;
    let mut guests = Vec::with_capacity(alloc, 2)?;
    guests.push(guest_of(alloc, script, &device, first, &begun)?)?;
    guests.push(guest_of(alloc, script, &device, second, &begun)?)?;
    let mut running = Vec::with_capacity(alloc, 2)?;
    for guest in guests {
        running.push(thread::spawn(&rt, move || calls(&rt, guest))?)?;
    }
    let mut made = Vec::with_capacity(alloc, 2)?;
    for thread in running {
        made.push(thread.join(&rt))?;
    }
    Ok((made, device.kept(&rt)))
}

// The scripts of the seeds of a test.
fn guests_agree<R: Abort + Threads + Wait + Copy + Send + AllocGlobal + 'static>(
    rt: R,
    first: u64,
) -> Result<(), Fail> {
    let alloc = rt.alloc();
    let nothing = Made {
        calls: [0; 4],
        others: 0,
    };
    let mut all = [nothing; 2];
    for step in 0..SCRIPTS {
        let text = seeded::script(alloc, first.wrapping_add(step))?;
        let script = Script::read(alloc, &mut text.as_bytes())?;
        let (made, kept) = two_guests::<Brand, R>(rt, alloc, Blank::new(67), &script)?;
        let mut calls = 2u32;
        for (all, made) in all.iter_mut().zip(made) {
            all.add_all(made);
            for count in made.calls {
                calls = calls.wrapping_add(count);
            }
        }
        assert_eq!(rt; kept, calls as usize);
    }
    for made in all {
        assert_eq!(rt; made.others, 0);
        for count in made.calls {
            assert!(rt; count >= LEAST, "{:?}", made);
        }
    }
    Ok(())
}

#[test]
fn guests_agree_from_1(rt: HostRuntime) -> Result<(), Fail> {
    guests_agree(rt, 1)
}

#[test]
fn guests_agree_from_51(rt: HostRuntime) -> Result<(), Fail> {
    guests_agree(rt, 51)
}

#[test]
fn guests_agree_from_101(rt: HostRuntime) -> Result<(), Fail> {
    guests_agree(rt, 101)
}

#[test]
fn guests_agree_from_151(rt: HostRuntime) -> Result<(), Fail> {
    guests_agree(rt, 151)
}
