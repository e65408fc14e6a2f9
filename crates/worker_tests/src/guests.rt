//! Guests that run beside each other, and one that is dropped while a frame for it is under way.
ghost use Rattle.std.specs.Prelude.{◌≡◌};

use crate::stage::{Begun, SET_UP_EVENTS, Seen, Setting, begin, done, read, setting_of};
use device::{Event, Reply};
use device_lock::{LockedDevice, Share};
use guest_memory::FlatMem;
use lock_support::{answer, frame_to_3};
use log::sink::Memory as Sink;
use log::{Level, Log, Logged};
use script::Script;
use script_support::registers::{VFGPRC, VFLINKS};
use std::alloc::Global;
use std::marker::Brand;
use std::sync::atomic::{AtomicU64, Ordering};
use std::sync::ledger::{Blank, Ledger};
use std::sync::{Arc, Wait};
use std::test::Fail;
use std::thread;
use std::thread::Threads;
use wire_frame::Fault;
use wire_pump::{FeedEnd, LockedDoor, PumpEnd, channel, feed, pump};
use workers::{Gate, sweep};

// Holds call 1 of port 1 until call 1 of port 2 is answered.
#[derive(Drop)]
struct Hold {
    answered: AtomicU64,
    late: AtomicU64,
}

impl Gate for Hold {
    fn before(&self, caller: u8, n: u32) {
        if caller != 1 || n != 1 {
            return;
        }
        for _ in 0..10_000_000u32 {
            if self.answered.load(Ordering::SeqCst) == 1 {
                return;
            }
            thread::yield_now();
        }
        self.late.store(1, Ordering::SeqCst);
    }

    fn after(&self, caller: u8, n: u32) {
        if caller == 2 && n == 1 {
            self.answered.store(1, Ordering::SeqCst);
        }
    }
}

// Guest 1 reads its link status once, and guest 2 twice.
const TWO_GUESTS: &str = "vfs 3 4096\n\
    open 1\n\
    open 2\n\
    go\n\
    r 1 VFLINKS\n\
    r 2 VFLINKS\n\
    r 2 VFLINKS\n";

// The workers, in the order of their starts, which is that of their joins too. Ports are seated from the last on.
const WORKERS: [&str; 6] = ["port2", "port1", "pf", "pump", "reader", "service"];

// Whether these are the lines of the workers' starts and ends.
fn are_logged(alloc: Global, lines: &[String]) -> Result<bool, Fail> {
    for (at, worker) in WORKERS.iter().enumerate() {
        let starts = format!(in alloc; "[DEBUG workers::crew] worker {worker} starts")?;
        let ends = format!(in alloc; "[DEBUG workers::crew] worker {worker} ends")?;
        if lines.get(at) != Some(&starts) || lines.get(at + 6) != Some(&ends) {
            return Ok(false);
        }
    }
    Ok(lines.len() == 12)
}

// What is seen of the script under the gate.
fn hold_two<L: Ledger + Send + Sync + 'static, R: Threads + Wait + Copy + Send + 'static, O: Log>(
    rt: R,
    log: &O,
    alloc: Global,
    blank: Blank,
    setting: Setting,
    script: Script,
    gate: Arc<Hold>,
) -> Result<Seen, Fault>
    requires name { blank.name ≡ L.name }
    requires parts { (blank.parts ≡ L.parts) × (blank.parts ≡ 67) }
{
    done::<L, Hold, R, O>(rt, log, alloc, blank, setting, script, gate)
}

// Guest 1 waits for guest 2, and both end.
#[test]
fn guests_run_beside_each_other(rt: HostRuntime) -> Result<(), Fail> {
    let alloc = rt.alloc();
    let gate = Arc::new(
        alloc,
        Hold {
            answered: AtomicU64::new(0),
            late: AtomicU64::new(0),
        },
    )?;
    let sink = Sink::new(alloc);
    let log = Logged::new(rt, Level::Debug, &sink);
    let setting = setting_of(alloc, &[1, 2], 3, 71, false)?;
    let seen = hold_two::<Brand, HostRuntime, Logged<HostRuntime, &Sink>>(
        rt,
        &log,
        alloc,
        Blank::new(67),
        setting,
        read(alloc, TWO_GUESTS)?,
        Arc::try_clone(&gate)?,
    )?;
    drop(log);
    assert!(rt; are_logged(alloc, sink.into_lines().as_slice())?);
    assert_eq!(rt;
        (counts(&seen), gate.late.load(Ordering::SeqCst)),
        ((67, 7, [1, 2, 4]), 0)
    );
    Ok(())
}

// How many shares there are, how many calls are kept, and how many are of ports 1 and 2 and of the service.
fn counts(seen: &Seen) -> (usize, usize, [u64; 3]) {
    let entries = [seen.entries[1], seen.entries[2], seen.entries[66]];
    (seen.shares, seen.kept, entries)
}

// The value that the service reads of a register of function 3, or the fault.
fn read_of_3<L: Ledger, R: Wait>(
    rt: &R,
    device: &LockedDevice<FlatMem, L>,
    service: &mut Share<L>,
    offset: u32,
) -> Option<Result<u32, u8>>
    ensures { service.new.caller ≡ service.old.caller }
{
    match answer(rt, device, service, Event::VfRead(3, offset)) {
        Some(answer) => match answer.reply {
            Reply::Value(value) => Some(Ok(value)),
            Reply::Refused(number) => Some(Err(number)),
            _ => None,
        },
        None => None,
    }
}

// What is seen of a port that is dropped while a frame for its function is under way: whether the frame and `Last` were sent, and
// came out; whether the note knew the end before and after the drop; what the function answers of the frame, since it is open until
// its end is recorded; how many ends are recorded, and what it answers then; and how many calls are kept.
type UnderWay = (
    (bool, bool),
    (bool, bool),
    Option<Result<u32, u8>>,
    Option<usize>,
    Option<Result<u32, u8>>,
    usize,
);

// Feeds a frame and `Last`, drops the port of the frame's function, pumps, and sweeps.
fn under_way<L: Ledger, R: Wait>(rt: &R, alloc: Global, blank: Blank) -> Result<UnderWay, Fail>
    requires name { blank.name ≡ L.name }
    requires parts { (blank.parts ≡ L.parts) × (blank.parts ≡ 67) }
{
    let Begun {
        device,
        shares,
        port,
        mut note,
    } = begin::<L, R>(rt, alloc, blank)?;
    let mut service = shares.service;
    let (mut sender, mut receiver) = channel(alloc)?;
    let frames = [frame_to_3()?];
    let is_fed = matches!(feed(&mut sender, rt, &frames), FeedEnd::All);
    let before = note.ended();
    drop(port);
    let after = note.ended();
    let mut door = LockedDoor::new(Arc::try_clone(&device)?, shares.pump);
    let is_pumped = matches!(pump(&mut receiver, rt, &mut door), PumpEnd::Last);
    let received = read_of_3(rt, &*device, &mut service, VFGPRC);
    let mut notes = Vec::new(alloc);
    notes.push((3, note))?;
    let swept = sweep(rt, &mut notes, &device, &mut service).ok();
    let last = read_of_3(rt, &*device, &mut service, VFLINKS);
    Ok((
        (is_fed, is_pumped),
        (before, after),
        received,
        swept,
        last,
        device.kept(rt),
    ))
}

// The set-up, the frame, a read, the end and another read are kept.
#[test]
fn a_frame_comes_for_a_port_that_is_dropped(rt: HostRuntime) -> Result<(), Fail> {
    let seen = under_way::<Brand, HostRuntime>(&rt, rt.alloc(), Blank::new(67))?;
    let due = (
        (true, true),
        (false, true),
        Some(Ok(1)),
        Some(1),
        Some(Err(2)),
        SET_UP_EVENTS + 4,
    );
    assert_eq!(rt; seen, due);
    Ok(())
}
