//! A recorded device that threads share.
ghost use Rattle.std.specs.Prelude.{◌≡◌};

use device::{Device, Event, MemSlice, Outcome, Request, Room};
use device_lock::{LockedDevice, Share, Shares, WhenFull};
use guest_memory::FlatMem;
use irq_line::GuestSeat;
use lock_support::{answer, arrival, is_scripted, line_of, locked, opening, settings};
use std::alloc::Global;
use std::marker::Brand;
use std::sync::ledger::{Blank, Ledger};
use std::sync::{Arc, Wait};
use std::test::Fail;
use std::thread;
use std::thread::Threads;
use test_support::memories;

// Events in turn; how many are answered as events from number `first` on of the script.
fn act_all<R: Wait, L: Ledger>(
    rt: &R,
    device: &LockedDevice<FlatMem, L>,
    share: &mut Share<L>,
    events: Vec<Event>,
    first: usize,
) -> u32 {
    let mut index = first;
    let mut answered = 0u32;
    for event in events {
        if let Some(answer) = answer(rt, device, share, event) {
            if is_scripted(index, &answer) {
                answered = answered.wrapping_add(1);
            }
        }
        index = index.wrapping_add(1);
    }
    answered
}

// The driver of the physical function makes the settings on a thread of its own while the service opens function 3. How many
// each was answered, and the driver's share.
fn sets_while_opening<
    R: Threads + Wait + Copy + Send + Sync + 'static,
    L: Ledger + Send + Sync + 'static,
>(
    rt: R,
    alloc: Global,
    device: &Arc<LockedDevice<FlatMem, L>>,
    mut pf: Share<L>,
    service: &mut Share<L>,
) -> Result<(u32, u32, Share<L>), Fail> {
    let (settings, opening) = (settings(alloc)?, opening(alloc)?);
    let there = Arc::try_clone(device)?;
    let driver = thread::spawn(&rt, move || {
        let answered = act_all(&rt, &*there, &mut pf, settings, 0);
        (answered, pf)
    })?;
    let opened = act_all(&rt, &**device, service, opening, 5);
    let (set, pf) = driver.join(&rt);
    Ok((set, opened, pf))
}

// How many events of the driver, the service and then the frame's are answered, the guest's take, the counts of the driver's and the
// service's calls, how many calls are kept, were folded, and whether they can be folded, and whether another device gives their answers.
type Seen = (
    (u32, u32, u32),
    u8,
    (u64, u64),
    (usize, usize, Option<usize>),
    bool,
);

// Once the settings are made and function 3 is open, a frame comes and is read.
fn in_threads<R: Threads + Wait + Copy + Send + Sync + 'static, L: Ledger + Send + Sync + 'static>(
    rt: R,
    alloc: Global,
    device: &Arc<LockedDevice<FlatMem, L>>,
    shares: Shares<L>,
    guest: &mut GuestSeat,
    other: &mut Device<FlatMem>,
) -> Result<Seen, Fail> {
    let arrival = arrival(alloc)?;
    let Shares {
        pf,
        mut service,
        ..
    } = shares;
    let (set, opened, pf) = sets_while_opening(rt, alloc, device, pf, &mut service)?;
    let arrived = act_all(&rt, &**device, &mut service, arrival, 14);
    let taken = guest.take();
    let (kept, folded) = device.kept_and_folded(&rt, &mut service);
    let left = (kept, folded, device.fold(&rt));
    Ok((
        (set, opened, arrived),
        taken,
        (pf.count(), service.count()),
        left,
        device.replays(&rt, other),
    ))
}

// The same of a device without a twin.
fn two_threads<R: Threads + Wait + Copy + Send + Sync + 'static, L: Ledger + Send + Sync + 'static>(
    rt: R,
    alloc: Global,
    blank: Blank,
) -> Result<Seen, Fail>
    requires name { blank.name ≡ L.name }
    requires parts { (blank.parts ≡ L.parts) × (blank.parts ≡ 67) }
{
    let mut other = Device::new(alloc, memories(alloc, 8, 65_536)?)?;
    let live = memories(alloc, 8, 65_536)?;
    let (line, mut guest) = line_of(alloc, 3)?;
    let (device, shares) = locked::<FlatMem, L>(alloc, blank, line, live, None, 18)?;
    in_threads(rt, alloc, &device, shares, &mut guest, &mut other)
}

// All calls are kept, without a twin to move the base, and a fresh device gives their answers.
#[test]
fn a_driver_sets_while_the_service_opens(rt: HostRuntime) -> Result<(), Fail> {
    let seen = two_threads::<HostRuntime, Brand>(rt, rt.alloc(), Blank::new(67))?;
    assert_eq!(rt; seen, ((5, 9, 4), 1, (5, 13), (18, 0, None), true));
    Ok(())
}

// The three bytes that the port of pool 3 reads from an address on, if any.
fn three_at<R: Wait, L: Ledger>(
    rt: &R,
    device: &LockedDevice<FlatMem, L>,
    port: &mut Share<L>,
    at: u64,
    room: &mut Room,
) -> Option<[u8; 3]> {
    let request = Request::MemRead(3, at, 3);
    if !port.may(request) {
        return None;
    }
    let response = device.act_request(rt, port, request, room, WhenFull::Refuse)?;
    let read = room.read(response.outcome);
    if read.len() != 3 {
        return None;
    }
    Some([read[0], read[1], read[2]])
}

// Writes bytes to the memory of function 3 by its port.
fn is_written<R: Wait, L: Ledger>(
    rt: &R,
    device: &LockedDevice<FlatMem, L>,
    port: &mut Share<L>,
    at: u64,
    bytes: MemSlice<'_>,
    room: &mut Room,
) -> bool {
    let request = Request::MemWrite(3, at, bytes);
    if !port.may(request) {
        return false;
    }
    match device.act_request(rt, port, request, room, WhenFull::Refuse) {
        Some(response) => response.outcome == Outcome::Done,
        None => false,
    }
}

// What a read of a closed function gives; whether it is opened, and two bytes are written to the end of its memory; and what three more
// reads give, over the last byte but two, past the end, and as the first, for which there is no room.
type Read = (Option<[u8; 3]>, (bool, bool), [Option<[u8; 3]>; 3]);

fn read_by<R: Wait, L: Ledger>(
    rt: &R,
    device: &LockedDevice<FlatMem, L>,
    service: &mut Share<L>,
    port: &mut Share<L>,
    bytes: MemSlice<'_>,
) -> Read {
    let mut room = Room::new();
    let closed = three_at(rt, device, port, 0, &mut room);
    let is_open = answer(rt, device, service, Event::Open(3)).is_some();
    let is_kept = is_written(rt, device, port, 4094, bytes, &mut room);
    let inside = three_at(rt, device, port, 4093, &mut room);
    let past = three_at(rt, device, port, 4094, &mut room);
    let full = three_at(rt, device, port, 4093, &mut room);
    (closed, (is_open, is_kept), [inside, past, full])
}

// The same of a device of which five calls are kept, and how many the port and the service made.
fn reads_back<R: Wait, L: Ledger>(
    rt: &R,
    alloc: Global,
    blank: Blank,
) -> Result<(Read, (u64, u64)), Fail>
    requires name { blank.name ≡ L.name }
    requires parts { (blank.parts ≡ L.parts) × (blank.parts ≡ 67) }
{
    let bytes = MemSlice::new(&[7, 8])?;
    let memories = memories(alloc, 4, 4096)?;
    let (line, _guest) = line_of(alloc, 3)?;
    let (device, mut shares) = locked::<FlatMem, L>(alloc, blank, line, memories, None, 5)?;
    let mut port = shares.port(3).ok_or("no share")?;
    let mut service = shares.service;
    let read = read_by(rt, &*device, &mut service, &mut port, bytes);
    Ok((read, (port.count(), service.count())))
}

// A port reads nothing from a closed function. Once it is open, the port writes two bytes to the end of its memory and reads them
// back. Nothing is read past the end of the memory, though the room has bytes of the read before.
#[test]
fn a_port_reads_back_what_it_wrote(rt: HostRuntime) -> Result<(), Fail> {
    let seen = reads_back::<HostRuntime, Brand>(&rt, rt.alloc(), Blank::new(67))?;
    let due = (None, (true, true), [Some([0, 7, 8]), None, None]);
    assert_eq!(rt; seen, (due, (4, 1)));
    Ok(())
}
