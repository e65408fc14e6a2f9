//! A history of a device over a memory whose bytes are others at every read: what is kept is what was handed out, and each event
//! reads the memory once.

use crate::compare::assert_equal;
use crate::restless::Restless;
use device::{Device, MemSlice, Outcome, Request, Room};
use guest_memory::{FlatMem, GuestMem};
use history::{Caller, History};
use live_memory::Dma;
use script_support::registers::VFLINKS;
use std::alloc::Global;
use std::process::Abort;
use std::test::Fail;

// One more call, for which there is room, of a device over whatever memory; and what came of it.
fn keep<R: Abort, D: Dma<K>, K>(
    rt: &R,
    history: &mut History,
    device: &mut Device<D, K>,
    request: Request<'_>,
    room: &mut Room,
) -> Outcome {
    assert!(rt; !history.is_full());
    history
        .record(Caller::Service, request, device, room)
        .outcome
}

// A device over one memory.
fn over<D: Dma<K>, K>(alloc: Global, memory: D) -> Result<Device<D, K>, Fail> {
    let mut memories = Vec::new(alloc);
    memories.push(memory)?;
    Ok(Device::new(alloc, memories)?)
}

// What is asked of function 0, once it is open, and the bytes that are read.
const ASKED: [(Request<'static>, Option<&[u8]>); 8] = [
    (Request::MemRead(0, 8, 4), Some(&[1; 4])),
    // others by now
    (Request::MemRead(0, 8, 4), Some(&[2; 4])),
    // refused, and the memory isn't read: too long, past the end, and of no function
    (Request::MemRead(0, 0, 2049), None),
    (Request::MemRead(0, 4094, 3), None),
    (Request::MemRead(1, 0, 4), None),
    // no read of a memory
    (Request::VfRead(0, VFLINKS), None),
    (Request::MemRead(0, 4094, 2), Some(&[3; 2])),
    (Request::MemRead(0, 0, 2048), Some(&[4; 2048])),
];

// Whether a device whose guest wrote these bytes right before gives what a call was answered.
fn gives<M: GuestMem>(
    history: &History,
    index: usize,
    device: &mut Device<M>,
    at: u64,
    bytes: &[u8],
) -> Result<bool, Fail> {
    device.mem_write(0, at, MemSlice::new(bytes)?)?;
    if index >= history.len() {
        return Err("no such call".into());
    }
    Ok(history.gives(index, device, &mut Room::new()))
}

#[test]
fn the_bytes_that_are_kept_are_handed_out(rt: HostRuntime) -> Result<(), Fail> {
    let mut device = over(rt.alloc(), Restless::new())?;
    let mut history = History::new(rt.alloc(), 16)?;
    let mut room = Room::new();
    keep(&rt, &mut history, &mut device, Request::Open(0), &mut room);
    for (request, due) in ASKED {
        let outcome = keep(&rt, &mut history, &mut device, request, &mut room);
        let read = match outcome {
            Outcome::Bytes(_) => Some(room.read(outcome)),
            _ => None,
        };
        assert_equal(&rt, read, due);
    }
    // the first read was answered as where the guest had written ones, and the second as where it had written twos
    let mut twin = over(rt.alloc(), FlatMem::new(rt.alloc(), 4096)?)?;
    twin.open(0)?;
    assert_equal(&rt, gives(&history, 1, &mut twin, 8, &[1; 4])?, true);
    assert_equal(&rt, gives(&history, 1, &mut twin, 8, &[2; 4])?, false);
    assert_equal(&rt, gives(&history, 2, &mut twin, 8, &[2; 4])?, true);
    assert_equal(&rt, gives(&history, 8, &mut twin, 0, &[4; 2048])?, true);
    Ok(())
}
