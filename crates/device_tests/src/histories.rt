//! Values from outside: calls as a host would make them, and what a second device answers.
use device::{Device, MemSlice, Queue, Request, Response, Room};
use guest_memory::{FlatMem, GuestMem};
use history::head::Head;
use history::{Caller, History};
use script_support::registers::{
    ADVANCED, ENABLE, RDBAL0, RDLEN0, RDT0, ROUTES, RXDCTL0, SRRCTL0, VTEIMS, VTIVAR,
};
use std::alloc::Global;
use std::mem::size_of;
use std::process::Abort;
use std::test::Fail;
use test_support::memories;
use wire_frame::{Fault, Frame, FrameBuf, PoolId};

mod answers;
mod entries;
mod making;

// Registers of a function, and what they are written: one receive descriptor in a ring at 0, and all causes set and
// acknowledged without a mask. The cause of receive queue 0 is that of vector 0.
const RECEIVE: [(u32, u32); 7] = [
    (RDBAL0, 0),
    (RDLEN0, 128),
    (SRRCTL0, ADVANCED | 2),
    (RXDCTL0, ENABLE),
    (RDT0, 1),
    (VTIVAR, ROUTES),
    (VTEIMS, 7),
];

// A device with 64 functions, all closed.
fn device_of_64(alloc: Global) -> Result<Device<FlatMem>, Fault> {
    Device::new(alloc, memories(alloc, 64, 4096)?)
}

// The port of a pool; the service where there is no such pool.
fn port_of(pool: u8) -> Caller {
    match PoolId::new(pool) {
        Some(pool) => Caller::Port(pool),
        None => Caller::Service,
    }
}

// One more call, for which there is room.
fn keep<R: Abort, M: GuestMem>(
    rt: &R,
    history: &mut History,
    device: &mut Device<M>,
    caller: Caller,
    request: Request<'_>,
    room: &mut Room,
) -> Response {
    assert!(rt; !history.is_full());
    history.record(caller, request, device, room)
}

// The first entry that the device does not give as it steps through them.
fn first_other<M: GuestMem>(
    history: &History,
    device: &mut Device<M>,
    room: &mut Room,
) -> Option<usize> {
    for index in 0..history.len() {
        if !history.gives(index, device, room) {
            return Some(index);
        }
    }
    None
}
