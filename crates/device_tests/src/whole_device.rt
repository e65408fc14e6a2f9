//! Values from outside: events as a host would hand them in, and what is answered.
use crate::compare::assert_equal;
use device::{Answer, Device, Event, MemBytes, Queue, Reply};
use guest_memory::{FlatMem, GuestMem};
use script_support::registers::{
    ADVANCED, ENABLE, MPSAR, PFVFRE, PFVFTE, RAH, RAL, RDBAL0, RDLEN0, RDT0, ROUTES, RXDCTL0,
    SRRCTL0, TDBAL0, TDLEN0, TXDCTL0, VALID, VTEIMS, VTIVAR,
};
use std::alloc::Global;
use std::process::Abort;
use std::test::Fail;
use test_support::memories;
use wire_frame::{Fault, FrameBuf};

mod calls;
mod frames;
mod losses;
mod making;
mod registers;
mod rooms;
mod slots;

// Registers of the physical function, and what they are written: function 3 has an address and may receive and send.
pub const SETTINGS: [(u32, u32); 5] = [
    (PFVFRE, 0xFF),
    (PFVFTE, 0xFF),
    (RAL + 8 * 3, 0x2),
    (RAH + 8 * 3, VALID | 0x300),
    (MPSAR + 8 * 3, 0x8),
];
// Registers of a function, and what they are written: one receive descriptor in a ring at 0x1000, and both causes of queue 0.
pub const RECEIVE: [(u32, u32); 7] = [
    (RDBAL0, 0x1000),
    (RDLEN0, 128),
    (SRRCTL0, ADVANCED | 2),
    (RXDCTL0, ENABLE),
    (RDT0, 1),
    (VTIVAR, ROUTES),
    (VTEIMS, 7),
];
// The same for a transmit ring of eight descriptors at 0x2000.
pub const TRANSMIT: [(u32, u32); 3] = [(TDBAL0, 0x2000), (TDLEN0, 128), (TXDCTL0, ENABLE)];

// A frame of 60 bytes to an address that ends with `to`, with a number in its last bytes.
pub fn frame_to(to: u8, number: u16) -> Result<FrameBuf, Fault> {
    let mut bytes = [0u8; 60];
    bytes[0] = 2;
    bytes[5] = to;
    bytes[6] = 2;
    bytes[11] = 0x99;
    bytes[12] = 8;
    bytes[58] = (number / 256) as u8;
    bytes[59] = (number % 256) as u8;
    FrameBuf::from_bytes(&bytes)
}

// One event that is done, without messages.
pub fn do_silently<R: Abort, M: GuestMem>(rt: &R, device: &mut Device<M>, event: &Event) {
    let answer = device.step(event);
    assert!(rt; answer.reply.is_done());
    assert_equal(rt, answer.raised.as_slice(), [0u8; 64].as_slice());
}

// The settings, and function 3 open with its receive ring.
pub fn set_up<R: Abort, M: GuestMem>(rt: &R, device: &mut Device<M>) -> Result<(), Fail> {
    for (offset, value) in SETTINGS {
        do_silently(rt, device, &Event::PfWrite(offset, value));
    }
    do_silently(rt, device, &Event::Open(3));
    let descriptor = MemBytes::from_bytes(&[0, 0x40])?;
    do_silently(rt, device, &Event::MemWrite(3, 0x1000, descriptor));
    for (offset, value) in RECEIVE {
        do_silently(rt, device, &Event::VfWrite(3, offset, value));
    }
    Ok(())
}

// The bytes of a memory.
pub fn assert_bytes<R: Abort, M: GuestMem>(rt: &R, device: &mut Device<M>, at: u64, want: &[u8]) {
    let count = want.len().min(2048) as u16;
    match &device.step(&Event::MemRead(3, at, count)).reply {
        Reply::Bytes(bytes) => assert_equal(rt, bytes.bytes(), want),
        _ => assert!(rt; false),
    }
}
