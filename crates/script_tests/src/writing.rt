//! Values from outside: replies by hand, and writers that break off.
use device::{Device, Request, Room};
use guest_memory::{FlatMem, GuestMem};
use std::alloc::Global;
use std::io::Write;
use std::test::Fail;
use test_support::memories;
use transcript::Output;
use wire_frame::Fault;

mod breaking;
mod replies;

// A device of eight functions with 65,536 bytes each.
fn device_of_8(alloc: Global) -> Result<Device<FlatMem>, Fault> {
    Device::new(alloc, memories(alloc, 8, 65536)?)
}

// The line of one more answer.
fn answer<M: GuestMem, W: Write>(
    output: &mut Output,
    number: u64,
    device: &mut Device<M>,
    request: Request<'_>,
    room: &mut Room,
    writer: &mut W,
) -> Result<(), transcript::Fault> {
    let response = device.take(request, room);
    output.answer(number, &response, room, writer)
}

// The lines of the answers.
fn run(alloc: Global, asked: &[Request<'_>]) -> Result<String, Fail> {
    let mut device = device_of_8(alloc)?;
    let mut output = Output::new(alloc)?;
    let mut written = Vec::new(alloc);
    let mut room = Room::new();
    for (index, request) in asked.iter().enumerate() {
        answer(
            &mut output,
            index as u64 + 1,
            &mut device,
            *request,
            &mut room,
            &mut written,
        )?;
    }
    output.finish(&mut written)?;
    Ok(String::from_utf8(written)?)
}
