//! The examples of the documentation of device and history, which docs/check compares with these.
use device::{Device, MemSlice, Request, Room};
use guest_memory::FlatMem;
use history::{Caller, History};
use std::test::Fail;
use wire_frame::Fault;

#[test]
fn example_of_device_new(rt: HostRuntime) -> Result<(), Fail> {
    let mut memories = Vec::new(rt.alloc());
    memories.push(FlatMem::new(rt.alloc(), 65536)?)?;
    memories.push(FlatMem::new(rt.alloc(), 65536)?)?;
    let mut device = Device::new(rt.alloc(), memories)?;
    assert!(rt; device.open(1) == Ok(()));
    assert!(rt; device.open(2) == Err(Fault::NoSuchVf));
    Ok(())
}

#[test]
fn example_of_device_take(rt: HostRuntime) -> Result<(), Fail> {
    let mut memories = Vec::new(rt.alloc());
    memories.push(FlatMem::new(rt.alloc(), 65536)?)?;
    let mut device = Device::new(rt.alloc(), memories)?;
    let mut room = Room::new();
    device.take(Request::Open(0), &mut room);
    device.take(Request::MemWrite(0, 8, MemSlice::new(&[7])?), &mut room);
    let response = device.take(Request::MemRead(0, 8, 2), &mut room);
    assert!(rt; room.read(response.outcome) == [7, 0].as_slice());
    Ok(())
}

#[test]
fn example_of_history_new(rt: HostRuntime) -> Result<(), Fail> {
    let mut memories = Vec::new(rt.alloc());
    memories.push(FlatMem::new(rt.alloc(), 4096)?)?;
    let mut device = Device::new(rt.alloc(), memories)?;
    let mut history = History::new(rt.alloc(), 16)?;
    let mut room = Room::new();
    assert!(rt; !history.is_full());
    history.record(Caller::Service, Request::Open(0), &mut device, &mut room);
    assert!(rt; history.len() == 1);
    assert!(rt; history.caller(0) == Caller::Service);
    Ok(())
}
