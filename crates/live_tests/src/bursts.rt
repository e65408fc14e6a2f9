//! Bursts of services.

use crate::compare::assert_equal;
use device::{Device, Event, MemSlice, Queue, Room};
use guest_memory::FlatMem;
use live_run::{Frames, serve_burst};
use script_support::registers::{ENABLE, PFVFTE, TDBAL0, TDLEN0, TDT0, TXDCTL0, VTEIMS, VTIVAR};
use std::alloc::Global;
use std::test::Fail;

// Where the ring is, and the frames, 64 bytes apart.
const RING: u64 = 0x1000;

const FRAMES: u64 = 0x2000;

// A descriptor of a frame of 60 bytes, as the datasheet has it: DTYP 3, and the commands EOP, RS and DEXT.
fn descriptor(number: u8) -> [u8; 16] {
    let mut bytes = [0; 16];
    let at = FRAMES + 64 * u64::from(number);
    bytes[0] = (at % 256) as u8;
    bytes[1] = (at / 256 % 256) as u8;
    bytes[8] = 60;
    bytes[10] = 0x30;
    bytes[11] = 0x29;
    bytes
}

// A frame for nobody here, whose last byte tells its number.
fn frame(number: u8) -> [u8; 60] {
    let mut bytes = [0; 60];
    bytes[0] = 2;
    bytes[6] = 2;
    bytes[12] = 8;
    bytes[59] = number;
    bytes
}

// A device whose function 0 has so many frames to send, each of which leaves for the wire and raises vector 1.
fn device_to_serve(alloc: Global, count: u8) -> Result<Device<FlatMem>, Fail> {
    let mut memories = Vec::new(alloc);
    memories.push(FlatMem::new(alloc, 65536)?)?;
    let mut device = Device::new(alloc, memories)?;
    device.open(0)?;
    for number in 0..count {
        let (ring, at) = (
            RING + 16 * u64::from(number),
            FRAMES + 64 * u64::from(number),
        );
        device.mem_write(0, ring, MemSlice::new(&descriptor(number))?)?;
        device.mem_write(0, at, MemSlice::new(&frame(number))?)?;
    }
    let events = [
        Event::PfWrite(PFVFTE, 1),
        Event::VfWrite(0, VTIVAR, 0x8100),
        Event::VfWrite(0, VTEIMS, 2),
        Event::VfWrite(0, TDBAL0, RING as u32),
        Event::VfWrite(0, TDLEN0, 1024),
        Event::VfWrite(0, TXDCTL0, ENABLE),
        Event::VfWrite(0, TDT0, u32::from(count)),
    ];
    let _answers = device.run(alloc, &events)?;
    Ok(device)
}

// How many were taken in a burst of up to `most`, whether the queue may have more, what function 0 was told, and the last bytes of the
// frames.
fn burst(
    device: &mut Device<FlatMem>,
    most: usize,
    frames: &mut Frames,
    alloc: Global,
) -> Result<(usize, bool, u8, Vec<u8>), Fail> {
    let mut room = Room::new();
    let done = serve_burst(device, 0, Queue::Q0, most, frames, &mut room);
    let mut numbers = Vec::new(alloc);
    for number in 0..frames.len() {
        let bytes = frames.frame(number);
        numbers.push(bytes.last().copied().unwrap_or(0xFF))?;
    }
    Ok((
        done.taken,
        done.goes_on,
        done.messages.to_masks()[0],
        numbers,
    ))
}

#[test]
fn a_burst_ends_with_the_queue(rt: HostRuntime) -> Result<(), Fail> {
    let alloc = rt.alloc();
    let mut device = device_to_serve(alloc, 5)?;
    let mut frames = Frames::new(alloc, 64, 65536)?;
    let (taken, goes_on, told, numbers) = burst(&mut device, 64, &mut frames, alloc)?;
    // the sixth finds nothing
    assert_equal(&rt, (taken, goes_on, told), (6, false, 2));
    assert_equal(&rt, numbers.as_slice(), [0, 1, 2, 3, 4].as_slice());
    // and there is nothing more to find
    let (taken, goes_on, told, numbers) = burst(&mut device, 64, &mut frames, alloc)?;
    assert_equal(&rt, (taken, goes_on, told), (1, false, 0));
    assert_equal(&rt, numbers.len(), 5);
    Ok(())
}

#[test]
fn a_burst_ends_with_its_number(rt: HostRuntime) -> Result<(), Fail> {
    let alloc = rt.alloc();
    let mut device = device_to_serve(alloc, 5)?;
    let mut frames = Frames::new(alloc, 64, 65536)?;
    let (taken, goes_on, told, numbers) = burst(&mut device, 2, &mut frames, alloc)?;
    assert_equal(&rt, (taken, goes_on, told), (2, true, 2));
    assert_equal(&rt, numbers.as_slice(), [0, 1].as_slice());
    let (taken, goes_on, told, _) = burst(&mut device, 0, &mut frames, alloc)?;
    assert_equal(&rt, (taken, goes_on, told), (0, true, 0));
    let (taken, goes_on, _, numbers) = burst(&mut device, 64, &mut frames, alloc)?;
    assert_equal(&rt, (taken, goes_on), (4, false));
    assert_equal(&rt, numbers.as_slice(), [0, 1, 2, 3, 4].as_slice());
    Ok(())
}

// There is room for one frame, and then for more once it was handed on.
#[test]
fn a_burst_ends_with_the_room(rt: HostRuntime) -> Result<(), Fail> {
    let alloc = rt.alloc();
    let mut device = device_to_serve(alloc, 5)?;
    let mut one = Frames::new(alloc, 1, 65536)?;
    let (taken, goes_on, _, numbers) = burst(&mut device, 64, &mut one, alloc)?;
    assert_equal(&rt, (taken, goes_on, one.has_room()), (1, true, false));
    assert_equal(&rt, numbers.as_slice(), [0].as_slice());
    one.clear();
    let (taken, goes_on, _, numbers) = burst(&mut device, 64, &mut one, alloc)?;
    assert_equal(&rt, (taken, goes_on), (1, true));
    assert_equal(&rt, numbers.as_slice(), [1].as_slice());
    // 9018 bytes have room for one frame, however short it is
    let mut small = Frames::new(alloc, 64, 9018)?;
    let (taken, goes_on, _, _) = burst(&mut device, 64, &mut small, alloc)?;
    assert_equal(&rt, (taken, goes_on, small.has_room()), (1, true, false));
    let mut none = Frames::new(alloc, 64, 9017)?;
    let (taken, goes_on, _, _) = burst(&mut device, 64, &mut none, alloc)?;
    assert_equal(&rt, (taken, goes_on), (0, true));
    Ok(())
}

// Of a function that isn't there, or is closed, a burst is the one service that is refused.
#[test]
fn a_burst_of_nobody_is_refused(rt: HostRuntime) -> Result<(), Fail> {
    let alloc = rt.alloc();
    let mut device = device_to_serve(alloc, 1)?;
    let mut frames = Frames::new(alloc, 64, 65536)?;
    let mut room = Room::new();
    for pool in [1, 255] {
        let done = serve_burst(&mut device, pool, Queue::Q1, 64, &mut frames, &mut room);
        assert_equal(&rt, (done.taken, done.goes_on), (1, false));
    }
    device.end(0)?;
    let done = serve_burst(&mut device, 0, Queue::Q0, 64, &mut frames, &mut room);
    assert_equal(&rt, (done.taken, done.goes_on, frames.len()), (1, false, 0));
    Ok(())
}
