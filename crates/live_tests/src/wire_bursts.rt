//! Frames from the wire in one call, beside the same frames one after another.

use crate::compare::assert_equal;
use device::{Device, Event, MemSlice};
use guest_memory::FlatMem;
use live_run::wire_burst;
use script_support::registers::{
    ADVANCED, ENABLE, PF_VT_CTL, PFVFRE, RDBAL0, RDH0, RDLEN0, RDT0, RXDCTL0, SRRCTL0, VTEIMS,
    VTIVAR,
};
use std::alloc::Global;
use std::test::Fail;
use wire_frame::{Frame, FrameLimit};

// Where the ring is, and the buffers of its descriptors, 2048 bytes apart.
const RING: u64 = 0x1000;

const BUFFERS: u64 = 0x2000;

// A device of two functions, of which function 0 gets each frame, has so many buffers, and gets vector 1 for each frame.
fn device_to_receive(alloc: Global, count: u8) -> Result<Device<FlatMem>, Fail> {
    let mut memories = Vec::new(alloc);
    memories.push(FlatMem::new(alloc, 65536)?)?;
    memories.push(FlatMem::new(alloc, 65536)?)?;
    let mut device = Device::new(alloc, memories)?;
    device.open(0)?;
    device.open(1)?;
    for number in 0..count {
        let mut descriptor = [0; 16];
        // the buffer's address
        descriptor[1] = 0x20 + 8 * (number % 16);
        let at = RING + 16 * u64::from(number);
        device.mem_write(0, at, MemSlice::new(&descriptor)?)?;
    }
    let events = [
        Event::PfWrite(PF_VT_CTL, 1),
        Event::PfWrite(PFVFRE, 3),
        Event::VfWrite(0, VTIVAR, 0x81),
        Event::VfWrite(0, VTEIMS, 2),
        Event::VfWrite(0, RDBAL0, RING as u32),
        Event::VfWrite(0, RDLEN0, 1024),
        Event::VfWrite(0, SRRCTL0, ADVANCED | 2),
        Event::VfWrite(0, RXDCTL0, ENABLE),
        Event::VfWrite(0, RDT0, u32::from(count)),
    ];
    let _answers = device.run(alloc, &events)?;
    Ok(device)
}

// The head of function 0's ring, the write-backs of four descriptors, and the first and the last byte of four buffers of 60 bytes.
fn seen(device: &mut Device<FlatMem>) -> Result<(u32, [u8; 64], [[u8; 2]; 4]), Fail> {
    let head = device.vf_read(0, RDH0)?;
    let mut ring = [0; 64];
    device.mem_read(0, RING, &mut ring)?;
    let mut ends = [[0; 2]; 4];
    for number in 0..4u8 {
        let mut bytes = [0; 60];
        device.mem_read(0, BUFFERS + 2048 * u64::from(number), &mut bytes)?;
        ends[usize::from(number)] = [bytes[0], bytes[59]];
    }
    Ok((head, ring, ends))
}

// The bytes of frames of these lengths, behind one another, and where each ends. All bytes of a frame are its number.
fn behind_one_another(lengths: &[usize], alloc: Global) -> Result<(Vec<u8>, Vec<usize>), Fail> {
    let mut bytes = Vec::new(alloc);
    let mut ends = Vec::new(alloc);
    let mut number = 1u8;
    for length in lengths {
        for _ in 0..*length {
            bytes.push(number)?;
        }
        ends.push(bytes.len())?;
        number = number.wrapping_add(1);
    }
    Ok((bytes, ends))
}

// One after another, each by a call of its own: how many were taken, and what function 0 was told.
fn one_by_one(device: &mut Device<FlatMem>, lengths: &[usize]) -> (usize, u8) {
    let (mut taken, mut told) = (0usize, 0);
    let mut number = 1u8;
    for length in lengths {
        let bytes = [number; 2000];
        let of_it = bytes.get(..*length).unwrap_or(&[]);
        if let Ok(frame) = Frame::new(of_it, FrameLimit::longest())
            && let Ok(messages) = device.wire(frame)
        {
            taken = taken.wrapping_add(1);
            told |= messages.to_masks()[0];
        }
        number = number.wrapping_add(1);
    }
    (taken, told)
}

// A burst of frames of these lengths has the device as it is after as many calls, and tells the same.
fn is_as_one_by_one(
    alloc: Global,
    buffers: u8,
    lengths: &[usize],
) -> Result<(usize, usize, u8, bool), Fail> {
    let mut burst = device_to_receive(alloc, buffers)?;
    let mut single = device_to_receive(alloc, buffers)?;
    let (bytes, ends) = behind_one_another(lengths, alloc)?;
    let done = wire_burst(&mut burst, &bytes, &ends);
    let told = done.messages.to_masks()[0];
    let is_same = one_by_one(&mut single, lengths) == (done.taken, told)
        && seen(&mut burst)? == seen(&mut single)?;
    Ok((done.taken, done.refused, told, is_same))
}

#[test]
fn a_frame_that_is_too_long_is_passed_over(rt: HostRuntime) -> Result<(), Fail> {
    let alloc = rt.alloc();
    let (bytes, ends) = behind_one_another(&[60, 1519, 60], alloc)?;
    let mut device = device_to_receive(alloc, 3)?;
    let done = wire_burst(&mut device, &bytes, &ends);
    assert_equal(&rt, (done.taken, done.refused), (2, 1));
    assert_equal(
        &rt,
        (done.messages.to_masks()[0], done.messages.to_masks()[1]),
        (2, 0),
    );
    let (head, _, ends) = seen(&mut device)?;
    assert_equal(&rt, (head, ends), (2, [[1, 1], [3, 3], [0, 0], [0, 0]]));
    Ok(())
}

#[test]
fn a_burst_is_its_frames_one_by_one(rt: HostRuntime) -> Result<(), Fail> {
    let alloc = rt.alloc();
    let got = is_as_one_by_one(alloc, 3, &[60, 1519, 60])?;
    assert_equal(&rt, got, (2, 1, 2, true));
    // what is no frame is passed over too, the last one also
    let got = is_as_one_by_one(alloc, 3, &[13, 60, 0, 1518, 60, 13])?;
    assert_equal(&rt, got, (3, 3, 2, true));
    // a frame for which there is no buffer is taken, and lost
    let got = is_as_one_by_one(alloc, 1, &[60, 60, 60])?;
    assert_equal(&rt, got, (3, 0, 2, true));
    let got = is_as_one_by_one(alloc, 3, &[])?;
    assert_equal(&rt, got, (0, 0, 0, true));
    Ok(())
}

// An end that is before its beginning, or past the bytes, is the end of no frame; the next begins there.
#[test]
fn ends_that_are_none(rt: HostRuntime) -> Result<(), Fail> {
    let alloc = rt.alloc();
    let mut device = device_to_receive(alloc, 3)?;
    let bytes = [7; 200];
    let done = wire_burst(&mut device, &bytes, &[60, 20, 201, 0, 90, 200]);
    assert_equal(&rt, (done.taken, done.refused), (3, 3));
    let (head, _, _) = seen(&mut device)?;
    assert_equal(&rt, head, 3);
    Ok(())
}
