ghost use Rattle.std.specs.Prelude.{◌≤◌};

use super::*;
use crate::compare::assert_equal;
use script_support::registers::TDT0;

// How long a frame is, by its number: every third is as long as can be.
fn len_of(number: u16) -> u16
    ensures { result ≤ 9018 }
{
    if number.is_multiple_of(3) { 9018 } else { 1518 }
}

// The bytes of the frame of a number, and others behind them.
fn bytes_of(number: u16) -> Result<[u8; 9018], Fail> {
    let mut bytes = [0xA5; 9018];
    bytes[..60].copy_from_slice(&start_of(number)?);
    Ok(bytes)
}

// The first bytes of the frame of a number.
fn start_of(number: u16) -> Result<[u8; 60], Fail> {
    let frame = frame_to(4, number)?;
    let bytes = frame.bytes();
    if bytes.len() != 60 {
        return Err("a frame of 60 bytes".into());
    }
    let mut start = [0; 60];
    start.copy_from_slice(bytes);
    Ok(start)
}

// Sends the frame of a number, whose bytes but for the first stand at 0x6000.
fn send_long<R: Abort, M: GuestMem>(
    rt: &R,
    device: &mut Device<M>,
    number: u16,
) -> Result<(), Fail> {
    let start = MemBytes::from_bytes(&start_of(number)?)?;
    do_silently(rt, device, &Event::MemWrite(3, 0x6000, start));
    let len = len_of(number);
    let (low, high) = ((len % 256) as u8, (len / 256) as u8);
    let descriptor = [0, 0x60, 0, 0, 0, 0, 0, 0, low, high, 0x30, 0x21, 0, 0, 0, 0];
    let descriptor = MemBytes::from_bytes(&descriptor)?;
    let slot = number % 8;
    let place = 0x2000 + 16 * u64::from(slot);
    do_silently(rt, device, &Event::MemWrite(3, place, descriptor));
    let tail = u32::from((slot + 1) % 8);
    do_silently(rt, device, &Event::VfWrite(3, TDT0, tail));
    let answer = device.step(&Event::Serve(3, Queue::Q0));
    assert!(rt; answer.reply.is_sent());
    Ok(())
}

// A short frame comes into the slot of a long one, and a long one into that of a short one.
#[test]
fn frames_of_1518_and_of_9018_bytes_leave(rt: HostRuntime) -> Result<(), Fail> {
    let memories = memories(rt.alloc(), 8, 65536)?;
    let mut device = Device::with_limit(rt.alloc(), memories, 9018)?;
    set_up(&rt, &mut device)?;
    for (offset, value) in TRANSMIT {
        do_silently(&rt, &mut device, &Event::VfWrite(3, offset, value));
    }
    let page = MemBytes::from_bytes(&[0xA5; 2048])?;
    for index in 0..5u64 {
        let place = 0x6000 + 2048 * index;
        do_silently(&rt, &mut device, &Event::MemWrite(3, place, page.copy()));
    }
    for number in 0..1028 {
        send_long(&rt, &mut device, number)?;
    }
    assert_equal(&rt, device.wire_len(), 1024);
    let mut room = FrameBuf::blank();
    for (index, number) in [
        (0, 4u16),
        (1, 5),
        (2, 6),
        (1020, 1024),
        (1021, 1025),
        (1022, 1026),
        (1023, 1027),
    ] {
        let due = bytes_of(number)?;
        match device.wire_at(index, &mut room) {
            Some(frame) => assert_equal(&rt, frame.bytes(), &due[..usize::from(len_of(number))]),
            None => assert!(rt; false),
        }
    }
    Ok(())
}
