//! Each call by name, once as whoever embeds a device makes it.
use super::*;
use crate::compare::assert_equal;
use device::{MemSlice, Outcome, Response, Room};
use irq_causes::Messages;
use script_support::registers::{
    ENABLE, PFDTXGSWC, PFVFLRE0, PFVFRE, PFVFSPOOF, TDH0, TDT0, TXDCTL0, VFLINKS, VTEICR, VTEICS,
    VTEIMS,
};
use wire_frame::PoolId;

// The vectors that a pool got.
fn to(messages: Messages, pool: u8) -> u8 {
    match PoolId::new(pool) {
        Some(pool) => messages.to(pool).bits(),
        None => 0,
    }
}

// The pools that got messages, a bit for each; None where the call was refused.
fn heard(messages: Result<Messages, Fault>) -> Option<u64> {
    match messages {
        Ok(messages) => Some(messages.pools().bits()),
        Err(_) => None,
    }
}

#[test]
fn open_and_end(rt: HostRuntime) -> Result<(), Fail> {
    let mut device = Device::new(rt.alloc(), memories(rt.alloc(), 2, 65536)?)?;
    assert_equal(&rt, device.end(1), Err(Fault::NotOpen));
    assert_equal(&rt, device.open(1), Ok(()));
    assert_equal(&rt, device.open(1), Err(Fault::AlreadyOpen));
    assert_equal(&rt, device.mem_write(1, 8, MemSlice::new(&[0xAA])?), Ok(()));
    assert_equal(&rt, device.end(1), Ok(()));
    assert_equal(&rt, device.open(2), Err(Fault::NoSuchVf));
    // opened again, nothing of the former tenant is left
    assert_equal(&rt, device.open(1), Ok(()));
    let mut byte = [1];
    assert_equal(&rt, device.mem_read(1, 8, &mut byte), Ok(()));
    assert_equal(&rt, byte, [0]);
    Ok(())
}

#[test]
fn vf_read_and_vf_write(rt: HostRuntime) -> Result<(), Fail> {
    let mut device = Device::new(rt.alloc(), memories(rt.alloc(), 2, 65536)?)?;
    assert_equal(&rt, device.vf_read(1, VFLINKS), Err(Fault::NotOpen));
    assert_equal(&rt, device.open(1), Ok(()));
    // the link is up, and VTEIMS reads what was set
    assert_equal(&rt, device.vf_read(1, VFLINKS), Ok(0x7000_0000));
    assert_equal(&rt, heard(device.vf_write(1, VTEIMS, 7)), Some(0));
    assert_equal(&rt, device.vf_read(1, VTEIMS), Ok(7));
    assert_equal(&rt, device.vf_read(1, 0x101), Err(Fault::BadOffset));
    // a cause that is set issues the message of its vector, to this pool alone
    let messages = device.vf_write(1, VTEICS, 4)?;
    assert_equal(&rt, messages.pools().bits(), 2);
    assert_equal(&rt, to(messages, 1), 4);
    Ok(())
}

#[test]
fn mem_read_and_mem_write(rt: HostRuntime) -> Result<(), Fail> {
    let mut device = Device::new(rt.alloc(), memories(rt.alloc(), 2, 65536)?)?;
    let mut out = [9; 4];
    assert_equal(&rt, device.mem_read(0, 0, &mut out), Err(Fault::NotOpen));
    assert_equal(&rt, out, [9; 4]);
    assert_equal(&rt, device.open(0), Ok(()));
    assert_equal(
        &rt,
        device.mem_write(0, 65532, MemSlice::new(&[1, 2, 3, 4])?),
        Ok(()),
    );
    assert_equal(&rt, device.mem_read(0, 65532, &mut out), Ok(()));
    assert_equal(&rt, out, [1, 2, 3, 4]);
    assert_equal(
        &rt,
        device.mem_read(0, 65533, &mut out),
        Err(Fault::BadRange),
    );
    assert_equal(&rt, out, [1, 2, 3, 4]);
    assert_equal(
        &rt,
        device.mem_read(0, 0, &mut [0; 2049]),
        Err(Fault::TooLong),
    );
    assert_equal(&rt, MemSlice::new(&[0; 2049]).err(), Some(Fault::TooLong));
    Ok(())
}

#[test]
fn pf_read_pf_write_flr_and_reset(rt: HostRuntime) -> Result<(), Fail> {
    let mut device = Device::new(rt.alloc(), memories(rt.alloc(), 2, 65536)?)?;
    assert_equal(&rt, device.pf_write(PFVFRE, 3), Ok(()));
    assert_equal(&rt, device.pf_read(PFVFRE), Ok(3));
    assert_equal(&rt, device.pf_read(0x2_0000), Err(Fault::BadOffset));
    assert_equal(&rt, device.flr(1), Err(Fault::NotOpen));
    assert_equal(&rt, device.open(1), Ok(()));
    assert_equal(&rt, heard(device.vf_write(1, VTEIMS, 7)), Some(0));
    assert_equal(&rt, device.flr(1), Ok(()));
    assert_equal(&rt, device.vf_read(1, VTEIMS), Ok(0));
    assert_equal(&rt, device.pf_read(PFVFLRE0), Ok(2));
    device.reset();
    assert_equal(&rt, device.pf_read(PFVFRE), Ok(0));
    assert_equal(&rt, device.vf_read(1, VTEIMS), Err(Fault::NotOpen));
    Ok(())
}

#[test]
fn wire_tells_who_got_messages(rt: HostRuntime) -> Result<(), Fail> {
    let mut device = Device::new(rt.alloc(), memories(rt.alloc(), 8, 65536)?)?;
    set_up(&rt, &mut device)?;
    let messages = device.wire(frame_to(3, 0)?.as_frame())?;
    assert_equal(&rt, messages.pools().bits(), 8);
    assert_equal(&rt, to(messages, 3), 1);
    // there is one buffer, so a second frame has no room
    assert_equal(&rt, heard(device.wire(frame_to(3, 1)?.as_frame())), Some(0));
    let long = FrameBuf::from_bytes(&[0; 1519])?;
    assert_equal(&rt, heard(device.wire(long.as_frame())), None);
    Ok(())
}

// What comes of the service of function 3. It promises nothing, so what the call promises isn't carried along in what calls it.
fn serve<M: GuestMem>(device: &mut Device<M>, room: &mut Room) -> Response {
    device.serve(3, Queue::Q0, room)
}

// Function 3 sends a frame from slot 0 of its ring: what came of it, and whether it left for the wire.
fn send_one<R: Abort, M: GuestMem>(
    rt: &R,
    device: &mut Device<M>,
    to: u8,
    room: &mut Room,
) -> Result<(Outcome, bool), Fail> {
    let frame = frame_to(to, 7)?;
    assert_equal(
        rt,
        device.mem_write(3, 0x6000, MemSlice::new(frame.bytes())?),
        Ok(()),
    );
    let descriptor = [0, 0x60, 0, 0, 0, 0, 0, 0, 60, 0, 0x30, 0x29, 0, 0, 0, 0];
    assert_equal(
        rt,
        device.mem_write(3, 0x2000, MemSlice::new(&descriptor)?),
        Ok(()),
    );
    for (offset, value) in [
        (TXDCTL0, 0),
        (TDH0, 0),
        (TDT0, 0),
        (TXDCTL0, ENABLE),
        (TDT0, 1),
    ] {
        assert_equal(rt, heard(device.vf_write(3, offset, value)), Some(0));
    }
    // the cause of the former frame stands no more once it is read
    assert!(rt; device.vf_read(3, VTEICR).is_ok());
    let response = serve(device, room);
    assert_equal(rt, response.messages.pools().bits(), 8);
    let is_sent = room.sent(&response).is_some();
    assert_equal(rt, is_sent, response.outcome == Outcome::Sent);
    for there in [room.sent(&response), room.left(&response)] {
        if let Some(there) = there {
            assert_equal(rt, there.bytes(), frame.bytes());
        }
    }
    Ok((response.outcome, room.left(&response).is_some()))
}

// One room serves all these events: a frame of an earlier one is none of theirs.
#[test]
fn serve_hands_out_the_frame_that_left(rt: HostRuntime) -> Result<(), Fail> {
    let mut device = Device::new(rt.alloc(), memories(rt.alloc(), 8, 65536)?)?;
    set_up(&rt, &mut device)?;
    for (offset, value) in TRANSMIT {
        do_silently(&rt, &mut device, &Event::VfWrite(3, offset, value));
    }
    let mut room = Room::new();
    // PFDTXGSWC, PFVFSPOOF, the receiver, and what is due: without loopback each frame leaves; under loopback one for an address that a
    // pool holds stays, and one for another leaves; a frame that the sender's settings don't permit goes nowhere
    for (loopback, spoof, to, due) in [
        (0, 0, 4, (Outcome::Sent, true)),
        (1, 0, 3, (Outcome::Sent, false)),
        (1, 0, 4, (Outcome::Sent, true)),
        (1, 0x8, 4, (Outcome::Dropped, false)),
    ] {
        assert_equal(&rt, device.pf_write(PFDTXGSWC, loopback), Ok(()));
        assert_equal(&rt, device.pf_write(PFVFSPOOF, spoof), Ok(()));
        let came = send_one(&rt, &mut device, to, &mut room)?;
        assert_equal(&rt, came, due);
    }
    assert_equal(&rt, device.wire_len(), 2);
    let idle = serve(&mut device, &mut room);
    assert_equal(&rt, idle.outcome, Outcome::Idle);
    assert!(rt; room.sent(&idle).is_none() && room.left(&idle).is_none());
    Ok(())
}

#[test]
fn limits_and_sizes_are_shown(rt: HostRuntime) -> Result<(), Fail> {
    let device = Device::with_limit(rt.alloc(), memories(rt.alloc(), 2, 65536)?, 9018)?;
    assert_equal(&rt, device.limit().get(), 9018);
    assert_eq!(rt; device.functions(), 2);
    assert_equal(&rt, device.memory_size(1), 65536);
    Ok(())
}
