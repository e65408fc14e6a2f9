use super::frames::send;
use super::*;
use crate::compare::assert_equal;
use local_switch::Source;
use script_support::registers::{PF_VT_CTL, PFDTXGSWC, PFVFSPOOF, TDT0};
use wire_frame::PoolId;

// How many frames nobody got that came from the wire, and how many that function 3 sent.
fn unclaimed<M: GuestMem>(device: &Device<M>) -> (u32, Option<u32>) {
    let sent = PoolId::new(3).map(|pool| device.unclaimed(Source::Pool(pool)));
    (device.unclaimed(Source::Wire), sent)
}

// A device of eight functions, whose function 3 may receive and send.
fn sender<R: Abort>(rt: &R, alloc: Global) -> Result<Device<FlatMem>, Fail> {
    let mut device = Device::new(alloc, memories(alloc, 8, 65536)?)?;
    set_up(rt, &mut device)?;
    for (offset, value) in TRANSMIT {
        do_silently(rt, &mut device, &Event::VfWrite(3, offset, value));
    }
    Ok(device)
}

#[test]
fn frames_from_the_wire_that_nobody_gets_are_counted(rt: HostRuntime) -> Result<(), Fail> {
    let mut device = sender(&rt, rt.alloc())?;
    assert_equal(&rt, unclaimed(&device), (0, Some(0)));
    // function 3 gets this one
    assert_equal(&rt, device.wire(frame_to(3, 0)?.as_frame()).is_ok(), true);
    assert_equal(&rt, unclaimed(&device), (0, Some(0)));
    // nobody has the address, and there is no default pool
    do_silently(&rt, &mut device, &Event::PfWrite(PF_VT_CTL, 1 << 29));
    assert_equal(&rt, device.wire(frame_to(9, 1)?.as_frame()).is_ok(), true);
    assert_equal(&rt, unclaimed(&device), (1, Some(0)));
    // the default pool would get it, and may not receive
    do_silently(&rt, &mut device, &Event::PfWrite(PF_VT_CTL, 0));
    do_silently(&rt, &mut device, &Event::PfWrite(PFVFRE, 0xFE));
    assert_equal(&rt, device.wire(frame_to(9, 2)?.as_frame()).is_ok(), true);
    assert_equal(&rt, unclaimed(&device), (2, Some(0)));
    do_silently(&rt, &mut device, &Event::PfWrite(PFVFRE, 0xFF));
    assert_equal(&rt, device.wire(frame_to(9, 3)?.as_frame()).is_ok(), true);
    assert_equal(&rt, unclaimed(&device), (2, Some(0)));
    device.reset();
    assert_equal(&rt, unclaimed(&device), (2, Some(0)));
    Ok(())
}

#[test]
fn frames_of_a_pool_that_nobody_gets_are_counted(rt: HostRuntime) -> Result<(), Fail> {
    let mut device = sender(&rt, rt.alloc())?;
    // it leaves, without loopback and with it
    assert!(rt; send(&rt, &mut device, 0)?.reply.is_sent());
    do_silently(&rt, &mut device, &Event::PfWrite(PFDTXGSWC, 1));
    assert!(rt; send(&rt, &mut device, 1)?.reply.is_sent());
    assert_equal(
        &rt,
        (device.wire_len(), unclaimed(&device)),
        (2, (0, Some(0))),
    );
    // pool 4 has the address, and may not receive
    for (offset, value) in [
        (RAL + 8 * 4, 0x2),
        (RAH + 8 * 4, VALID | 0x400),
        (MPSAR + 8 * 4, 0x10),
        (PFVFRE, 0xEF),
    ] {
        do_silently(&rt, &mut device, &Event::PfWrite(offset, value));
    }
    assert!(rt; send(&rt, &mut device, 2)?.reply.is_sent());
    assert_equal(
        &rt,
        (device.wire_len(), unclaimed(&device)),
        (2, (0, Some(1))),
    );
    // now it may
    do_silently(&rt, &mut device, &Event::PfWrite(PFVFRE, 0xFF));
    assert!(rt; send(&rt, &mut device, 3)?.reply.is_sent());
    assert_equal(
        &rt,
        (device.wire_len(), unclaimed(&device)),
        (2, (0, Some(1))),
    );
    Ok(())
}

#[test]
fn a_function_counts_what_came_and_what_was_lost(rt: HostRuntime) -> Result<(), Fail> {
    let mut device = sender(&rt, rt.alloc())?;
    // there is one receive descriptor
    for number in 0..3 {
        assert_equal(
            &rt,
            device.wire(frame_to(3, number)?.as_frame()).is_ok(),
            true,
        );
    }
    assert!(rt; send(&rt, &mut device, 0)?.reply.is_sent());
    // the check refuses its source
    do_silently(&rt, &mut device, &Event::PfWrite(PFVFSPOOF, 0x8));
    let descriptor = [0, 0x60, 0, 0, 0, 0, 0, 0, 60, 0, 0x30, 0x21, 0, 0, 0, 0];
    let descriptor = MemBytes::from_bytes(&descriptor)?;
    do_silently(&rt, &mut device, &Event::MemWrite(3, 0x2010, descriptor));
    do_silently(&rt, &mut device, &Event::VfWrite(3, TDT0, 2));
    let reply = device.step(&Event::Serve(3, Queue::Q0)).reply;
    assert_equal(&rt, reply, Reply::Dropped);
    if device.functions() == 8 {
        let counts = device.counts(3);
        assert_equal(&rt, (counts.received, counts.no_room), (1, 2));
        assert_equal(&rt, (counts.sent, counts.refused, counts.faults), (1, 1, 0));
    }
    Ok(())
}
