//! Values from outside: rings as drivers lay them out, with the limits of the 82599's registers.
use crate::compare::assert_equal;
use rings::*;

// A ring of 8 descriptors at 0x1000 with this head and tail, turned on in a memory of 64 KiB.
fn ring_of_eight(head: u32, tail: u32) -> Ring {
    let mut ring = Ring::new();
    ring.write(RingRegister::BaseLow, 0x1000);
    ring.write(RingRegister::Length, 128);
    ring.write(RingRegister::Head, head);
    ring.write(RingRegister::Tail, tail);
    ring.switch(true, true, 65_536);
    ring
}

#[test]
fn goes_round(rt: HostRuntime) {
    let mut ring = ring_of_eight(7, 1);
    assert!(rt; ring.is_enabled());
    assert_eq!(rt; ring.available(), 2);
    assert_equal(&rt, ring.slot(0), 0x1070);
    assert_equal(&rt, ring.slot(1), 0x1000);
    assert_equal(&rt, ring.head_slot(), Some(0x1070));
    ring.advance(2);
    assert_equal(&rt, ring.read(RingRegister::Head), 1);
    assert_equal(&rt, ring.available(), 0);
    assert_equal(&rt, ring.head_slot(), None);
    ring.disable();
    ring.set_tail(5);
    assert_equal(&rt, ring.read(RingRegister::Tail), 5);
    assert_equal(&rt, ring.available(), 0);
}

#[test]
fn goes_on_only_where_it_is_valid(rt: HostRuntime) {
    for (base, length, head, tail, size, goes_on) in [
        (0x1000, 128, 0, 0, 65_536, true),
        (0x1000, 0, 0, 0, 65_536, false),
        (0x1000, 128, 8, 0, 65_536, false),
        (0x1000, 128, 0, 8, 65_536, false),
        (0xFF80, 128, 7, 7, 65_536, true),
        (0x1_0000, 128, 0, 0, 65_536, false),
        (0, 65_536, 4095, 4095, 131_072, true),
        (0, 65_664, 0, 0, 131_072, false),
    ] {
        let mut ring = Ring::new();
        ring.write(RingRegister::BaseLow, base);
        ring.write(RingRegister::Length, length);
        ring.write(RingRegister::Head, head);
        ring.write(RingRegister::Tail, tail);
        assert_eq!(rt; ring.try_enable(size), goes_on, "{length} bytes at {base}");
    }
    // The base is the two halves together.
    let mut ring = Ring::default();
    ring.write(RingRegister::BaseLow, 0xFFFF_FF80);
    ring.write(RingRegister::BaseHigh, 0xFFFF_FFFF);
    ring.write(RingRegister::Length, 128);
    assert!(rt; !ring.try_enable(65_536));
}
