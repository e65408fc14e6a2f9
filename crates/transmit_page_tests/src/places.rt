//! Where the registers stand (82599 datasheet, 8.3: device registers of a virtual function), and which of them go back into the page.
use crate::compare::assert_equal_at;
use transmit_page::{
    RingWords, TransmitRegister, is_put_back, may_service_change, offset_of, register_at,
};

/// Each register of both queues, and what stands between them.
#[test]
fn registers_stand_where_the_datasheet_says(rt: HostRuntime) {
    for (register, first, second) in [
        (TransmitRegister::BaseLow, 0x2000, 0x2040),
        (TransmitRegister::BaseHigh, 0x2004, 0x2044),
        (TransmitRegister::Length, 0x2008, 0x2048),
        (TransmitRegister::Head, 0x2010, 0x2050),
        (TransmitRegister::Tail, 0x2018, 0x2058),
        (TransmitRegister::Control, 0x2028, 0x2068),
        (TransmitRegister::WriteBackLow, 0x2038, 0x2078),
        (TransmitRegister::WriteBackHigh, 0x203C, 0x207C),
    ] {
        let places = (offset_of(0, register), offset_of(1, register));
        assert_equal_at(&rt, places, (first, second), register);
        let found = (register_at(first), register_at(second));
        assert_equal_at(
            &rt,
            found,
            (Some((0, register)), Some((1, register))),
            register,
        );
    }
    for offset in [0, 0x1FFC, 0x200C, 0x2001, 0x201C, 0x2080, 0x2FFC, 0x3000] {
        assert_equal_at(&rt, register_at(offset), None, offset);
    }
}

/// A driver sets the low bits of a base, which no card keeps, and moves its tail: the base goes back, and the tail doesn't. A service changes a
/// queue's head and control where it is on.
#[test]
fn words_go_back(rt: HostRuntime) {
    let was = RingWords::zeros();
    let now = RingWords {
        base_low: 0x181,
        tail: 2,
        ..was
    };
    let on = RingWords {
        control: 0x200_0000,
        ..now
    };
    for (register, said, served) in [
        (TransmitRegister::BaseLow, true, false),
        (TransmitRegister::BaseHigh, false, false),
        (TransmitRegister::Length, false, false),
        (TransmitRegister::Head, false, true),
        (TransmitRegister::WriteBackLow, false, false),
        (TransmitRegister::WriteBackHigh, false, false),
        (TransmitRegister::Control, false, true),
        (TransmitRegister::Tail, false, false),
    ] {
        let goes = (
            is_put_back(register, &was, &now),
            may_service_change(register, &on),
            may_service_change(register, &now),
        );
        assert_equal_at(&rt, goes, (said, served, false), register);
    }
}
