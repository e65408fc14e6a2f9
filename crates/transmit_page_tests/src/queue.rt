//! What the card's own queue makes of the changes.
use crate::compare::assert_equal_at;
use guest_memory::FlatMem;
use std::test::Fail;
use transmit_page::{RingWords, TransmitRegister, changes_between, offset_of};
use vf_unit::VfUnit;

const REGISTERS: [TransmitRegister; 8] = [
    TransmitRegister::BaseLow,
    TransmitRegister::BaseHigh,
    TransmitRegister::Length,
    TransmitRegister::Head,
    TransmitRegister::WriteBackLow,
    TransmitRegister::WriteBackHigh,
    TransmitRegister::Control,
    TransmitRegister::Tail,
];

// Words of a queue: each bit of the number chooses one of two.
fn words(number: u32) -> RingWords {
    RingWords {
        base_low: 0x100 + number % 2 * 0x200,
        base_high: 0,
        length: 128 + number / 2 % 2 * 128,
        head: number / 4 % 2,
        write_back_low: 0,
        write_back_high: 0,
        control: number / 8 % 2 * 0x200_0000,
        tail: number / 16 % 2 * 2,
    }
}

// The changes are written to queue 1.
fn write(unit: &mut VfUnit<FlatMem>, was: &RingWords, now: &RingWords) {
    for change in changes_between(was, now).as_slice() {
        let _ = unit.reg_write(offset_of(1, change.register), change.value);
    }
}

/// Whatever the words of a queue were, and whatever of them changes, the card's queue reads as the page does once the changes were written: its
/// base, length and head are taken, it is on where it is to be on, and its tail is where the driver moved it.
#[test]
fn a_queue_becomes_what_the_page_says(rt: HostRuntime) -> Result<(), Fail> {
    let mut unit = VfUnit::new(rt.alloc(), FlatMem::new(rt.alloc(), 4096)?)?;
    for number in 0..1024 {
        let (was, now) = (words(number % 32), words(number / 32));
        unit.open();
        write(&mut unit, &RingWords::zeros(), &was);
        write(&mut unit, &was, &now);
        for register in REGISTERS {
            let read = unit.reg_read(offset_of(1, register));
            assert_equal_at(&rt, read, Some(now.word(register)), (number, register));
        }
    }
    Ok(())
}
