//! What a driver has done with a queue since the last look, and the order in which it is said.
use crate::compare::assert_equal_at;
use std::process::Abort;
use transmit_page::{Changes, RingWords, TransmitRegister, TransmitWrite, changes_between};

// ENABLE of TXDCTL, and the bit by which a driver asks for a flush, which the card has not.
const ON: u32 = 0x200_0000;

const FLUSH: u32 = 0x400_0000;

fn ring(base: u32, length: u32, head: u32, control: u32, tail: u32) -> RingWords {
    RingWords {
        base_low: base,
        length,
        head,
        control,
        tail,
        ..RingWords::zeros()
    }
}

fn base(value: u32) -> TransmitWrite {
    TransmitWrite {
        register: TransmitRegister::BaseLow,
        value,
    }
}

fn length(value: u32) -> TransmitWrite {
    TransmitWrite {
        register: TransmitRegister::Length,
        value,
    }
}

fn head(value: u32) -> TransmitWrite {
    TransmitWrite {
        register: TransmitRegister::Head,
        value,
    }
}

fn control(value: u32) -> TransmitWrite {
    TransmitWrite {
        register: TransmitRegister::Control,
        value,
    }
}

fn tail(value: u32) -> TransmitWrite {
    TransmitWrite {
        register: TransmitRegister::Tail,
        value,
    }
}

// A row: what was done, the words before and after, and what is said.
type Row<'a> = (&'a str, RingWords, RingWords, &'a [TransmitWrite]);

fn check(rt: &impl Abort, rows: &[Row<'_>]) {
    for (what, was, now, due) in rows {
        let changes = changes_between(was, now);
        assert_equal_at(rt, changes.as_slice() == *due, true, *what);
    }
}

/// A queue that stays as it is, is set up, or moves its tail.
#[test]
fn words_of_a_queue_that_stays_or_comes_on(rt: HostRuntime) {
    let off = ring(0, 0, 0, 0, 0);
    let on = ring(0x1000, 128, 3, ON, 5);
    check(
        &rt,
        &[
            ("nothing", on, on, &[]),
            ("a tail", on, ring(0x1000, 128, 3, ON, 6), &[tail(6)]),
            (
                "a ring is set, and not on yet",
                off,
                ring(0x1000, 128, 0, 0, 0),
                &[base(0x1000), length(128)],
            ),
            (
                "a ring is set, turned on, and has frames",
                off,
                ring(0x1000, 128, 0, ON, 2),
                &[base(0x1000), length(128), tail(2), control(ON), tail(2)],
            ),
            (
                "a threshold of a queue that stays on",
                on,
                ring(0x1000, 128, 3, ON | 8, 5),
                &[control(ON | 8)],
            ),
        ],
    );
}

/// A queue that goes off, or was off in between.
#[test]
fn words_of_a_queue_that_goes_off(rt: HostRuntime) {
    let on = ring(0x1000, 128, 3, ON, 5);
    check(
        &rt,
        &[
            (
                "it is turned off",
                on,
                ring(0x1000, 128, 3, FLUSH, 5),
                &[control(FLUSH)],
            ),
            (
                "it is turned off, with a tail before",
                on,
                ring(0x1000, 128, 3, 0, 7),
                &[control(0), tail(7)],
            ),
            (
                "another ring, which is on: it was off meanwhile",
                on,
                ring(0x2000, 128, 0, ON, 0),
                &[
                    control(0),
                    base(0x2000),
                    head(0),
                    tail(0),
                    control(ON),
                    tail(0),
                ],
            ),
        ],
    );
}

/// However a guest writes, a look says ten writes of a queue at most: as many as there are where all words have changed of a queue that is on.
#[test]
fn a_look_says_few_words(rt: HostRuntime) {
    let all = |word: u32, control: u32| RingWords {
        base_low: word,
        base_high: word,
        length: word,
        head: word,
        write_back_low: word,
        write_back_high: word,
        control,
        tail: word,
    };
    for (was, now, due) in [
        (0, 0, 7),
        (0, ON, 9),
        (ON, 0, 8),
        (ON, ON, Changes::MOST),
        (ON, ON | 1, 10),
        (1, 2, 8),
    ] {
        let changes = changes_between(&all(1, was), &all(2, now));
        assert_equal_at(&rt, changes.as_slice().len(), due, (was, now));
    }
}
