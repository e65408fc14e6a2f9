// Each form of a reply, and marks.
use super::run;
use crate::compare::assert_equal;
use device::{MemSlice, Outcome, Request, Response, Room};
use irq_causes::Messages;
use script_support::registers::{PF_VT_CTL, SRRCTL0, VFCTRL, VFLINKS};
use std::test::Fail;
use transcript::{Fault, Output};

// Reads and refusals, each as the device answers it.
#[test]
fn reads_and_refusals(rt: HostRuntime) -> Result<(), Fail> {
    let alloc = rt.alloc();
    let asked = [
        Request::VfRead(8, VFCTRL),
        Request::VfRead(0, VFLINKS),
        Request::Open(0),
        Request::Open(0),
        // past the registers, and in between
        Request::VfRead(0, 0x4000),
        Request::VfRead(0, 0x101),
        Request::MemRead(0, 65535, 2),
        Request::MemRead(0, 0, 2049),
        Request::PfRead(0x20000),
        Request::PfRead(PF_VT_CTL),
        Request::VfRead(0, VFLINKS),
        Request::VfRead(0, SRRCTL0),
        // no bytes at the end of the memory
        Request::MemRead(0, 65536, 0),
        Request::MemWrite(0, 0, MemSlice::new(&[0xAB, 0xCD, 0x0E])?),
        Request::MemRead(0, 0, 4),
    ];
    let wanted =
        "1 refused 1\n2 refused 2\n3 ok\n4 refused 7\n5 refused 3\n6 refused 3\n7 refused 4\n8 refused 5\n\
        9 refused 3\n10 = 0x60000001\n11 = 0x70000000\n12 = 0x10000000\n13 bytes -\n14 ok\n15 bytes abcd0e00\n";
    assert_equal(&rt, run(alloc, &asked)?.as_str(), wanted);
    Ok(())
}

// Outcomes of services with marks of one pool, of the first and the last, and of many vectors.
#[test]
fn services_and_marks(rt: HostRuntime) -> Result<(), Fail> {
    let alloc = rt.alloc();
    let mut output = Output::new(alloc)?;
    let room = Room::new();
    let mut written = Vec::new(alloc);
    for (number, outcome, words) in [
        (1, Outcome::Done, [0, 0, 0]),
        (2, Outcome::Idle, [0, 0, 0]),
        (3, Outcome::More, [0, 1 << 5, 0]),
        (4, Outcome::Dropped, [0, 1 << 2, 0]),
        (5, Outcome::Faulted, [0, 0, 0]),
        (6, Outcome::Sent, [1 | 1 << 63, 1 << 63, 1 << 9 | 1 << 63]),
        (u64::MAX, Outcome::Value(0x0012_ABCD), [0, 0, 0]),
    ] {
        let response = Response {
            outcome,
            messages: Messages::from_words(words),
            left: false,
        };
        output.answer(number, &response, &room, &mut written)?;
    }
    output.frame(&[0; 14], &mut written)?;
    output.finish(&mut written)?;
    let wanted = "1 ok\n2 idle\n3 more !5:2\n4 dropped !2:2\n5 faulted\n6 sent !0:1 !9:4 !63:7\n\
        18446744073709551615 = 0x0012abcd\nout 0000000000000000000000000000\n";
    assert_equal(&rt, String::from_utf8(written)?.as_str(), wanted);
    Ok(())
}

#[test]
fn faults_are_told(rt: HostRuntime) -> Result<(), Fail> {
    let alloc = rt.alloc();
    let text = format!(in alloc; "{}, {}", Fault::Io, Fault::NoMemory)?;
    assert_equal(&rt, text.as_str(), "writing failed, no memory");
    Ok(())
}
