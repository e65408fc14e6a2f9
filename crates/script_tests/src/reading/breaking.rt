// Readers that break at a call or do less than they are asked.
use super::plain;
use crate::compare::{assert_equal, assert_equal_at};
use script::{Fault, Script};
use script_support::broken::{PART, Parts, calls_of};
use std::test::Fail;

const TEXT: &str =
    "vfs 8 65536\nopen 3\nmw 3 0x1000 0040000000000000\nwire 0200000000030200000000990800.00*46\nend 3\n";

const SAID: &str =
    "vfs 8 65536 1518\nopen 3\nmw 3 4096 00*1.40*1.00*6.\nwire 02*1.00*4.03*1.02*1.00*4.99*1.08*1.00*47.\nend 3\n";

#[test]
fn a_failed_read_is_told(rt: HostRuntime) -> Result<(), Fail> {
    let alloc = rt.alloc();
    let calls = calls_of(TEXT.len());
    for fails_at in 0..calls.saturating_add(2) {
        let mut reader = Parts::new(TEXT.as_bytes(), fails_at);
        match Script::read(alloc, &mut reader) {
            Ok(script) => {
                assert!(rt; fails_at >= calls, "read past call {fails_at}");
                assert_equal(&rt, plain(alloc, &script)?.as_str(), SAID);
            }
            Err(fault) => {
                assert!(rt; fails_at < calls, "no call {fails_at}");
                assert_equal_at(&rt, fault, Fault::Io, fails_at);
            }
        }
    }
    Ok(())
}

#[test]
fn a_read_that_is_broken_off_is_done_again(rt: HostRuntime) -> Result<(), Fail> {
    let alloc = rt.alloc();
    let mut reader = Parts {
        rest: TEXT.as_bytes(),
        part: PART,
        calls: 0,
        fails_at: usize::MAX,
        is_interrupted: true,
    };
    let script = Script::read(alloc, &mut reader)?;
    assert_equal(&rt, plain(alloc, &script)?.as_str(), SAID);
    Ok(())
}
