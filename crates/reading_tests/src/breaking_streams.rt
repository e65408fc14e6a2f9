//! Readers and writers that break at a call, or do less than they are asked.
use super::played::{played, run_in};
use modes::{Fault, Mode};
use script_support::broken::{Parts, Taken, calls_of};
use script_support::short::long_script;
use std::process::Abort;
use std::test::Fail;

const SCRIPT: &str =
    "vfs 8 65536\n@pools\n@receiver 3\nwire 0200000000030200000000990800.00*46\nmr 3 0x1000 16\nr 3 VFGPRC\nr 3 RDH0\n";

// Each mode, those for one function with the function that the script gives a frame to.
const MODES: [Mode; 3] = [Mode::Run, Mode::Keep(3), Mode::Lone(3)];

// Whether a call among these fails, and what is told then.
fn told(fails_at: usize, calls: usize) -> (bool, Result<(), Fault>) {
    if fails_at < calls {
        (true, Err(Fault::Io))
    } else {
        (false, Ok(()))
    }
}

// A reader that fails at each of its calls in turn, and then at none: nothing is written, or all.
fn check_reader(rt: &(impl Abort + AllocGlobal), mode: Mode, script: &[u8]) {
    let (_, output) = run_in(rt.alloc(), mode, script);
    let calls = calls_of(script.len());
    for fails_at in 0..calls.saturating_add(2) {
        let (fails, due) = told(fails_at, calls);
        let mut reader = Parts::new(script, fails_at);
        let mut written = Vec::new(rt.alloc());
        let result = played(rt.alloc(), mode, &mut reader, &mut written);
        let is_due = if fails {
            written.is_empty()
        } else {
            written.as_slice() == output.as_slice()
        };
        assert_eq!(rt; (result, is_due), (due, true), "{mode:?} at {fails_at}");
    }
}

#[test]
fn a_reader_that_fails_is_told(rt: HostRuntime) -> Result<(), Fail> {
    let script = long_script(rt.alloc(), SCRIPT)?;
    for mode in MODES {
        check_reader(&rt, mode, script.as_bytes());
    }
    Ok(())
}

// Readers that do less than they are asked, and what came of them: byte by byte with each call broken off first, and one whose
// second call would fail, had the first not brought a bad line.
#[test]
fn a_reader_in_parts_is_read_whole(rt: HostRuntime) -> Result<(), Fail> {
    let script = long_script(rt.alloc(), SCRIPT)?;
    let (_, output) = run_in(rt.alloc(), Mode::Run, script.as_bytes());
    let interrupted = Parts {
        rest: script.as_bytes(),
        part: 1,
        calls: 0,
        fails_at: usize::MAX,
        is_interrupted: true,
    };
    let stopped = Parts {
        rest: b"vfs 1 4096\nx\nopen 0\n",
        part: 13,
        calls: 0,
        fails_at: 1,
        is_interrupted: false,
    };
    let bad: &[u8] = b"";
    for (mut reader, due, text) in [
        (interrupted, Ok(()), output.as_slice()),
        (stopped, Err(Fault::BadScript(2)), bad),
    ] {
        let mut written = Vec::new(rt.alloc());
        let result = played(rt.alloc(), Mode::Run, &mut reader, &mut written);
        assert_eq!(rt; (result, written.as_slice() == text), (due, true));
    }
    Ok(())
}

// A writer that fails at each of its calls in turn, and then at none: it has a beginning of the output, or all.
fn check_writer(rt: &(impl Abort + AllocGlobal), mode: Mode, script: &[u8]) {
    let (_, output) = run_in(rt.alloc(), mode, script);
    let calls = calls_of(output.len());
    for fails_at in 0..calls.saturating_add(2) {
        let (fails, due) = told(fails_at, calls);
        let mut reader = script;
        let mut writer = Taken::new(Vec::new(rt.alloc()), fails_at);
        let result = played(rt.alloc(), mode, &mut reader, &mut writer);
        let taken = writer.bytes.as_slice();
        let is_due = if fails {
            output.as_slice().starts_with(taken)
        } else {
            taken == output.as_slice()
        };
        assert_eq!(rt; (result, is_due), (due, true), "{mode:?} at {fails_at}");
    }
}

#[test]
fn a_writer_that_fails_has_a_beginning(rt: HostRuntime) -> Result<(), Fail> {
    let script = long_script(rt.alloc(), SCRIPT)?;
    for mode in MODES {
        check_writer(&rt, mode, script.as_bytes());
    }
    Ok(())
}
