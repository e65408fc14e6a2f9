//! Readers and writers that break at a call, under threads.
use super::played::{SCRIPT, run_threads};
use modes::Fault;
use modes::threads::drive_threads;
use script_support::broken::{Parts, Taken, calls_of};
use script_support::short::long_script;
use std::process::Abort;
use std::sync::Wait;
use std::test::Fail;
use std::thread::Threads;

// Whether a call among these fails, and what is told then.
fn told(fails_at: usize, calls: usize) -> (bool, Result<(), Fault>) {
    if fails_at < calls {
        (true, Err(Fault::Io))
    } else {
        (false, Ok(()))
    }
}

// A reader that fails at the call of that number, or at none where there are fewer: nothing is written, or all.
fn check_reader<R: Abort + Threads + Wait + Copy + Send + AllocGlobal + 'static>(
    rt: R,
    script: &[u8],
    output: &[u8],
    fails_at: usize,
) {
    let (fails, due) = told(fails_at, calls_of(script.len()));
    let mut reader = Parts::new(script, fails_at);
    let mut written = Vec::new(rt.alloc());
    let result = drive_threads(rt, rt.alloc(), &mut reader, &mut written);
    let is_due = if fails {
        written.is_empty()
    } else {
        written.as_slice() == output
    };
    assert_eq!(rt; (result, is_due), (due, true), "at {fails_at}");
}

#[test]
fn a_reader_that_fails_in_threads(rt: HostRuntime) -> Result<(), Fail> {
    let script = long_script(rt.alloc(), SCRIPT)?;
    let (_, output) = run_threads(rt, script.as_bytes());
    for fails_at in 0..calls_of(script.len()).saturating_add(2) {
        check_reader(rt, script.as_bytes(), output.as_slice(), fails_at);
    }
    Ok(())
}

// A writer that fails at the call of that number, or at none where there are fewer: it has a beginning of the output, or all.
fn check_writer<R: Abort + Threads + Wait + Copy + Send + AllocGlobal + 'static>(
    rt: R,
    script: &[u8],
    output: &[u8],
    fails_at: usize,
) {
    let (fails, due) = told(fails_at, calls_of(output.len()));
    let mut reader = script;
    let mut writer = Taken::new(Vec::new(rt.alloc()), fails_at);
    let result = drive_threads(rt, rt.alloc(), &mut reader, &mut writer);
    let taken = writer.bytes.as_slice();
    let is_due = if fails {
        output.starts_with(taken)
    } else {
        taken == output
    };
    assert_eq!(rt; (result, is_due), (due, true), "at {fails_at}");
}

#[test]
fn a_writer_that_fails_in_threads(rt: HostRuntime) -> Result<(), Fail> {
    let script = long_script(rt.alloc(), SCRIPT)?;
    let (_, output) = run_threads(rt, script.as_bytes());
    for fails_at in 0..calls_of(output.len()).saturating_add(2) {
        check_writer(rt, script.as_bytes(), output.as_slice(), fails_at);
    }
    Ok(())
}
