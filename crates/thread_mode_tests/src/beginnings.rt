//! Beginnings of a script, by threads.
use super::played::{SCRIPT, run_threads};
use modes::drive::drive;
use modes::{Fault, Mode};
use script_support::short::long_script;
use std::alloc::Global;
use std::process::Abort;
use std::sync::Wait;
use std::test::Fail;
use std::thread::Threads;

// What one thread gives and writes.
fn run_alone(alloc: Global, script: &[u8]) -> (Result<(), Fault>, Vec<u8>) {
    let mut written = Vec::new(alloc);
    let mut reader = script;
    let result = drive(alloc, Mode::Run, &mut reader, &mut written);
    (result, written)
}

// How many calls the history of a beginning has: one for each event, which is a line of the output of one thread, and one for
// the end of each of the two ports where the line `go` has ended.
fn calls_of(alone: &[u8], has_ports: bool) -> usize {
    let events = alone.iter().filter(|b| **b == b'\n').count();
    let ends = if has_ports { 2 } else { 0 };
    events.saturating_add(ends)
}

// A beginning of a script is refused where `run` refuses it, and with nothing written. Else all its events are kept.
fn check_beginning<R: Abort + Threads + Wait + Copy + Send + AllocGlobal + 'static>(
    rt: R,
    beginning: &[u8],
    has_ports: bool,
) -> Result<(), Fail> {
    let (alone, answers) = run_alone(rt.alloc(), beginning);
    let (result, written) = run_threads(rt, beginning);
    let is_due = if alone.is_err() {
        written.is_empty()
    } else {
        let calls = calls_of(answers.as_slice(), has_ports);
        let head = format!(in rt.alloc(); "history {calls}\n")?;
        written.as_slice().starts_with(head.as_bytes())
            && written.as_slice().ends_with(b"replay ok\n")
    };
    assert_eq!(rt;
        (result, is_due),
        (alone, true),
        "cut at {}",
        beginning.len()
    );
    Ok(())
}

#[test]
fn every_beginning_in_threads(rt: HostRuntime) -> Result<(), Fail> {
    let script = long_script(rt.alloc(), SCRIPT)?;
    let go = script.as_str().find("\ngo").ok_or("no `go`")?;
    let go_end = go.saturating_add(3);
    for at in 0..script.len() {
        let beginning = script.as_bytes().get(..at).unwrap_or(b"");
        check_beginning(rt, beginning, at >= go_end)?;
    }
    check_beginning(rt, script.as_bytes(), true)
}
