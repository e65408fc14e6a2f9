//! Beginnings of a script.
use super::played::run;
use modes::Fault;
use script_support::short::long_script;
use std::process::Abort;
use std::test::Fail;

const SCRIPT: &str =
    "vfs 6 32768\n@pools\n@receiver 3\n@receiver 5\npw PFDTXGSWC 1\n@send 5 0200000000030200000000990800.00*46 3c00302900000000\nmr 3 0x1000 16\n";

// How many bytes the first lines have.
fn bytes_of_lines(text: &[u8], lines: usize) -> usize {
    let mut bytes = 0usize;
    for line in text.split(|b| *b == b'\n').take(lines) {
        bytes = bytes.saturating_add(line.len()).saturating_add(1);
    }
    bytes.min(text.len())
}

// A script that is cut after so many bytes, in that line. Where the beginning ends a line, the events of its lines are done, and
// else it is refused at the line that it cuts, unless what is left of that is a line.
fn check_beginning(
    rt: &(impl Abort + AllocGlobal),
    beginning: &[u8],
    ends_line: bool,
    line: u32,
    output: &[u8],
) {
    let (result, written) = run(rt.alloc(), beginning);
    let is_due = match result {
        Ok(()) if ends_line => {
            let kept = bytes_of_lines(output, line.saturating_sub(1) as usize);
            output.starts_with(written.as_slice()) && written.len() == kept
        }
        Ok(()) => true,
        Err(fault) => { !ends_line && fault == Fault::BadScript(line.max(1)) && written.is_empty() }
    };
    assert!(rt; is_due, "cut at {}", beginning.len());
}

#[test]
fn a_beginning_is_done_or_refused(rt: HostRuntime) -> Result<(), Fail> {
    let script = long_script(rt.alloc(), SCRIPT)?;
    let script = script.as_bytes();
    let (result, output) = run(rt.alloc(), script);
    assert_eq!(rt; result, Ok(()));
    // the lines that have ended, and whether the beginning ends with one
    let mut lines = 0u32;
    let mut is_cut = true;
    for (at, next) in script.iter().enumerate() {
        let cut = if is_cut {
            lines.saturating_add(1)
        } else {
            lines
        };
        let ends_line = !is_cut || *next == b'\n';
        check_beginning(&rt, &script[..at], ends_line, cut, output.as_slice());
        is_cut = *next != b'\n';
        if !is_cut {
            lines = lines.saturating_add(1);
        }
    }
    Ok(())
}
