//! The limits on lines and events, and lines that lie across two reads.
use super::played::run;
use modes::Fault;
use script_support::short::long_script;
use std::test::Fail;

// Scripts in their short form, what is told, and how the output begins and ends.
static LIMITS: [(&str, Result<(), Fault>, &str, &str); 14] = [
    // lines: one is the device's, and the line past the last LF is there where a byte stands in it
    ("vfs 1 4096\n{\n*99999}", Ok(()), "", ""),
    (
        "vfs 1 4096\n{\n*99999}#",
        Err(Fault::BadScript(100_001)),
        "",
        "",
    ),
    (
        "vfs 1 4096\n{\n*100000}",
        Err(Fault::BadScript(100_001)),
        "",
        "",
    ),
    (
        "vfs 1 4096\n{\n*100500}",
        Err(Fault::BadScript(100_001)),
        "",
        "",
    ),
    // bytes of a line
    ("{#*40000}\nvfs 1 4096\n", Ok(()), "", ""),
    ("{#*40001}\nvfs 1 4096\n", Err(Fault::BadScript(1)), "", ""),
    ("{ *40001}\nvfs 1 4096\n", Err(Fault::BadScript(1)), "", ""),
    ("vfs 1 4096\n{#*40000}", Ok(()), "", ""),
    ("vfs 1 4096\n{#*40001}", Err(Fault::BadScript(2)), "", ""),
    ("vfs 1 4096\n{#*400000}", Err(Fault::BadScript(2)), "", ""),
    ("vfs 1 4096{ *39990}\n", Ok(()), "", ""),
    ("vfs 1 4096{ *39991}\n", Err(Fault::BadScript(1)), "", ""),
    // events
    (
        "vfs 1 4096\ngo\n{open 0\n*60000}",
        Ok(()),
        "1 ok\n2 refused 7\n3 refused 7\n",
        "\n59999 refused 7\n60000 refused 7\n",
    ),
    (
        "vfs 1 4096\ngo\n{open 0\n*60001}",
        Err(Fault::BadScript(60_003)),
        "",
        "",
    ),
];

// Whether an output begins and ends as is due, and is there only where something is.
fn is_between(written: &[u8], begins: &str, ends: &str) -> bool {
    written.starts_with(begins.as_bytes())
        && written.ends_with(ends.as_bytes())
        && written.is_empty() == begins.is_empty()
}

#[test]
fn lines_and_events_are_limited(rt: HostRuntime) -> Result<(), Fail> {
    for (at, (script, told, begins, ends)) in LIMITS.iter().enumerate() {
        let script = long_script(rt.alloc(), *script)?;
        let (result, written) = run(rt.alloc(), script.as_bytes());
        let is_due = is_between(written.as_slice(), *begins, *ends);
        assert_eq!(rt; (result, is_due), (*told, true), "row {at}");
    }
    Ok(())
}

#[test]
fn long_lines_lie_across_reads(rt: HostRuntime) -> Result<(), Fail> {
    // each line has 4,107 bytes, which divides no block
    let line = long_script(rt.alloc(), "mw 0 2048 {5a*2048}\n")?;
    let mut script = String::from_str(rt.alloc(), "vfs 1 4096\nopen 0\n")?;
    for _ in 0..500 {
        script.push_str(line.as_str())?;
    }
    script.push_str("mr 0 4094 2\nmr 0 2046 4")?;
    let (result, written) = run(rt.alloc(), script.as_bytes());
    let ends = "\n501 ok\n502 bytes 5a5a\n503 bytes 00005a5a\n";
    let is_due = is_between(written.as_slice(), "1 ok\n2 ok\n", ends);
    assert_eq!(rt; (result, is_due), (Ok(()), true));
    Ok(())
}
