//! The frames that went to the wire.
use super::check::{assert_written, run_in};
use modes::Mode;
use script_support::registers::{ENABLE, TDBAL0, TDLEN0, TDT0, TXDCTL0};
use script_support::short::{long_script, push_writes};
use std::alloc::Global;
use std::test::Fail;

// What the frame of a number and its line end with.
const REST: &str =
    "00000000000000000000000000000000000000000000000000000000000000000000000000000000000000000000";

// How many frames the script sends, one more than are kept.
const FRAMES: u32 = 1025;

// A ring of eight descriptors, which stands where it says.
const RING: u32 = 0x2000;

const SENDER: [(u32, u32); 3] = [(TDBAL0, RING), (TDLEN0, 8 * 16), (TXDCTL0, ENABLE)];

// The script: function 5 is opened and sends frames of these numbers. Its descriptors are written anew for each eight frames.
fn script(alloc: Global) -> Result<String, Fail> {
    let mut script = long_script(alloc, "vfs 8 65536\n@pools\nopen 5\n")?;
    push_writes(&mut script, 5, &SENDER)?;
    for number in 0..FRAMES {
        if number % 8 == 0 {
            write!(script, "mw 5 0x{RING:x} ")?;
            for _ in 0..7 {
                script.push_str("0060000000000000.3c00302900000000.")?;
            }
            script.push_str("0060000000000000.3c00302900000000\n")?;
        }
        let (kind, tail) = (0x1000 + number, (number + 1) % 8);
        writeln!(
            script,
            "mw 5 0x6000 020000000004020000000099{kind:04x}.00*46"
        )?;
        push_writes(&mut script, 5, &[(TDT0, tail)])?;
        writeln!(script, "serve 5 0")?;
    }
    Ok(script)
}

// Its output: a reply to each event, and all frames but the first.
fn output(alloc: Global) -> Result<String, Fail> {
    let mut output = String::from_str(alloc, "1 ok\n2 ok\n3 ok\n4 ok\n5 ok\n6 ok\n")?;
    let mut event = 6u32;
    for number in 0..FRAMES {
        let replies = if number % 8 == 0 { 4 } else { 3 };
        for _ in 1..replies {
            event = event.wrapping_add(1);
            writeln!(output, "{event} ok")?;
        }
        event = event.wrapping_add(1);
        writeln!(output, "{event} sent")?;
    }
    for number in 1..FRAMES {
        let kind = 0x1000 + number;
        writeln!(output, "out 020000000004020000000099{kind:04x}{REST}")?;
    }
    Ok(output)
}

#[test]
fn the_last_1024_frames_are_written(rt: HostRuntime) -> Result<(), Fail> {
    let (script, output) = (script(rt.alloc())?, output(rt.alloc())?);
    let run = run_in(rt.alloc(), Mode::Run, script.as_str());
    assert_written(&rt, run, output.as_str(), (Mode::Run, "many frames"));
    Ok(())
}
