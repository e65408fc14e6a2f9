//! How many calls the workers of a script make, of which all are kept, some are folded away, or not all have room.
ghost use Rattle.std.specs.Prelude.{◌≡◌};

use crate::stage::{Seen, done, read, setting_of};
use log::sink::Discard;
use std::alloc::Global;
use std::marker::Brand;
use std::sync::ledger::{Blank, Ledger};
use std::sync::{Arc, Wait};
use std::test::Fail;
use std::thread::Threads;
use wire_frame::Fault;
use workers::OpenGate;

// Two guests read their link status, once and twice; a frame comes from the wire, and the driver of the physical function reads.
const TWO_GUESTS: &str = "vfs 2 4096\n\
    open 0\n\
    open 1\n\
    go\n\
    r 0 VFLINKS\n\
    r 1 VFLINKS\n\
    r 1 VFLINKS\n\
    wire 0200000000000200000000990800.00*46\n\
    pr PF_VT_CTL\n";

// How many calls are kept and folded away; none where the callers made other calls. The two events before `go` and the two ends
// are of the service.
fn counts(seen: &Seen) -> Option<(usize, usize)> {
    let mut due = [0; 67];
    due[0] = 1;
    due[1] = 2;
    due[64] = 1;
    due[65] = 1;
    due[66] = 4;
    if seen.shares == 67 && seen.entries.as_slice() == due.as_slice() {
        Some((seen.kept, seen.folded))
    } else {
        None
    }
}

// What is seen of the script, of which `cap` calls are kept at most.
fn seen_of_two<L: Ledger + Send + Sync + 'static, R: Threads + Wait + Copy + Send + 'static>(
    rt: R,
    alloc: Global,
    blank: Blank,
    cap: usize,
    has_twin: bool,
) -> Result<Result<Option<(usize, usize)>, Fault>, Fail>
    requires name { blank.name ≡ L.name }
    requires parts { (blank.parts ≡ L.parts) × (blank.parts ≡ 67) }
{
    let setting = setting_of(alloc, &[0, 1], 2, cap, has_twin)?;
    let script = read(alloc, TWO_GUESTS)?;
    let gate = Arc::new(alloc, OpenGate)?;
    match done::<L, OpenGate, R, Discard>(rt, &Discard, alloc, blank, setting, script, gate) {
        Ok(seen) => Ok(Ok(counts(&seen))),
        Err(fault) => Ok(Err(fault)),
    }
}

// With room for nine calls all are kept. With room for one, and a twin, each call but the first finds the history full and folds it.
// Without a twin it is full before `go`, which two calls come before; after it, where the worker that finds it so ends and the
// others end too; or at the ends of the ports, of which there is room for one.
#[test]
fn calls_are_counted_kept_and_folded(rt: HostRuntime) -> Result<(), Fail> {
    for (cap, has_twin, due) in [
        (9, false, Ok(Some((9, 0)))),
        (1, true, Ok(Some((1, 8)))),
        (1, false, Err(Fault::HistoryFull)),
        (4, false, Err(Fault::HistoryFull)),
        (8, false, Err(Fault::HistoryFull)),
    ] {
        let seen = seen_of_two::<Brand, HostRuntime>(
            rt,
            rt.alloc(),
            Blank::new(67),
            cap,
            has_twin,
        )?;
        assert_eq!(rt; seen, due, "{cap}");
    }
    Ok(())
}

// A script without guests, whose wire brings 100 frames: more than the channel has room for.
fn many_frames(alloc: Global) -> Result<String, Fail> {
    let mut script = String::from_str(alloc, "vfs 1 4096\ngo\n")?;
    for _ in 0..100 {
        script.push_str("wire 0200000000000200000000990800.00*46\n")?;
    }
    Ok(script)
}

// How many calls the pump made, and how many are kept.
fn seen_of_many<L: Ledger + Send + Sync + 'static, R: Threads + Wait + Copy + Send + 'static>(
    rt: R,
    alloc: Global,
    blank: Blank,
    cap: usize,
) -> Result<Result<(u64, usize), Fault>, Fail>
    requires name { blank.name ≡ L.name }
    requires parts { (blank.parts ≡ L.parts) × (blank.parts ≡ 67) }
{
    let setting = setting_of(alloc, &[], 1, cap, false)?;
    let script = read(alloc, many_frames(alloc)?.as_str())?;
    let gate = Arc::new(alloc, OpenGate)?;
    match done::<L, OpenGate, R, Discard>(rt, &Discard, alloc, blank, setting, script, gate) {
        Ok(seen) => Ok(Ok((seen.entries[65], seen.kept))),
        Err(fault) => Ok(Err(fault)),
    }
}

// The pump makes a call of each frame. Where it finds the history full it ends, and the reader, which waits for room, ends too.
#[test]
fn the_reader_ends_with_the_pump(rt: HostRuntime) -> Result<(), Fail> {
    for (cap, due) in [(100, Ok((100, 100))), (3, Err(Fault::HistoryFull))] {
        let seen = seen_of_many::<Brand, HostRuntime>(rt, rt.alloc(), Blank::new(67), cap)?;
        assert_eq!(rt; seen, due, "{cap}");
    }
    Ok(())
}
