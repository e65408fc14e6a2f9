//! What a run hands back where the share of a caller is gone.
ghost use Rattle.std.specs.Prelude.{◌≡◌};

use crate::stage::{Port, Setting, read, setting_of};
use guest_memory::FlatMem;
use guest_port::EndNote;
use lock_support::locked;
use log::sink::Discard;
use std::alloc::Global;
use std::marker::Brand;
use std::sync::ledger::{Blank, Ledger};
use std::sync::{Arc, Wait};
use std::test::Fail;
use std::thread::Threads;
use wire_frame::Fault;
use workers::{OpenGate, prepare, run_workers};

// Function 0 is opened before `go`, and the driver of the physical function reads after it.
const ONE_OPEN: &str = "vfs 1 4096\n\
    open 0\n\
    go\n\
    pr PF_VT_CTL\n";

// Does a script after the share of a pool's port was handed out, and is gone; with a pool of 64 none is. Answers how many shares come
// back.
fn shares_after<L: Ledger + Send + Sync + 'static, R: Threads + Wait + Copy + Send + 'static>(
    rt: R,
    alloc: Global,
    blank: Blank,
    gone: u8,
) -> Result<Result<usize, Fault>, Fail>
    requires name { blank.name ≡ L.name }
    requires parts { (blank.parts ≡ L.parts) × (blank.parts ≡ 67) }
{
    let Setting {
        line,
        memories,
        cap,
        ..
    } = setting_of(alloc, &[], 1, 40, false)?;
    let script = read(alloc, ONE_OPEN)?;
    let (device, mut shares) = locked::<FlatMem, L>(alloc, blank, line, memories, None, cap)?;
    prepare(&rt, alloc, &script, &device, &mut shares)?;
    drop(shares.port(gone));
    let ports: Vec<(Port<L>, EndNote)> = Vec::new(alloc);
    let (script, gate) = (Arc::new(alloc, script)?, Arc::new(alloc, OpenGate)?);
    match run_workers(rt, &Discard, alloc, script, device, shares, ports, gate) {
        Ok(ended) => Ok(Ok(ended.shares.len())),
        Err(fault) => Ok(Err(fault)),
    }
}

// The shares that are there come back, all of them or all but the one that is gone.
#[test]
fn the_shares_that_are_there_come_back(rt: HostRuntime) -> Result<(), Fail> {
    for (gone, due) in [(64, Ok(67)), (63, Ok(66))] {
        let seen = shares_after::<Brand, HostRuntime>(rt, rt.alloc(), Blank::new(67), gone)?;
        assert_eq!(rt; seen, due, "{gone}");
    }
    Ok(())
}
