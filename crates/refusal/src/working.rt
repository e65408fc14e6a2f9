//! A script that is done by workers, each of which finds the history full.
ghost use Rattle.std.specs.Prelude.{◌≡◌};

use crate::sheet::Came;
use guest_memory::FlatMem;
use guest_port::{GuestPort, IrqPort, LockedPort};
use lock_support::{line_of, locked, port_share};
use log::sink::Discard;
use script::Script;
use std::alloc::Global;
use std::sync::atomic::{AtomicU64, Ordering};
use std::sync::ledger::{Blank, Ledger};
use std::sync::{Arc, Wait};
use std::thread::Threads;
use test_support::memories;
use wire_frame::Fault;
use workers::{Gate, prepare, run_workers};

// After `go` the guest, the driver, the wire and the service have an event each.
const SCRIPT: &str =
    "vfs 1 4096\nopen 0\ngo\nr 0 0x10\npr 0x51b0\nwire 0200000000000200000000990800.00*46\nserve 0 0\n";

// The callers that came with an event.
#[derive(Drop)]
struct Callers {
    came: AtomicU64,
}

impl Callers {
    // Whether the guest, the driver, the pump and the service did: then all workers were started.
    fn all_came(&self) -> bool {
        self.came.load(Ordering::SeqCst) == 15
    }
}

impl Gate for Callers {
    fn before(&self, caller: u8, _n: u32) {
        let bit = match caller {
            0 => 1,
            64 => 2,
            65 => 4,
            _ => 8,
        };
        self.came.fetch_or(bit, Ordering::SeqCst);
    }

    fn after(&self, _caller: u8, _n: u32) {}
}

// Does the script by workers, where one call is kept, which is the one before `go`: what came of it, and whether all workers were
// started. None where what it needs was not made.
fn ran<L: Ledger + Send + Sync + 'static, R: Threads + Wait + Copy + Send + 'static>(
    rt: R,
    alloc: Global,
    blank: Blank,
) -> Option<(Result<(), Fault>, bool)>
    requires name { blank.name ≡ L.name }
    requires parts { (blank.parts ≡ L.parts) × (blank.parts ≡ 67) }
{
    let script = Script::read(alloc, &mut SCRIPT.as_bytes()).ok()?;
    let Ok((line, seat)) = line_of(alloc, 0) else {
        return None;
    };
    let Ok((port, note)) = IrqPort::new(alloc, 0, seat) else {
        return None;
    };
    let live = memories(alloc, 1, 4096).ok()?;
    let Ok((device, mut shares)) = locked::<FlatMem, L>(alloc, blank, line, live, None, 1) else {
        return None;
    };
    let Some(share) = port_share(&mut shares, port.pool()) else {
        return None;
    };
    if prepare(&rt, alloc, &script, &device, &mut shares).is_err() {
        return None;
    }
    let there = Arc::try_clone(&device).ok()?;
    let mut ports = Vec::with_capacity(alloc, 1).ok()?;
    ports
        .push((LockedPort::new(there, share, port), note))
        .ok()?;
    let script = Arc::new(alloc, script).ok()?;
    let callers = Arc::new(
        alloc,
        Callers {
            came: AtomicU64::new(0),
        },
    )
    .ok()?;
    let gate = Arc::try_clone(&callers).ok()?;
    match run_workers(rt, &Discard, alloc, script, device, shares, ports, gate) {
        Ok(_) => Some((Ok(()), callers.all_came())),
        Err(fault) => Some((Err(fault), callers.all_came())),
    }
}

/// The workers that were started find the history full. A run that is refused memory, or a thread, tells that.
pub fn workers<L: Ledger + Send + Sync + 'static, R: Threads + Wait + Copy + Send + 'static>(
    rt: R,
    alloc: Global,
    blank: Blank,
) -> Came
    requires name { blank.name ≡ L.name }
    requires parts { (blank.parts ≡ L.parts) × (blank.parts ≡ 67) }
{
    match ran::<L, R>(rt, alloc, blank) {
        Some((Err(Fault::HistoryFull), all_came)) => Came::whole(all_came),
        Some((Err(fault), _)) => Came::refused(fault, true),
        Some((Ok(()), _)) => Came::Wrong,
        None => Came::NotTried,
    }
}
