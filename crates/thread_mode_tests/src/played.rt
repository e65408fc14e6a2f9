//! Runs of a script by threads.
use modes::Fault;
use modes::threads::drive_threads;
use std::sync::Wait;
use std::thread::Threads;

/// What a script gives and writes.
pub fn run_threads<R: Threads + Wait + Copy + Send + AllocGlobal + 'static>(
    rt: R,
    script: &[u8],
) -> (Result<(), Fault>, Vec<u8>) {
    let mut written = Vec::new(rt.alloc());
    let mut reader = script;
    let result = drive_threads(rt, rt.alloc(), &mut reader, &mut written);
    (result, written)
}

/// A script whose two ports begin at `go`, in its short form.
pub const SCRIPT: &str =
    "vfs 6 32768\n@pools\n@receiver 3\n@receiver 5\ngo\npw PFDTXGSWC 1\n@send 5 0200000000030200000000990800.00*46 3c00302900000000\nmr 3 0x1000 16\nwire 0200000000030200000000990800.00*46\n";
