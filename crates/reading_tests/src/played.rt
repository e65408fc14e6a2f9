//! Runs of a script, of which the tests are told what came alone.
use modes::drive::drive;
use modes::{Fault, Mode};
use std::alloc::Global;
use std::io::{Read, Write};

/// What came of a script between a reader and a writer.
pub fn played<R: Read, W: Write>(
    alloc: Global,
    mode: Mode,
    reader: &mut R,
    writer: &mut W,
) -> Result<(), Fault> {
    drive(alloc, mode, reader, writer)
}

/// What a run of a script gives and writes.
pub fn run(alloc: Global, script: &[u8]) -> (Result<(), Fault>, Vec<u8>) {
    run_in(alloc, Mode::Run, script)
}

/// The same in a mode.
pub fn run_in(alloc: Global, mode: Mode, script: &[u8]) -> (Result<(), Fault>, Vec<u8>) {
    let mut reader = script;
    let mut written = Vec::new(alloc);
    let result = played(alloc, mode, &mut reader, &mut written);
    (result, written)
}
