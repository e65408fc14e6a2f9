//! What a script gives and writes, and whether that is what is due.
use modes::drive::drive;
use modes::{Fault, Mode};
use script_support::short::{Case, long_output, long_script};
use std::alloc::Global;
use std::process::Abort;
use std::test::Fail;

/// What a run of a script in a mode gives and writes.
pub fn run_in(alloc: Global, mode: Mode, script: &str) -> (Result<(), Fault>, Vec<u8>) {
    let mut written = Vec::new(alloc);
    let result = drive(alloc, mode, &mut script.as_bytes(), &mut written);
    (result, written)
}

/// A run in a mode was done to its end, and wrote this.
pub fn assert_written(
    rt: &impl Abort,
    (told, written): (Result<(), Fault>, Vec<u8>),
    due: &str,
    (mode, name): (Mode, &str),
) {
    let is_due = written.as_slice() == due.as_bytes();
    assert_eq!(rt; (told, is_due), (Ok(()), true), "{mode:?}: {name}");
}

/// Runs each case, which has to have its output.
pub fn check(rt: &(impl Abort + AllocGlobal), cases: &[Case]) -> Result<(), Fail> {
    for case in cases {
        check_in(rt, Mode::Run, *case)?;
    }
    Ok(())
}

/// The same of one case in a mode.
pub fn check_in(rt: &(impl Abort + AllocGlobal), mode: Mode, case: Case) -> Result<(), Fail> {
    let script = long_script(rt.alloc(), case.script)?;
    let output = long_output(rt.alloc(), case.output)?;
    let run = run_in(rt.alloc(), mode, script.as_str());
    assert_written(rt, run, output.as_str(), (mode, case.name));
    Ok(())
}
