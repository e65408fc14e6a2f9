//! The program `vfdev`: reads a script of events on standard input, gives them to a device, and writes its answers on
//! standard output.
//!
//! The words of the command line say in which mode; what the program does then stands in `modes`, whose calls it has from `host`. Where
//! it fails it writes a line on standard error, and the failure has its status.
#![tactic(auto)]

use host::{Command, Fault, drive, drive_threads, status};
use std::env;
use std::io::ErrorKind;
use std::process::ExitCode;
use std::sync::Wait;
use std::thread::Threads;

// Does what the words of the command line ask for. The handle of threads is the runtime.
fn execute<T: Threads + Wait + Copy + Send + 'static>(
    rt: &HostRuntime,
    threads: T,
) -> Result<(), Fault> {
    let words = match env::args(rt) {
        Ok(words) => words.skip(1).collect::<Vec<String>>(rt.alloc())?,
        Err(e) if e.kind() == ErrorKind::OutOfMemory => return Err(Fault::NoMemory),
        Err(_) => return Err(Fault::Usage),
    };
    match Command::from_words(words.as_slice())? {
        Command::Alone(mode) => drive(rt.alloc(), mode, &mut rt.stdin(), &mut rt.stdout()),
        Command::Threads => drive_threads(threads, rt.alloc(), &mut rt.stdin(), &mut rt.stdout()),
    }
}

fn main(rt: HostRuntime) -> ExitCode {
    match execute(&rt, rt) {
        Ok(()) => ExitCode::SUCCESS,
        Err(fault) => {
            let _ = eprintln!(rt; "{fault}");
            ExitCode::from(status(&fault))
        }
    }
}
