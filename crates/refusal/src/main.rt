//! No part of the product: it calls each maker by its name, and tells whether it made what it should or was refused the memory. A
//! maker that was refused is called once more where that tells something.
//!
//! It then asks for [`MARK`] bytes, which `bench/refuse` refuses, and all memory after it; and what was made before does its work: calls
//! are recorded, bases moved, messages raised and taken, ports ended, closed and dropped, frames pumped. None of it takes memory, nor
//! does the text, which is written at the end.
//!
//! Each line is a name and `whole`, `no memory`, `not tried`, where what it needs was not made, or `wrong`.
#![tactic(auto)]

ghost use Rattle.std.specs.Prelude.{◌≡◌};

mod ending;
mod makers;
mod pumping;
mod recording;
mod sheet;
mod working;

use crate::ending::Ending;
use crate::pumping::Pumping;
use crate::recording::Recording;
use crate::sheet::{Came, Sheet};
use modes::Mode;
use std::alloc::Global;
use std::io;
use std::io::Write;
use std::marker::Brand;
use std::sync::Wait;
use std::sync::ledger::{Blank, Ledger};
use std::thread::Threads;

/// So many bytes are asked for before all memory is refused.
const MARK: usize = 98_765_432;

// Asks for the mark.
fn mark(alloc: Global) -> Came {
    match Vec::<u8>::with_capacity(alloc, MARK) {
        Ok(room) => Came::whole(room.capacity() >= MARK),
        Err(_) => Came::NoMemory,
    }
}

// Calls each maker.
fn make_all<R: Threads + Wait + Copy + Send + 'static>(rt: &R, alloc: Global, sheet: &mut Sheet) {
    sheet.tell("FlatMem::new", makers::flat_mem(alloc));
    sheet.tell("LiveMem::new", makers::live_mem(alloc));
    sheet.tell("Card::for_guests", makers::card(alloc));
    sheet.tell("Device::new", makers::device_new(alloc));
    sheet.tell("Device::run", makers::device_run(alloc));
    sheet.tell("irq_line::make", makers::line(alloc));
    sheet.tell("IrqPort::try_new", makers::port(alloc));
    sheet.tell(
        "Recorded::new",
        makers::recorded_new::<Brand>(alloc, Blank::new(67)),
    );
    sheet.tell(
        "Recorded::with_twin",
        makers::with_twin::<Brand>(alloc, Blank::new(67)),
    );
    let locked = makers::locked_new::<Brand, R>(rt, alloc, Blank::new(67));
    sheet.tell("LockedDevice::new", locked);
    sheet.tell("channel", makers::frames(rt, alloc));
    let worked = working::workers::<Brand, R>(*rt, alloc, Blank::new(67));
    sheet.tell("run_workers", worked);
    sheet.tell("drive, run", makers::script(alloc, Mode::Run));
    sheet.tell("drive, keep 0", makers::script(alloc, Mode::Keep(0)));
    sheet.tell("drive, lone 0", makers::script(alloc, Mode::Lone(0)));
}

// Makes what is to do its work without memory, asks for the mark, and has the work done.
fn work_all<L: Ledger, R: Wait>(rt: &R, alloc: Global, blank: Blank, sheet: &mut Sheet)
    requires name { blank.name ≡ L.name }
    requires parts { (blank.parts ≡ L.parts) × (blank.parts ≡ 67) }
{
    let recording = Recording::<L>::new(alloc, blank);
    let pumping = Pumping::new(alloc);
    let ending = Ending::new(alloc);
    sheet.tell("mark", mark(alloc));
    recording::work(rt, recording.ok(), sheet);
    pumping::work(rt, pumping.ok(), sheet);
    ending::work(ending.ok(), sheet);
}

fn main(rt: HostRuntime) -> io::Result<()> {
    let mut sheet = Sheet::new();
    make_all(&rt, rt.alloc(), &mut sheet);
    work_all::<Brand, HostRuntime>(&rt, rt.alloc(), Blank::new(67), &mut sheet);
    rt.stdout().write_all(sheet.text())
}
