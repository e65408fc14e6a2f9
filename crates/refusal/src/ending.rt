//! A device and a port by themselves, without memory.
use crate::makers::raise;
use crate::sheet::{Came, Sheet};
use device::{Device, Event, Reply};
use guest_memory::FlatMem;
use guest_port::{EndNote, GuestPort, IrqPort};
use irq_line::DeviceSeat;
use lock_support::line_of;
use std::alloc::Global;
use test_support::memories;
use wire_frame::Fault;

/// A device of one function; and a line with the port of pool 3, and a note of its end.
#[derive(Drop)]
pub struct Ending {
    device: Device<FlatMem>,
    line: DeviceSeat,
    port: IrqPort,
    note: EndNote,
}

impl Ending {
    pub fn new(alloc: Global) -> Result<Ending, Fault> {
        let device = Device::new(alloc, memories(alloc, 1, 4096)?)?;
        let (line, seat) = line_of(alloc, 3)?;
        let (port, note) = IrqPort::new(alloc, 3, seat)?;
        Ok(Ending {
            device,
            line,
            port,
            note,
        })
    }
}

/// Does the work.
pub fn work(made: Option<Ending>, sheet: &mut Sheet) {
    let Some(
        Ending {
            mut device,
            mut line,
            mut port,
            mut note,
        },
    ) = made
    else {
        for name in ["step", "raise and take", "drop"] {
            sheet.tell(name, Came::NotTried);
        }
        return;
    };
    let is_open = device.step(&Event::Open(0)).reply == Reply::Done;
    let is_read = device.step(&Event::VfRead(0, 0x10)).reply == Reply::Value(0x7000_0000);
    sheet.tell("step", Came::whole(is_open && is_read));
    raise(&mut line, 3, 6);
    let taken = (port.peek_irqs(), port.take_irqs(), port.take_irqs());
    sheet.tell("raise and take", Came::whole(taken == (6, 6, 0)));
    let before = note.ended();
    drop(port);
    sheet.tell("drop", Came::whole(!before && note.ended()));
}
