//! The example of the documentation of guest_port, which docs/check compares with this.
ghost use Rattle.std.specs.Prelude.{◌≡◌};

use device::Event;
use guest_memory::FlatMem;
use guest_port::{GuestPort, IrqPort, LockedPort};
use lock_support::{answer, line_of, locked};
use script_support::registers::VTEIMS;
use std::alloc::Global;
use std::marker::Brand;
use std::sync::Wait;
use std::sync::ledger::{Blank, Ledger};
use std::test::Fail;
use test_support::memories;

// What the guest of function 3 reads of a register, and of its memory.
#[tactic(auto, using(recorder::proofs::LineLemmas::port_line))]
fn example_of_locked_port_new<L: Ledger, R: Wait>(
    rt: &R,
    alloc: Global,
    blank: Blank,
) -> Result<(u32, [u8; 2]), Fail>
    requires name { blank.name ≡ L.name }
    requires parts { (blank.parts ≡ L.parts) × (blank.parts ≡ 67) }
{
    let (line, seat) = line_of(alloc, 3)?;
    let memories = memories(alloc, 4, 4096)?;
    let (device, mut shares) = locked::<FlatMem, L>(alloc, blank, line, memories, None, 16)?;
    answer(rt, &*device, &mut shares.service, Event::Open(3)).ok_or("not open")?;
    let (inner, _note) = IrqPort::new(alloc, 3, seat)?;
    let share = shares.port(3).ok_or("it was handed out")?;
    let mut port = LockedPort::new(device, share, inner);
    port.reg_write(rt, VTEIMS, 5)?;
    let enabled = port.reg_read(rt, VTEIMS)?;
    port.mem_write(rt, 0, &[7, 0])?;
    let mut bytes = [1; 2];
    port.mem_read_into(rt, 0, &mut bytes)?;
    Ok((enabled, bytes))
}

#[test]
fn the_guest_reads_what_it_wrote(rt: HostRuntime) -> Result<(), Fail> {
    let read = example_of_locked_port_new::<Brand, HostRuntime>(&rt, rt.alloc(), Blank::new(67))?;
    assert_eq!(rt; read, (5, [7, 0]));
    Ok(())
}
