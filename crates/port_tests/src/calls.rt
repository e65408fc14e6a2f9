//! A guest's calls of its open function.
ghost use Rattle.std.specs.Prelude.{◌≡◌};

use crate::stage::open;
use device::Request;
use device_lock::{LockedDevice, WhenFull};
use guest_memory::FlatMem;
use guest_port::{EndNote, GuestPort, IrqPort, LockedPort};
use lock_support::{line_of, locked};
use script_support::registers::{VFLINKS, VTEICS, VTEIMS};
use std::alloc::Global;
use std::marker::Brand;
use std::sync::ledger::{Blank, Ledger};
use std::sync::{Arc, Wait};
use std::test::Fail;
use test_support::memories;
use wire_frame::Fault;

type Port<L> = LockedPort<FlatMem, L, IrqPort>;

// A port of pool 3 on a device whose function 3 is open, with room for `cap` calls, one of which is made; the device, and the
// port's second note.
fn open_port<L: Ledger, R: Wait>(
    rt: &R,
    alloc: Global,
    blank: Blank,
    cap: usize,
) -> Result<(Port<L>, Arc<LockedDevice<FlatMem, L>>, EndNote), Fail>
    requires name { blank.name ≡ L.name }
    requires parts { (blank.parts ≡ L.parts) × (blank.parts ≡ 67) }
{
    let (line, seat) = line_of(alloc, 3)?;
    let (port, note) = IrqPort::new(alloc, 3, seat)?;
    let memories = memories(alloc, 4, 4096)?;
    let (device, mut shares) = locked::<FlatMem, L>(alloc, blank, line, memories, None, cap)?;
    let port = open(rt, &device, &mut shares, port).ok_or("not open")?;
    Ok((port, device, note))
}

// The one byte that a guest reads at an address.
fn byte_at<L: Ledger, R: Wait>(rt: &R, port: &mut Port<L>, address: u64) -> Result<u8, Fault> {
    match port.mem_read(rt, address, 1)?.bytes().first() {
        Some(byte) => Ok(*byte),
        None => Err(Fault::BadRange),
    }
}

// The two bytes that a guest's own event reads.
fn two_asked<L: Ledger, R: Wait>(rt: &R, port: &mut Port<L>) -> Option<[u8; 2]> {
    let request = Request::MemRead(port.pool(), 0, 2);
    let Ok(outcome) = port.ask(rt, request, WhenFull::Fold) else {
        return None;
    };
    let read = port.read(outcome);
    if read.len() != 2 {
        return None;
    }
    Some([read[0], read[1]])
}

// What a guest's writes to a register, which keeps what is written (VTEIMS), and to its memory come to, with what it reads then,
// also into two bytes, and by the event itself; and a reset, with what it reads of the register after it.
type ReadBack = (
    (Result<(), Fault>, Result<u32, Fault>),
    (Result<(), Fault>, Result<u8, Fault>),
    (Result<(), Fault>, [u8; 2], Option<[u8; 2]>),
    (Result<(), Fault>, Result<u32, Fault>),
);

fn reads_back<L: Ledger, R: Wait>(rt: &R, port: &mut Port<L>) -> ReadBack {
    let mut two = [1, 1];
    let register = (port.reg_write(rt, VTEIMS, 7), port.reg_read(rt, VTEIMS));
    let memory = (port.mem_write(rt, 0, &[0xAA]), byte_at(rt, port, 0));
    let read = port.mem_read_into(rt, 0, &mut two);
    let asked = two_asked(rt, port);
    let reset = (port.flr(rt), port.reg_read(rt, VTEIMS));
    (register, memory, (read, two, asked), reset)
}

// The same of a port on a device, and how many calls are kept.
fn opened_reads<L: Ledger, R: Wait>(
    rt: &R,
    alloc: Global,
    blank: Blank,
) -> Result<(ReadBack, usize), Fail>
    requires name { blank.name ≡ L.name }
    requires parts { (blank.parts ≡ L.parts) × (blank.parts ≡ 67) }
{
    let (mut port, device, _note) = open_port::<L, R>(rt, alloc, blank, 16)?;
    Ok((reads_back(rt, &mut port), device.kept(rt)))
}

// What a guest writes it reads back, until a reset.
#[test]
fn port_reads_back(rt: HostRuntime) -> Result<(), Fail> {
    let seen = opened_reads::<Brand, HostRuntime>(&rt, rt.alloc(), Blank::new(67))?;
    let due = (
        (Ok(()), Ok(7)),
        (Ok(()), Ok(0xAA)),
        (Ok(()), [0xAA, 0], Some([0xAA, 0])),
        (Ok(()), Ok(0)),
    );
    assert_eq!(rt; seen, (due, 9));
    Ok(())
}

// With what six calls are refused: a read and a write of an offset that no register has, a read, a write and a read into two bytes
// past the end of the memory, and a read of too many bytes; and what stands in the two bytes.
fn refused<L: Ledger, R: Wait>(rt: &R, port: &mut Port<L>) -> ([Option<Fault>; 6], [u8; 2]) {
    let mut two = [1, 2];
    let faults = [
        port.reg_read(rt, 0x4000).err(),
        port.reg_write(rt, 0x101, 0).err(),
        port.mem_read(rt, 4095, 2).err(),
        port.mem_write(rt, 4095, &[1, 2]).err(),
        port.mem_read_into(rt, 4095, &mut two).err(),
        port.mem_read(rt, 4095, 2049).err(),
    ];
    (faults, two)
}

const REFUSED: [Option<Fault>; 6] = [
    Some(Fault::BadOffset),
    Some(Fault::BadOffset),
    Some(Fault::BadRange),
    Some(Fault::BadRange),
    Some(Fault::BadRange),
    Some(Fault::TooLong),
];

// What comes of more than 2048 bytes that the guest hands in, which are no event.
fn too_long<L: Ledger, R: Wait>(rt: &R, port: &mut Port<L>) -> [Option<Fault>; 2] {
    let mut many = [1; 2049];
    let written = port.mem_write(rt, 4095, &many).err();
    [written, port.mem_read_into(rt, 4095, &mut many).err()]
}

// What is refused before the six calls, and how many calls are kept; what these are refused with, and how many are kept; what is
// refused then; and what is once the port has ended.
type Full = (
    ([Option<Fault>; 2], usize),
    (([Option<Fault>; 6], [u8; 2]), usize),
    (Option<Fault>, [Option<Fault>; 2]),
    [Option<Fault>; 2],
);

fn fills<L: Ledger, R: Wait>(
    rt: &R,
    device: &LockedDevice<FlatMem, L>,
    port: &mut Port<L>,
) -> Full {
    let long = (too_long(rt, port), device.kept(rt));
    let made = (refused(rt, port), device.kept(rt));
    let full = (port.reg_read(rt, VFLINKS).err(), too_long(rt, port));
    port.end();
    (long, made, full, too_long(rt, port))
}

// The same of a port on a device with room for seven calls, and how many its share made.
fn opened_fills<L: Ledger, R: Wait>(
    rt: &R,
    alloc: Global,
    blank: Blank,
) -> Result<(Full, u64), Fail>
    requires name { blank.name ≡ L.name }
    requires parts { (blank.parts ≡ L.parts) × (blank.parts ≡ 67) }
{
    let (mut port, device, _note) = open_port::<L, R>(rt, alloc, blank, 7)?;
    let full = fills(rt, &*device, &mut port);
    let (share, _tokens) = port.close().ok_or("no share")?;
    Ok((full, share.count()))
}

// Refused events are kept and count as calls made; beside the one that opened the function there is room for six, and no call more.
#[test]
fn refused_calls_are_kept(rt: HostRuntime) -> Result<(), Fail> {
    let seen = opened_fills::<Brand, HostRuntime>(&rt, rt.alloc(), Blank::new(67))?;
    let long = [Some(Fault::TooLong), Some(Fault::TooLong)];
    let due = (
        (long, 1),
        ((REFUSED, [1, 2]), 7),
        (Some(Fault::HistoryFull), long),
        [Some(Fault::NotOpen), Some(Fault::NotOpen)],
    );
    assert_eq!(rt; seen, (due, 6));
    Ok(())
}

// What a port peeks and takes twice once vector 0 is enabled and raised by VTEIMS and VTEICS; whether its note knows
// the end, and what a reset is refused with, before its end, after it, and once it is closed; and the caller, the calls and the pool
// of what it hands back.
type Closed = ([u8; 3], [(bool, Option<Fault>); 2], (u8, u64, u8));

fn closes<L: Ledger, R: Wait>(rt: &R, port: &mut Port<L>, note: &mut EndNote) -> Option<Closed> {
    port.reg_write(rt, VTEIMS, 1).ok()?;
    port.reg_write(rt, VTEICS, 3).ok()?;
    let taken = [port.peek_irqs(), port.take_irqs(), port.take_irqs()];
    if note.ended() {
        return None;
    }
    port.end();
    let ended = (note.ended(), port.flr(rt).err());
    let (share, tokens) = port.close()?;
    let closed = (port.close().is_some(), port.flr(rt).err());
    let handed = (share.caller(), share.count(), tokens.seat.pool());
    Some((taken, [ended, closed], handed))
}

// The same of a port on a device, and how many calls are kept.
fn opened_closes<L: Ledger, R: Wait>(
    rt: &R,
    alloc: Global,
    blank: Blank,
) -> Result<(Option<Closed>, usize), Fail>
    requires name { blank.name ≡ L.name }
    requires parts { (blank.parts ≡ L.parts) × (blank.parts ≡ 67) }
{
    let (mut port, device, mut note) = open_port::<L, R>(rt, alloc, blank, 4)?;
    let closed = closes(rt, &mut port, &mut note);
    Ok((closed, device.kept(rt)))
}

// A port that has ended makes no call, nor once it is closed; it closes once, and its share counted two calls.
#[test]
fn an_ended_port_makes_no_call(rt: HostRuntime) -> Result<(), Fail> {
    let seen = opened_closes::<Brand, HostRuntime>(&rt, rt.alloc(), Blank::new(67))?;
    let refused = Some(Fault::NotOpen);
    let due = ([1, 1, 0], [(true, refused), (false, refused)], (3, 2, 3));
    assert_eq!(rt; seen, (Some(due), 3));
    Ok(())
}
