//! A port over a line by itself: the messages that it takes, and who finds its end.
use guest_port::{GuestPort, IrqPort};
use irq_causes::Vectors;
use irq_line::DeviceSeat;
use lock_support::line_of;
use std::test::Fail;
use std::thread;
use wire_frame::PoolId;

// Raises the vectors of a mask for the pool of that number.
fn raise(device: &mut DeviceSeat, pool: u8, mask: u8) {
    if let (Some(pool), Some(vectors)) = (PoolId::new(pool), Vectors::new(mask)) {
        device.raise(pool, vectors);
    }
}

// A message that was raised before the port was made belongs to an earlier guest, and one of another pool to its guest.
#[test]
fn a_port_takes_its_own_messages(rt: HostRuntime) -> Result<(), Fail> {
    let (mut device, seat) = line_of(rt.alloc(), 3)?;
    raise(&mut device, 3, 5);
    let (mut port, _note) = IrqPort::new(rt.alloc(), 3, seat)?;
    let before = [port.peek_irqs(), port.take_irqs()];
    raise(&mut device, 3, 4);
    raise(&mut device, 2, 1);
    let seen = [
        port.peek_irqs(),
        port.peek_irqs(),
        port.take_irqs(),
        port.take_irqs(),
    ];
    assert_eq!(rt; (before, seen), ([0, 0], [4, 4, 4, 0]));
    Ok(())
}

// A note knows the end for good. A port that has ended and is not closed still takes.
#[test]
fn a_note_finds_the_end(rt: HostRuntime) -> Result<(), Fail> {
    let (mut device, seat) = line_of(rt.alloc(), 3)?;
    let (mut port, mut note) = IrqPort::new(rt.alloc(), 3, seat)?;
    raise(&mut device, 3, 1);
    let before = (port.is_open(), note.ended());
    port.end();
    let after = (port.is_open(), note.ended(), note.ended());
    let taken = port.take_irqs();
    drop(port);
    assert_eq!(rt; (before, after), ((true, false), (false, true, true)));
    assert_eq!(rt; (taken, note.ended()), (1, true));
    Ok(())
}

// A closed port takes nothing: the message stands still in the seat that it handed back, with its own note.
#[test]
fn a_port_closes_once(rt: HostRuntime) -> Result<(), Fail> {
    let (mut device, seat) = line_of(rt.alloc(), 3)?;
    let (mut port, mut note) = IrqPort::new(rt.alloc(), 3, seat)?;
    raise(&mut device, 3, 2);
    let before = note.ended();
    let mut tokens = port.close().ok_or("no tokens")?;
    let again = (port.close().is_some(), port.is_open());
    let taken = [port.peek_irqs(), port.take_irqs(), tokens.seat.take()];
    let after = (tokens.note.ended(), note.ended());
    assert_eq!(rt;
        (before, again, taken, after),
        (false, (false, false), [0, 0, 2], (true, true))
    );
    Ok(())
}

// A port is dropped by another thread, and the note here finds its end once that thread is joined.
#[test]
fn a_port_is_dropped_by_another_thread(rt: HostRuntime) -> Result<(), Fail> {
    let (mut device, seat) = line_of(rt.alloc(), 3)?;
    let (mut port, mut note) = IrqPort::new(rt.alloc(), 3, seat)?;
    raise(&mut device, 3, 4);
    let before = note.ended();
    let worker = thread::spawn(&rt, move || port.take_irqs())?;
    let taken = worker.join(&rt);
    assert_eq!(rt; (before, taken, note.ended()), (false, 4, true));
    Ok(())
}

// A port in a box takes, peeks, ends and closes as the port in it.
#[test]
fn a_boxed_port_is_the_port_in_it(rt: HostRuntime) -> Result<(), Fail> {
    let (mut device, seat) = line_of(rt.alloc(), 3)?;
    let (port, mut note) = IrqPort::new(rt.alloc(), 3, seat)?;
    let mut port: Box<dyn GuestPort + Send> = Box::new(rt.alloc(), port)?;
    raise(&mut device, 3, 6);
    let seen = (
        port.pool(),
        port.is_open(),
        port.peek_irqs(),
        port.take_irqs(),
    );
    port.end();
    let ended = (port.is_open(), note.ended());
    let closed = (port.close().is_some(), port.close().is_some());
    assert_eq!(rt;
        (seen, ended, closed),
        ((3, true, 6, 6), (false, true), (true, false))
    );
    Ok(())
}
