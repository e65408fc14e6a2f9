//! Two guests in threads of their own, whose ports are of two kinds.
ghost use Rattle.std.specs.Prelude.{◌≡◌, [], IfSome};
ghost use Rattle.irq_line.specs.Line.{AreSeatsOf};

use crate::stage::open;
use device_lock::Share;
use guest_memory::{FlatMem, GuestMem};
use guest_port::{EndNote, GuestPort, IrqPort, LockedPort, Tokens};
use irq_line::{DeviceSeat, GuestSeat};
use lock_support::{last_seat, line, locked};
use script_support::registers::{VTEICS, VTEIMS};
use std::alloc::Global;
use std::marker::Brand;
use std::sync::Wait;
use std::sync::ledger::{Blank, Ledger};
use std::test::Fail;
use std::thread;
use std::thread::Threads;

// A port that counts the takes of the port in it.
#[derive(Drop)]
struct Counting<P: GuestPort> {
    inner: P,
    takes: u8,
}

impl<P: GuestPort> GuestPort for Counting<P> {
    ghost meaning = { λ p. P.meaning p.inner };

    fn pool(&self) -> u8 {
        self.inner.pool()
    }

    fn is_open(&self) -> bool {
        self.inner.is_open()
    }

    fn take_irqs(&mut self) -> u8 {
        self.takes = self.takes.wrapping_add(1);
        self.inner.take_irqs()
    }

    fn peek_irqs(&mut self) -> u8 {
        self.inner.peek_irqs()
    }

    fn end(&mut self) {
        self.inner.end();
    }

    fn close(&mut self) -> Option<Tokens> {
        self.inner.close()
    }
}

// How often each guest writes and reads.
const ROUNDS: u8 = 50;

// Whether a guest gets the message of vector 0, which it enables and raises by VTEIMS and VTEICS, and reads back
// what it writes, each time.
fn is_served<M: GuestMem, L: Ledger, P: GuestPort, R: Wait>(
    rt: &R,
    port: &mut LockedPort<M, L, P>,
) -> bool {
    let pool = port.pool();
    if port.reg_write(rt, VTEIMS, 1).is_err()
        || port.reg_write(rt, VTEICS, 1).is_err()
        || port.take_irqs() != 1
    {
        return false;
    }
    for round in 0..ROUNDS {
        let written = [pool, round];
        let mut read = [0, 0];
        if port.mem_write(rt, u64::from(pool), &written).is_err()
            || port.mem_read_into(rt, u64::from(pool), &mut read).is_err()
            || read != written
        {
            return false;
        }
    }
    true
}

// The port of the last seat.
fn last_port<L: Ledger>(
    alloc: Global,
    seats: &mut Vec<GuestSeat>,
    pump: &Share<L>,
) -> Option<(IrqPort, EndNote)>
    requires { AreSeatsOf pump.now.line seats.old.items }
    ensures line { IfSome result (λ r. r.0.port.seat.line ≡ pump.now.line) }
    ensures seats { AreSeatsOf pump.now.line seats.new.items }
{
    let Some(seat) = last_seat(seats, pump) else {
        return None;
    };
    let pool = seat.pool();
    match IrqPort::new(alloc, pool, seat) {
        Ok(made) => Some(made),
        Err(_) => None,
    }
}

// What comes of two guests: how many were served, how many calls are kept, and whether the ports ended.
type Two = (u32, usize, [bool; 2]);

// Two guests, whose ports are of two kinds, write to and read from their own memories, each in a thread of its own, and this thread
// waits for both.
fn serves_two<
    M: GuestMem + Send + 'static,
    L: Ledger + Send + Sync + 'static,
    R: Threads + Wait + Copy + Send + 'static,
>(
    rt: R,
    alloc: Global,
    blank: Blank,
    memories: Vec<M>,
    line: DeviceSeat,
    mut seats: Vec<GuestSeat>,
) -> Result<Two, Fail>
    requires name { blank.name ≡ L.name }
    requires parts { (blank.parts ≡ L.parts) × (blank.parts ≡ 67) }
    requires line { line.raises ≡ [] }
    requires seats { AreSeatsOf line.line seats.items }
{
    let (device, mut shares) = locked::<M, L>(alloc, blank, line, memories, None, 1000)?;
    let Some((port, mut first_note)) = last_port(alloc, &mut seats, &shares.pump) else {
        return Err("no port".into());
    };
    let Some(mut first) = open(&rt, &device, &mut shares, port) else {
        return Err("not open".into());
    };
    let Some((inner, mut second_note)) = last_port(alloc, &mut seats, &shares.pump) else {
        return Err("no port".into());
    };
    let counting = Counting { inner, takes: 0 };
    let Some(mut second) = open(&rt, &device, &mut shares, counting) else {
        return Err("not open".into());
    };
    let first = thread::spawn(&rt, move || is_served(&rt, &mut first))?;
    let second = thread::spawn(&rt, move || is_served(&rt, &mut second))?;
    let served = u32::from(first.join(&rt)).wrapping_add(u32::from(second.join(&rt)));
    Ok((
        served,
        device.kept(&rt),
        [first_note.ended(), second_note.ended()],
    ))
}

#[test]
fn two_guests_have_ports_of_two_kinds(rt: HostRuntime) -> Result<(), Fail> {
    let alloc = rt.alloc();
    let (line, seats) = line(alloc)?;
    let mut memories: Vec<Box<dyn GuestMem + Send>> = Vec::new(alloc);
    for _ in 0..64u8 {
        memories.push(Box::new(alloc, FlatMem::new(alloc, 4096)?)?)?;
    }
    let seen = serves_two::<Box<dyn GuestMem + Send>, Brand, HostRuntime>(
        rt,
        alloc,
        Blank::new(67),
        memories,
        line,
        seats,
    )?;
    let kept = 2 + 2 * (2 + 2 * usize::from(ROUNDS));
    assert_eq!(rt; seen, (2, kept, [true, true]));
    Ok(())
}
