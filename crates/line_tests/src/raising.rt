//! Messages that are raised, and who takes them.
ghost use Rattle.std.specs.Prelude.{◌≡◌};

use irq_causes::Vectors;
use irq_line::{DeviceSeat, GuestSeat, make};
use std::test::Fail;
use std::thread;
use wire_frame::PoolId;

// Raises the vectors of a mask for the pool of that number.
fn raise(device: &mut DeviceSeat, pool: u8, mask: u8)
    ensures line { device.new.line ≡ device.old.line }
{
    if let (Some(pool), Some(vectors)) = (PoolId::new(pool), Vectors::new(mask)) {
        device.raise(pool, vectors);
    }
}

// Vectors 0 and 2 are raised for pool 3, vector 0 twice, and once more when they were taken. What the guest takes and peeks before
// that, then two peeks and two takes, and a take at the end.
fn seen_by_3(device: &mut DeviceSeat, guest: &mut GuestSeat) -> [u8; 7] {
    let (taken, standing) = (guest.take(), guest.peek());
    raise(device, 3, 1);
    raise(device, 3, 4);
    raise(device, 3, 1);
    let (peeked, again) = (guest.peek(), guest.peek());
    let (all, left) = (guest.take(), guest.take());
    raise(device, 3, 1);
    [taken, standing, peeked, again, all, left, guest.take()]
}

const SEEN: [u8; 7] = [0, 0, 5, 5, 5, 0, 1];

#[test]
fn messages_stand_until_they_are_taken(rt: HostRuntime) -> Result<(), Fail> {
    let (mut device, mut guests) = make(rt.alloc())?;
    assert_eq!(rt; seen_by_3(&mut device, &mut guests[3]), SEEN);
    Ok(())
}

// Each pool in turn is raised a mask, and no other pool sees it.
#[test]
fn a_pool_sees_its_own_messages_alone(rt: HostRuntime) -> Result<(), Fail> {
    let (mut device, mut guests) = make(rt.alloc())?;
    for pool in 0..64u8 {
        let mask = pool % 7 + 1;
        raise(&mut device, pool, mask);
        for guest in &mut guests {
            let due = if guest.pool() == pool { mask } else { 0 };
            assert_eq!(rt; (guest.peek(), guest.take()), (due, due), "of pool {pool}");
        }
    }
    Ok(())
}

// Messages are raised for pool 3 before the seats are compared, and between two comparisons. What the guest takes.
fn taken_while_compared(device: &mut DeviceSeat, guest: GuestSeat) -> [u8; 3]
    requires one { guest.line ≡ device.old.line }
{
    raise(device, 3, 5);
    let mut guest = device.beside(guest);
    let first = guest.take();
    raise(device, 3, 2);
    let mut guest = device.beside(guest);
    [first, guest.take(), guest.take()]
}

#[test]
fn seats_that_are_compared_stay_as_they_are(rt: HostRuntime) -> Result<(), Fail> {
    let (mut device, mut guests) = make(rt.alloc())?;
    let guest = guests.remove(3);
    assert_eq!(rt; taken_while_compared(&mut device, guest), [5, 2, 0]);
    Ok(())
}

const RAISES: u32 = 1000;

fn raise_often(device: &mut DeviceSeat) {
    for _ in 0..RAISES {
        raise(device, 0, 1);
    }
}

// Takes some times, and counts the takes that answered vector 0.
fn takes_of_vector_0(guest: &mut GuestSeat, takes: u32) -> u32 {
    let mut answered = 0u32;
    for _ in 0..takes {
        if guest.take() == 1 {
            answered = answered.wrapping_add(1);
        }
    }
    answered
}

// One thread raises a thousand times while this one takes. After the last take, which comes when all raises were made, at
// least one take answered the vector, and no more than were raised; and nothing is left.
#[test]
fn one_thread_raises_while_another_takes(rt: HostRuntime) -> Result<(), Fail> {
    let (mut device, mut guests) = make(rt.alloc())?;
    let raiser = thread::spawn(&rt, move || {
        raise_often(&mut device);
        device
    })?;
    let during = takes_of_vector_0(&mut guests[0], 1_000_000);
    let mut device = raiser.join(&rt);
    let answered = during.wrapping_add(takes_of_vector_0(&mut guests[0], 1));
    assert!(rt; 1 <= answered && answered <= RAISES, "{answered}");
    assert_eq!(rt; guests[0].take(), 0);
    assert_eq!(rt; seen_by_3(&mut device, &mut guests[3]), SEEN);
    Ok(())
}
