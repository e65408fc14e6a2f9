//! The cause "other", by which a driver looks at its mailbox; and vectors that wait until they are named.
use crate::client::{Clients, arm_message, pool};
use crate::compare::assert_equal;
use crate::resets::{come, driven};
use card::Vector;
use mailbox::Notice;
use offload::Offloads;
use script_support::registers::{
    VFMAILBOX, VTEICR, VTEICS, VTEIMC, VTEIMS, VTEITR0, VTEITR1, VTEITR2, VTIVAR_MISC,
};
use std::test::Fail;

/// The driver of function 0 gives the cause "other" vector 1, as ixgbevf gives it the last of its vectors, and has not looked at its mailbox
/// since it was answered: the host's message waits, and raises nothing. Then it stands, and vector 1 is signalled, with what was raised
/// before.
#[test]
fn the_hosts_message_raises_the_cause_other(rt: HostRuntime) -> Result<(), Fail> {
    let first = pool(0)?;
    let mut clients = driven(rt.alloc())?;
    clients.say(first, &arm_message(3), 3);
    let writes = [(VTIVAR_MISC, 0x81), (VTEIMS, 7), (VTEICS, 4)];
    assert_equal(&rt, clients.write_all(first, &writes), true);
    assert_equal(&rt, clients.notify(first), Notice::Waits);
    assert_equal(&rt, clients.signal(first), 4);
    assert_equal(&rt, clients.write(first, VTEICS, 1), true);
    clients.read(first, VFMAILBOX);
    assert_equal(&rt, clients.notify(first), Notice::Raises);
    assert_equal(&rt, clients.raised(), 1);
    assert_equal(&rt, clients.signal(first), 3);
    // the causes stand until the driver reads them, and the same cause is no second message
    assert_equal(&rt, clients.notify(first), Notice::Raises);
    assert_equal(&rt, clients.raised(), 0);
    assert_equal(&rt, clients.read(first, VTEICR), Some(7));
    Ok(())
}

/// A vector that is masked is not signalled before the driver enables it; an entry that is not valid, and one of vector 3, raise nothing.
#[test]
fn the_cause_other_may_be_masked(rt: HostRuntime) -> Result<(), Fail> {
    let first = pool(0)?;
    let mut clients = driven(rt.alloc())?;
    clients.say(first, &arm_message(3), 3);
    clients.read(first, VFMAILBOX);
    for entry in [0x01, 0x83] {
        let writes = [(VTIVAR_MISC, entry), (VTEIMS, 7)];
        assert_equal(&rt, clients.write_all(first, &writes), true);
        assert_equal(&rt, clients.notify(first), Notice::Raises);
        assert_equal(&rt, clients.raised(), 0);
        assert_equal(&rt, clients.read(first, VTEICR), Some(0));
    }
    let writes = [(VTIVAR_MISC, 0x82), (VTEIMC, 4)];
    assert_equal(&rt, clients.write_all(first, &writes), true);
    assert_equal(&rt, clients.notify(first), Notice::Raises);
    assert_equal(&rt, clients.raised(), 0);
    assert_equal(&rt, clients.write(first, VTEIMS, 4), true);
    assert_equal(&rt, clients.signal(first), 4);
    Ok(())
}

/// A function without a guest, and one that isn't there, get no vector; nor does another function.
#[test]
fn the_host_speaks_to_nobody(rt: HostRuntime) -> Result<(), Fail> {
    let mut clients = driven(rt.alloc())?;
    let first = pool(0)?;
    let writes = [(VTIVAR_MISC, 0x80), (VTEIMS, 1)];
    assert_equal(&rt, clients.write_all(first, &writes), true);
    for absent in [pool(1)?, pool(63)?] {
        assert_equal(&rt, clients.notify(absent), Notice::Raises);
        assert_equal(&rt, clients.raised(), 0);
    }
    assert_equal(&rt, clients.read(first, VTEICR), Some(0));
    Ok(())
}

/// Vectors that are not named wait, and a reset leaves none.
#[test]
fn vectors_that_are_not_named_wait(rt: HostRuntime) -> Result<(), Fail> {
    let first = pool(0)?;
    let mut clients = driven(rt.alloc())?;
    clients.say(first, &arm_message(2), 2);
    let writes = [(VTEIMS, 7), (VTEICS, 7)];
    assert_equal(&rt, clients.write_all(first, &writes), true);
    assert_equal(&rt, clients.signal_named(first, 0), 0);
    // vector 2 has no file: it is named, and gone
    assert_equal(&rt, clients.signal_named(first, 5), 1);
    assert_equal(&rt, clients.raised(), 1);
    assert_equal(&rt, clients.signal_named(first, 5), 0);
    assert_equal(&rt, clients.signal_named(first, 2), 2);
    assert_equal(&rt, clients.raised(), 0);
    clients.read(first, VTEICR);
    assert_equal(&rt, clients.write(first, VTEICS, 3), true);
    assert_equal(&rt, clients.signal_named(first, 1), 1);
    clients.flr(first);
    assert_equal(&rt, (clients.raised(), clients.signal(first)), (0, 0));
    Ok(())
}

/// The intervals that Linux ixgbevf writes, with the bit that it sets beside them: 100,000, 20,000 and 12,000 interrupts a second at most.
#[test]
fn a_driver_says_how_far_apart(rt: HostRuntime) -> Result<(), Fail> {
    let alloc = rt.alloc();
    let first = pool(0)?;
    let mut clients = Clients::made_with(alloc, 2, Offloads::all())?;
    come(&mut clients, first, alloc)?;
    let rows = [
        (VTEITR0, 0x8000_0028, Vector::V0, 10),
        (VTEITR1, 0x8000_00C8, Vector::V1, 50),
        (VTEITR2, 0x8000_0150, Vector::V2, 84),
    ];
    for (offset, word, vector, due) in rows {
        assert_equal(&rt, clients.interval(first, vector), 0);
        assert_equal(&rt, clients.write(first, offset, word), true);
        assert_equal(&rt, clients.interval(first, vector), due);
    }
    assert_equal(&rt, clients.interval(pool(1)?, Vector::V0), 0);
    assert_equal(&rt, clients.interval(pool(63)?, Vector::V0), 0);
    clients.flr(first);
    assert_equal(&rt, clients.interval(first, Vector::V1), 0);
    Ok(())
}
