//! Values from outside: what events leave for a pool, and what a function by itself makes of it.
use crate::compare::{assert_equal, assert_equal_at};
use device::{Device, MemSlice, Outcome, Queue, Request, Room};
use guest_memory::FlatMem;
use irq_causes::Vectors;
use lone::follow::follow;
use lone::{Given, Handover, Lone, PoolView, Seen};
use pool_filter::{Own, Tables};
use script_support::registers::{
    ADVANCED, ENABLE, MPSAR, PF_VT_CTL, PFDTXGSWC, PFVFRE, PFVFTE, RAH, RAL, RDBAL0, RDLEN0, RDT0,
    ROUTES, RXDCTL0, SRRCTL0, TDBAL0, TDLEN0, TDT0, TXDCTL0, VALID, VTEIMS, VTIVAR,
};
use std::alloc::Global;
use std::process::Abort;
use std::test::Fail;
use test_support::memories;
use wire_frame::{Fault, FrameBuf, FrameLimit, PoolId};

// Registers of the physical function, and what they are written: functions 0 and 1 have addresses that end with 10 and 11,
// and frames go from pool to pool.
const SETTINGS: [(u32, u32); 9] = [
    (PFVFRE, 0x3),
    (PFVFTE, 0x3),
    (PFDTXGSWC, 0x1),
    (RAL, 0x2),
    (RAH, VALID | 0x1000),
    (MPSAR, 0x1),
    (RAL + 8, 0x2),
    (RAH + 8, VALID | 0x1100),
    (MPSAR + 8, 0x2),
];
// Whether each of these writes leaves own settings for pool 0.
const LEFT: [bool; 9] = [true, true, false, false, false, true, false, false, false];
// Registers of a function, and what they are written: one receive descriptor in a ring at 0x1000, a transmit ring of eight
// descriptors at 0x2000, and a message for either.
const RINGS: [(u32, u32); 10] = [
    (RDBAL0, 0x1000),
    (RDLEN0, 128),
    (SRRCTL0, ADVANCED | 2),
    (RXDCTL0, ENABLE),
    (RDT0, 1),
    (TDBAL0, 0x2000),
    (TDLEN0, 128),
    (TXDCTL0, ENABLE),
    (VTIVAR, ROUTES),
    (VTEIMS, 7),
];

// A transmit descriptor of 60 bytes at 0x6000, the last of its frame, which reports its status.
const DESCRIPTOR: [u8; 16] = [0, 0x60, 0, 0, 0, 0, 0, 0, 0x3C, 0, 0x30, 0x29, 0, 0, 0, 0];

// A frame of 60 bytes to an address that ends with `to`.
fn frame_to(to: u8) -> Result<FrameBuf, Fault> {
    let mut bytes = [0u8; 60];
    bytes[0] = 2;
    bytes[5] = to;
    bytes[6] = 2;
    bytes[11] = 0x11;
    bytes[12] = 8;
    FrameBuf::from_bytes(&bytes)
}

// A device of two functions that is watched for pool 0.
fn watch_pair(alloc: Global) -> Result<PoolView<FlatMem>, Fail> {
    let pool = PoolId::new(0).ok_or("a pool")?;
    Ok(PoolView::new(Device::new(alloc, memories(alloc, 2, 65536)?)?, pool))
}

// A function by itself with as much memory.
fn alone(alloc: Global) -> Result<Lone<FlatMem>, Fail> {
    let memory = FlatMem::new(alloc, 65536)?;
    Ok(Lone::new(alloc, memory, FrameLimit::standard())?)
}

// What kind of item an event leaves.
#[derive(Clone, Copy, Debug, PartialEq, Eq)]
enum Kind {
    Nothing,
    OwnEvent,
    NewSettings,
    Gone,
    Offer(bool),
}

fn kind_of(given: Option<Given<'_>>) -> Kind {
    match given {
        None => Kind::Nothing,
        Some(Given::OwnEvent(_)) => Kind::OwnEvent,
        Some(Given::NewSettings(_)) => Kind::NewSettings,
        Some(Given::Gone) => Kind::Gone,
        Some(Given::Offer(_, looped)) => Kind::Offer(looped),
    }
}

// Whether a frame from the wire is left for the pool, as it is and as one of the wire.
fn is_offered(watch: &mut PoolView<FlatMem>, frame: &FrameBuf, handover: &mut Handover) -> bool {
    match watch.step(Request::Wire(frame.as_frame()), handover) {
        Some(Given::Offer(given, false)) => given.bytes() == frame.bytes(),
        _ => false,
    }
}

// The messages that are seen, with the reply or alone; None where nothing is seen or the event was not done or sent.
fn messages(seen: &Option<Seen>) -> Option<u8> {
    match seen {
        Some(Seen::Replied(Outcome::Done | Outcome::Sent, vectors)) => Some(vectors.bits()),
        Some(Seen::Interrupted(vectors)) => Some(vectors.bits()),
        _ => None,
    }
}

// The bytes that were read, where bytes were.
fn read_of<'a>(seen: &Option<Seen>, room: &'a Room) -> Option<&'a [u8]> {
    match seen {
        Some(Seen::Replied(outcome, _)) => Some(room.read(*outcome)),
        _ => None,
    }
}

// An event of the function's own that is done, without messages.
fn does<R: Abort>(rt: &R, lone: &mut Lone<FlatMem>, request: Request<'_>, room: &mut Room) {
    let seen = lone.take(Given::OwnEvent(request), room);
    assert_equal(rt, messages(&seen), Some(0));
}

// The function is open, has its rings, and a descriptor that sends a frame of 60 bytes.
fn set_up<R: Abort>(rt: &R, lone: &mut Lone<FlatMem>, room: &mut Room) -> Result<(), Fail> {
    does(rt, lone, Request::Open(0), room);
    for (offset, value) in RINGS {
        does(rt, lone, Request::VfWrite(0, offset, value), room);
    }
    let frame = frame_to(0x11)?;
    for (at, bytes) in [(0x6000, frame.bytes()), (0x2000, DESCRIPTOR.as_slice())] {
        let written = Request::MemWrite(0, at, MemSlice::new(bytes)?);
        does(rt, lone, written, room);
    }
    does(rt, lone, Request::VfWrite(0, TDT0, 1), room);
    Ok(())
}

// Own settings by which pool 0 may receive and transmit.
fn both_ways(own: &mut Own) -> Result<(), Fail> {
    let mut tables = Tables::new();
    tables.write(PFVFRE, 1);
    tables.write(PFVFTE, 1);
    tables.own(PoolId::new(0).ok_or("a pool")?, own);
    Ok(())
}

/// Writes of the physical function leave settings where the pool's own differ, and the same write again leaves none.
#[test]
fn settings_that_differ_are_left(rt: HostRuntime) -> Result<(), Fail> {
    let mut watch = watch_pair(rt.alloc())?;
    let mut handover = Handover::new();
    for ((offset, value), left) in SETTINGS.into_iter().zip(LEFT) {
        let request = Request::PfWrite(offset, value);
        let want = if left {
            Kind::NewSettings
        } else {
            Kind::Nothing
        };
        assert_equal_at(
            &rt,
            kind_of(watch.step(request, &mut handover)),
            want,
            offset,
        );
        assert_equal_at(
            &rt,
            kind_of(watch.step(request, &mut handover)),
            Kind::Nothing,
            offset,
        );
    }
    for (request, kind) in [
        (Request::PfWrite(PFVFRE + 1, 0), Kind::Nothing),
        (Request::PfRead(PFVFRE), Kind::Nothing),
        (Request::PfReset, Kind::Gone),
        (Request::PfReset, Kind::Gone),
    ] {
        assert_equal(&rt, kind_of(watch.step(request, &mut handover)), kind);
    }
    Ok(())
}

/// The settings that a write leaves are those after it.
#[test]
fn settings_are_those_after_the_write(rt: HostRuntime) -> Result<(), Fail> {
    let mut watch = watch_pair(rt.alloc())?;
    let mut handover = Handover::new();
    match watch.step(Request::PfWrite(PFVFTE, 1), &mut handover) {
        Some(Given::NewSettings(own)) => {
            assert!(rt; own.may_transmit());
            assert!(rt; !own.may_receive());
        }
        _ => assert!(rt; false),
    }
    match watch.step(Request::PfWrite(PFVFTE, 2), &mut handover) {
        Some(Given::NewSettings(own)) => assert!(rt; !own.may_transmit()),
        _ => assert!(rt; false),
    }
    Ok(())
}

/// The pool's own events are left as they are, refused ones too; another's and frames that are not for it leave nothing.
#[test]
fn own_events_and_frames_are_left(rt: HostRuntime) -> Result<(), Fail> {
    let mut watch = watch_pair(rt.alloc())?;
    let mut handover = Handover::new();
    for (offset, value) in SETTINGS {
        watch.step(Request::PfWrite(offset, value), &mut handover);
    }
    for (request, kind) in [
        (Request::Flr(0), Kind::OwnEvent),
        (Request::Open(0), Kind::OwnEvent),
        (Request::Serve(0, Queue::Q1), Kind::OwnEvent),
        (Request::Open(1), Kind::Nothing),
        (Request::Open(64), Kind::Nothing),
        (Request::Serve(1, Queue::Q0), Kind::Nothing),
    ] {
        assert_equal(&rt, kind_of(watch.step(request, &mut handover)), kind);
    }
    let (mine, others, nobodys) = (frame_to(0x10)?, frame_to(0x11)?, frame_to(0x12)?);
    assert!(rt; is_offered(&mut watch, &mine, &mut handover));
    assert!(rt; !is_offered(&mut watch, &others, &mut handover));
    assert!(rt; !is_offered(&mut watch, &nobodys, &mut handover));
    // and as default pool it gets the last of them
    let default_pool = Request::PfWrite(PF_VT_CTL, 0);
    assert_equal(
        &rt,
        kind_of(watch.step(default_pool, &mut handover)),
        Kind::Nothing,
    );
    assert!(rt; is_offered(&mut watch, &nobodys, &mut handover));
    Ok(())
}

/// A function by itself sends and receives by its own settings alone, and has none after the reset of the device.
#[test]
fn a_function_by_itself(rt: HostRuntime) -> Result<(), Fail> {
    let mut lone = alone(rt.alloc())?;
    let mut room = Room::new();
    let mut own = Own::none();
    both_ways(&mut own)?;
    let serve = Given::OwnEvent(Request::Serve(0, Queue::Q0));
    let frame = frame_to(0x10)?;
    assert_equal(&rt, messages(&lone.take(serve, &mut room)), None);
    set_up(&rt, &mut lone, &mut room)?;
    // without settings it may neither send nor receive
    assert_equal(&rt, messages(&lone.take(serve, &mut room)), None);
    assert!(rt;
        lone.take(Given::Offer(frame.as_frame(), false), &mut room)
            .is_none()
    );
    assert!(rt; lone.take(Given::NewSettings(&own), &mut room).is_none());
    assert_equal(&rt, messages(&lone.take(serve, &mut room)), Some(2));
    assert_equal(
        &rt,
        messages(&lone.take(Given::Offer(frame.as_frame(), true), &mut room)),
        Some(1),
    );
    // there is one buffer, so a second frame has no room
    assert!(rt;
        lone.take(Given::Offer(frame.as_frame(), true), &mut room)
            .is_none()
    );
    assert!(rt; lone.take(Given::Gone, &mut room).is_none());
    set_up(&rt, &mut lone, &mut room)?;
    assert_equal(&rt, messages(&lone.take(serve, &mut room)), None);
    assert!(rt;
        lone.take(Given::Offer(frame.as_frame(), false), &mut room)
            .is_none()
    );
    Ok(())
}

// A watched device, and function 0 of it by itself.
#[derive(Drop)]
struct Followed {
    watch: PoolView<FlatMem>,
    lone: Lone<FlatMem>,
    handover: Handover,
    room: Room,
}

impl Followed {
    fn new(alloc: Global) -> Result<Followed, Fail> {
        Ok(Followed {
            watch: watch_pair(alloc)?,
            lone: alone(alloc)?,
            handover: Handover::default(),
            room: Room::new(),
        })
    }

    // What is seen of the function by itself in an event of the device.
    fn see(&mut self, request: Request<'_>) -> Option<Seen> {
        let Followed {
            watch,
            lone,
            handover,
            room,
        } = self;
        follow(watch, lone, request, handover, room)
    }
}

// What is seen of function 0 where a function has done something without messages.
fn done_by(pool: u8) -> Option<Seen> {
    if pool == 0 {
        Some(Seen::Replied(Outcome::Done, Vectors::none()))
    } else {
        None
    }
}

// Both functions get their rings.
fn open_both<R: Abort>(rt: &R, followed: &mut Followed) {
    for (offset, value) in SETTINGS {
        let seen = followed.see(Request::PfWrite(offset, value));
        assert_equal_at(rt, seen, None, offset);
    }
    for pool in [1, 0] {
        let seen = followed.see(Request::Open(pool));
        assert_equal_at(rt, seen, done_by(pool), pool);
        for (offset, value) in RINGS {
            let seen = followed.see(Request::VfWrite(pool, offset, value));
            assert_equal_at(rt, seen, done_by(pool), offset);
        }
    }
}

/// A frame of function 1 reaches the function by itself, which reads the write-back with the loopback bit.
#[test]
fn a_frame_of_another_function(rt: HostRuntime) -> Result<(), Fail> {
    let mut followed = Followed::new(rt.alloc())?;
    open_both(&rt, &mut followed);
    let frame = frame_to(0x10)?;
    for (at, bytes) in [(0x6000, frame.bytes()), (0x2000, DESCRIPTOR.as_slice())] {
        let written = Request::MemWrite(1, at, MemSlice::new(bytes)?);
        assert_equal_at(&rt, followed.see(written), None, at);
    }
    let told = Some(Seen::Interrupted(Vectors::from_bits(1)));
    for (request, due) in [
        (Request::VfWrite(1, TDT0, 1), None),
        (Request::Serve(1, Queue::Q0), told),
    ] {
        assert_equal(&rt, followed.see(request), due);
    }
    let written_back = [0, 0, 0, 0, 0, 0, 0, 0, 3, 0, 4, 0, 60, 0, 0, 0];
    let seen = followed.see(Request::MemRead(0, 0x1000, 16));
    let read = read_of(&seen, &followed.room);
    assert_equal(&rt, read, Some(written_back.as_slice()));
    Ok(())
}
