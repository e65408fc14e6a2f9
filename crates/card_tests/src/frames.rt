//! Frames from the wire, and a memory that is exchanged. (Guests that send each other frames are in the tests of the archive, by C and Rust.)
use crate::client::{Clients, Seen, arm_message, policy, pool};
use crate::compare::assert_equal;
use mapped_memory::LiveMem;
use script_support::registers::{
    ADVANCED, ENABLE, RDBAL0, RDLEN0, RDT0, RXDCTL0, SRRCTL0, VTEIMS, VTIVAR,
};
use std::alloc::Global;
use std::test::Fail;
use wire_frame::{Fault, FrameBuf, PoolId};

// RESET, and the reply that grants it.
const RESET: u32 = 1;

const GRANTED: u32 = 0x8000_0001;

// How many bytes of a guest's memory are mapped.
const SIZE: usize = 0x3000;

// Where a guest has its ring, and its frame or its buffer.
const RING: usize = 0x1000;

const BUFFER: usize = 0x2000;

// What a driver writes so that its function receives into one buffer, and gets vector 1 for it.
const RECEIVES: [(u32, u32); 7] = [
    (VTIVAR, 0x81),
    (VTEIMS, 2),
    (RDBAL0, RING as u32),
    (RDLEN0, 1024),
    (SRRCTL0, ADVANCED | 2),
    (RXDCTL0, ENABLE),
    (RDT0, 1),
];

// What a guest's memory has at first: a descriptor of a buffer.
fn receiving(bytes: &mut [u8; SIZE]) {
    bytes[RING..RING + 8].copy_from_slice(&[0, 0x20, 0, 0, 0, 0, 0, 0]);
}

// A guest with a memory of 16 KiB comes to a function, and its driver is answered.
fn come<'a>(
    clients: &mut Clients<'a>,
    pool: PoolId,
    bytes: &'a mut [u8],
    alloc: Global,
) -> Result<bool, Fail> {
    let mut memory = LiveMem::for_guest(alloc, 16384)?;
    let is_mapped = memory.map(0, bytes, false).is_ok();
    let has_come = clients.attach(pool, memory);
    let has_begun = clients.begin(pool) == Seen::Answered;
    Ok(is_mapped && has_come && has_begun && clients.ask(pool, RESET) == Some(GRANTED))
}

// It goes, and its memory's bytes come back.
fn go<'a>(clients: &mut Clients<'a>, pool: PoolId, alloc: Global) -> Result<&'a mut [u8], Fail> {
    Ok(
        clients
            .detach(pool, alloc)?
            .unmap(0)
            .ok_or("nothing was mapped")?,
    )
}

/// A frame that is too long is refused, and a broadcast stands in the memory that the guest has by then.
#[test]
fn a_frame_comes_from_the_wire(rt: HostRuntime) -> Result<(), Fail> {
    let alloc = rt.alloc();
    let first = pool(0)?;
    let (mut early, mut late) = ([0; SIZE], [0; SIZE]);
    receiving(&mut late);
    let mut clients = Clients::vacant(alloc, 1)?;
    clients.admit(first, &policy(1));
    let came = come(&mut clients, first, &mut early, alloc)?;
    assert_equal(&rt, came, true);
    assert_equal(&rt, clients.write_all(first, &RECEIVES), true);
    clients.say(first, &arm_message(2), 2);
    // its memory is exchanged for another of as many bytes
    let mut memory = LiveMem::for_guest(alloc, 16384)?;
    let is_mapped = memory.map(0, &mut late, false).is_ok();
    assert_equal(&rt, is_mapped, true);
    let mut former = clients.replace_memory(first, memory)?;
    let early = former.unmap(0).ok_or("nothing was mapped")?;
    // a frame of 1,519 bytes, and a broadcast of 60
    let frame = FrameBuf::from_bytes(&[0xFF; 1519])?;
    assert_equal(&rt, clients.wire(&frame), Err(Fault::BadFrame));
    assert_equal(&rt, clients.raised(), 0);
    let mut bytes = [0xFF; 60];
    bytes[12..].copy_from_slice(&[0x5A; 48]);
    let frame = FrameBuf::from_bytes(&bytes)?;
    assert_equal(&rt, clients.wire(&frame), Ok(()));
    assert_equal(&rt, clients.signal(first), 2);
    let late = go(&mut clients, first, alloc)?;
    assert_equal(&rt, late.get(BUFFER..BUFFER + 60), Some(bytes.as_slice()));
    assert_equal(&rt, early.iter().all(|byte| *byte == 0), true);
    Ok(())
}

// Three broadcasts behind one another, of 60, 1519 and 60 bytes, and where each ends.
const ENDS: [usize; 3] = [60, 1579, 1639];

fn three_frames() -> [u8; 1639] {
    let mut bytes = [0xFF; 1639];
    bytes[12..60].copy_from_slice(&[0x5A; 48]);
    bytes[60 + 12..1579].copy_from_slice(&[0x5B; 1507]);
    bytes[1579 + 12..].copy_from_slice(&[0x5C; 48]);
    bytes
}

// A guest that receives into two buffers, for which the frames come in one call or in three: how many were taken and refused, the vectors
// that were raised, and its memory as it is then.
fn receive_three(
    in_one_call: bool,
    memory: &mut [u8; SIZE],
    alloc: Global,
) -> Result<(usize, usize, u8), Fail> {
    let first = pool(0)?;
    receiving(memory);
    memory[RING + 16..RING + 24].copy_from_slice(&[0, 0x28, 0, 0, 0, 0, 0, 0]);
    let mut clients = Clients::vacant(alloc, 1)?;
    clients.admit(first, &policy(1));
    let is_there = come(&mut clients, first, memory, alloc)?
        && clients.write_all(first, &RECEIVES)
        && clients.write_all(first, &[(RDT0, 2)]);
    if !is_there {
        return Err("no guest came".into());
    }
    clients.say(first, &arm_message(2), 2);
    let bytes = three_frames();
    let (taken, refused) = if in_one_call {
        clients.wire_burst(&bytes, &ENDS)
    } else {
        let (mut taken, mut refused) = (0usize, 0usize);
        for of_one in [&bytes[..60], &bytes[60..1579], &bytes[1579..]] {
            match clients.wire(&FrameBuf::from_bytes(of_one)?) {
                Ok(()) => taken = taken.wrapping_add(1),
                Err(_) => refused = refused.wrapping_add(1),
            }
        }
        (taken, refused)
    };
    let told = clients.signal(first);
    let _memory = go(&mut clients, first, alloc)?;
    Ok((taken, refused, told))
}

/// Three frames in one call, of which the second is too long, are the same to a guest as three calls: it gets the first and the third.
#[test]
fn frames_come_in_one_call(rt: HostRuntime) -> Result<(), Fail> {
    let alloc = rt.alloc();
    let (mut burst, mut single) = ([0; SIZE], [0; SIZE]);
    let got = receive_three(true, &mut burst, alloc)?;
    assert_equal(&rt, got, (2, 1, 2));
    let due = receive_three(false, &mut single, alloc)?;
    assert_equal(&rt, got, due);
    assert_equal(&rt, burst == single, true);
    assert_equal(
        &rt,
        burst.get(BUFFER + 12..BUFFER + 60),
        Some([0x5A; 48].as_slice()),
    );
    let second = BUFFER + 0x800;
    assert_equal(
        &rt,
        burst.get(second + 12..second + 60),
        Some([0x5C; 48].as_slice()),
    );
    Ok(())
}
