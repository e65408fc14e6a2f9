//! Guests that come to a device and go, with memory of any size.

use crate::compare::assert_equal;
use device::guests::MOST_MEMORY;
use device::{Device, Event, Queue, Reply, Request, Room};
use live_memory::{Dma, Shared};
use live_run::run_live;
use mapped_memory::LiveMem;
use offload::Offloads;
use script_support::registers::{
    ENABLE, PFVFTE, TDBAH0, TDBAL0, TDH0, TDLEN0, TDT0, TXDCTL0, VTEICR, VTEICS, VTEIMS,
    VTIVAR_MISC,
};
use std::alloc::Global;
use std::test::Fail;
use wire_frame::{Fault, FrameBuf};

// Where a guest's memory above 4 GiB begins, and in it a ring of transmit descriptors and a frame.
const HIGH: u64 = 0x1_0000_0000;

const RING: usize = 0x800;

const FRAME: usize = 0xC00;

// A device over so many vacant functions.
fn vacant_device<'a>(alloc: Global, functions: usize) -> Result<Device<LiveMem<'a>, Shared>, Fail> {
    let mut memories = Vec::new(alloc);
    for _ in 0..functions {
        memories.push(LiveMem::for_guest(alloc, 0)?)?;
    }
    Ok(Device::for_guests(alloc, memories, 1518, Offloads::none())?)
}

// Memory with a descriptor at RING, of a frame of 60 bytes at FRAME.
fn memory_to_send(alloc: Global) -> Result<Vec<u8>, Fail> {
    let mut all = Vec::new(alloc);
    all.resize(4096, 0)?;
    let places = [
        (RING + 1, 0x0C),
        (RING + 4, 1),
        (RING + 8, 60),
        (RING + 10, 0x30),
        (RING + 11, 0x29),
        (FRAME, 2),
        (FRAME + 6, 2),
        (FRAME + 12, 8),
        (FRAME + 59, 0xAB),
    ];
    for (place, byte) in places {
        if let Some(cell) = all.get_mut(place) {
            *cell = byte;
        }
    }
    Ok(all)
}

// What a driver writes to send the descriptor.
fn sending() -> [Event; 7] {
    [
        Event::PfWrite(PFVFTE, 1),
        Event::VfWrite(0, TDBAL0, RING as u32),
        Event::VfWrite(0, TDBAH0, 1),
        Event::VfWrite(0, TDLEN0, 128),
        Event::VfWrite(0, TXDCTL0, ENABLE),
        Event::VfWrite(0, TDT0, 1),
        Event::Serve(0, Queue::Q0),
    ]
}

#[test]
fn a_guest_sends_from_above_4_gib(rt: HostRuntime) -> Result<(), Fail> {
    let alloc = rt.alloc();
    let mut cells = memory_to_send(alloc)?;
    let due = memory_to_send(alloc)?;
    let mut memory = LiveMem::for_guest(alloc, MOST_MEMORY)?;
    memory.map(HIGH, cells.as_mut_slice(), false)?;
    let mut device = vacant_device(alloc, 2)?;
    let came = device.attach(0, memory).is_ok();
    assert_equal(
        &rt,
        (came, size_of_first(&device)),
        (true, Some(MOST_MEMORY)),
    );
    let answers = run_live(&mut device, alloc, &sending())?;
    let reply = answers.last().map(|answer| answer.reply.copy());
    assert_equal(&rt, reply, Some(Reply::Sent));
    let mut room = FrameBuf::blank();
    let sent = device.wire_at(0, &mut room).map(|frame| frame.bytes());
    assert_equal(&rt, sent, due.as_slice().get(FRAME..FRAME + 60));
    Ok(())
}

// How many bytes function 0 has.
fn size_of_first(device: &Device<LiveMem<'_>, Shared>) -> Option<u64> {
    if device.functions() == 0 {
        return None;
    }
    Some(device.memory_size(0))
}

// The word that a register of function 0 reads.
fn word(device: &mut Device<LiveMem<'_>, Shared>, offset: u32) -> Option<u32> {
    device.vf_read(0, offset).ok()
}

// The eight bytes of function 0's memory from an address on.
fn bytes_at(device: &mut Device<LiveMem<'_>, Shared>, at: u64) -> Option<[u8; 8]> {
    let mut room = Room::new();
    let response = device.take_live(Request::MemRead(0, at, 8), &mut room);
    let read = room.read(response.outcome);
    if read.len() != 8 {
        return None;
    }
    let mut bytes = [0; 8];
    bytes.copy_from_slice(read);
    Some(bytes)
}

// What a live read by name answers, and what then stands where two bytes of 7 stood.
fn two_at(
    device: &mut Device<LiveMem<'_>, Shared>,
    pool: u8,
    at: u64,
) -> (Result<(), Fault>, [u8; 2]) {
    let mut out = [7; 2];
    let done = device.mem_read_live(pool, at, &mut out);
    (done, out)
}

// The same of many bytes from HIGH on: the first and the last that then stand there.
fn many_at(
    alloc: Global,
    device: &mut Device<LiveMem<'_>, Shared>,
    pool: u8,
    count: usize,
) -> Result<(Result<(), Fault>, Option<u8>, Option<u8>), Fail> {
    let mut out = Vec::new(alloc);
    out.resize(count, 7)?;
    let done = device.mem_read_live(pool, HIGH, out.as_mut_slice());
    Ok((done, out.first().copied(), out.last().copied()))
}

// Bytes of a region, of its end with a hole behind it, and what is refused, in the order of the refusals.
#[test]
fn a_live_read_fills_the_callers_bytes(rt: HostRuntime) -> Result<(), Fail> {
    let alloc = rt.alloc();
    let mut cells = memory_to_send(alloc)?;
    let mut memory = LiveMem::for_guest(alloc, MOST_MEMORY)?;
    memory.map(HIGH, cells.as_mut_slice(), false)?;
    let mut device = vacant_device(alloc, 2)?;
    assert_equal(&rt, device.attach(0, memory).is_ok(), true);
    let last = HIGH + FRAME as u64 + 59;
    assert_equal(&rt, two_at(&mut device, 0, last), (Ok(()), [0xAB, 0]));
    assert_equal(&rt, two_at(&mut device, 0, 0), (Ok(()), [0, 0]));
    assert_equal(
        &rt,
        two_at(&mut device, 0, MOST_MEMORY - 2),
        (Ok(()), [0, 0]),
    );
    for (pool, at, fault) in [
        (0, MOST_MEMORY - 1, Fault::BadRange),
        (0, u64::MAX, Fault::BadRange),
        (1, 0, Fault::NotOpen),
        (2, 0, Fault::NoSuchVf),
    ] {
        assert_equal(&rt, two_at(&mut device, pool, at), (Err(fault), [7, 7]));
    }
    for (pool, count, seen) in [
        (0, 2048, (Ok(()), Some(0), Some(0))),
        (0, 2049, (Err(Fault::TooLong), Some(7), Some(7))),
        (1, 2049, (Err(Fault::NotOpen), Some(7), Some(7))),
    ] {
        assert_equal(&rt, many_at(alloc, &mut device, pool, count)?, seen);
    }
    Ok(())
}

// A guest goes: its memory, or `None` where none is handed out.
fn leave<'a>(
    device: &mut Device<LiveMem<'a>, Shared>,
    alloc: Global,
    pool: u8,
) -> Result<Option<LiveMem<'a>>, Fail> {
    let vacancy = LiveMem::for_guest(alloc, 0)?;
    match device.detach(pool, vacancy) {
        Ok(kept) => Ok(Some(kept.into_memory())),
        Err(_) => Ok(None),
    }
}

// The first guest sets registers, turns a queue on with a descriptor to take, and leaves a cause behind. The next guest finds
// every register initial, and nothing is done for the queue of the last one.
#[test]
fn the_next_guest_finds_nothing_of_the_last(rt: HostRuntime) -> Result<(), Fail> {
    let alloc = rt.alloc();
    let mut device = vacant_device(alloc, 1)?;
    let first = LiveMem::for_guest(alloc, 2 * HIGH)?;
    assert_equal(&rt, device.attach(0, first).is_ok(), true);
    let events = [
        Event::PfWrite(PFVFTE, 1),
        Event::VfWrite(0, TDBAL0, RING as u32),
        Event::VfWrite(0, TDBAH0, 1),
        Event::VfWrite(0, TDLEN0, 128),
        Event::VfWrite(0, TXDCTL0, ENABLE),
        Event::VfWrite(0, TDT0, 1),
        Event::VfWrite(0, VTEIMS, 7),
        Event::VfWrite(0, VTEICS, 7),
    ];
    let answers = run_live(&mut device, alloc, &events)?;
    assert_equal(&rt, answers.len(), 8);
    let before = (word(&mut device, TDT0), word(&mut device, TDBAH0));
    assert_equal(&rt, before, (Some(1), Some(1)));
    let size = leave(&mut device, alloc, 0)?.map(|memory| memory.extent());
    assert_equal(&rt, size, Some(2 * HIGH));
    let closed = (word(&mut device, TDT0), size_of_first(&device));
    assert_equal(&rt, closed, (None, Some(0)));
    let next = LiveMem::for_guest(alloc, 4096)?;
    assert_equal(&rt, device.attach(0, next).is_ok(), true);
    let registers = [TDBAL0, TDBAH0, TDLEN0, TDH0, TDT0, TXDCTL0, VTEICR, VTEIMS];
    for register in registers {
        assert_equal(&rt, word(&mut device, register), Some(0));
    }
    let served = run_live(&mut device, alloc, &[Event::Serve(0, Queue::Q0)])?;
    let reply = served.last().map(|answer| answer.reply.copy());
    assert_equal(&rt, reply, Some(Reply::Idle));
    assert_equal(&rt, bytes_at(&mut device, 0), Some([0; 8]));
    assert_equal(&rt, bytes_at(&mut device, HIGH), None);
    Ok(())
}

// The host raises the cause "other" of a function, by the vector that its driver gave it: a message where that is enabled, and none where the
// cause stands already. A function that is closed, or isn't there, gets none.
#[test]
fn a_host_raises_the_cause_other(rt: HostRuntime) -> Result<(), Fail> {
    let alloc = rt.alloc();
    let mut device = vacant_device(alloc, 2)?;
    let memory = LiveMem::for_guest(alloc, 4096)?;
    assert_equal(&rt, device.attach(1, memory).is_ok(), true);
    let rows = [(0, 0), (2, 0), (64, 0), (255, 0), (1, 0)];
    for (pool, due) in rows {
        assert_equal(&rt, device.raise_other(pool).bits(), due);
    }
    let events = [
        Event::VfWrite(1, VTIVAR_MISC, 0x82),
        Event::VfWrite(1, VTEIMS, 4),
    ];
    assert_equal(&rt, run_live(&mut device, alloc, &events)?.len(), 2);
    let raised = (device.raise_other(1).bits(), device.raise_other(1).bits());
    assert_equal(&rt, raised, (4, 0));
    assert_equal(&rt, device.vf_read(1, VTEICR), Ok(4));
    Ok(())
}

// Why a memory of so many bytes can't be put in place of a function's own, if it can't.
fn not_replaced(
    device: &mut Device<LiveMem<'_>, Shared>,
    alloc: Global,
    pool: u8,
    size: u64,
) -> Result<Option<Fault>, Fail> {
    let memory = LiveMem::for_guest(alloc, size)?;
    match device.replace_memory(pool, memory) {
        Ok(_) => Ok(None),
        Err(back) => Ok(Some(back.why)),
    }
}

// A queue is on, with its ring in a hole, as the memory gets a region there between two events: the device sends what stands in it. No
// register changes meanwhile.
#[test]
fn a_region_comes_while_a_guest_runs(rt: HostRuntime) -> Result<(), Fail> {
    let alloc = rt.alloc();
    let mut cells = memory_to_send(alloc)?;
    let due = memory_to_send(alloc)?;
    let mut mapped = LiveMem::for_guest(alloc, MOST_MEMORY)?;
    mapped.map(HIGH, cells.as_mut_slice(), false)?;
    let mut device = vacant_device(alloc, 2)?;
    let memory = LiveMem::for_guest(alloc, MOST_MEMORY)?;
    assert_equal(&rt, device.attach(0, memory).is_ok(), true);
    let before = [
        Event::PfWrite(PFVFTE, 1),
        Event::VfWrite(0, TDBAL0, RING as u32),
        Event::VfWrite(0, TDBAH0, 1),
        Event::VfWrite(0, TDLEN0, 128),
        Event::VfWrite(0, TXDCTL0, ENABLE),
    ];
    assert_equal(&rt, run_live(&mut device, alloc, &before)?.len(), 5);
    assert_equal(&rt, bytes_at(&mut device, HIGH + 8), Some([0; 8]));
    assert_equal(&rt, device.replace_memory(0, mapped).is_ok(), true);
    let registers = (word(&mut device, TXDCTL0), word(&mut device, TDBAH0));
    assert_equal(&rt, registers, (Some(ENABLE), Some(1)));
    let after = [Event::VfWrite(0, TDT0, 1), Event::Serve(0, Queue::Q0)];
    let answers = run_live(&mut device, alloc, &after)?;
    let reply = answers.last().map(|answer| answer.reply.copy());
    assert_equal(&rt, reply, Some(Reply::Sent));
    let mut room = FrameBuf::blank();
    let sent = device.wire_at(0, &mut room).map(|frame| frame.bytes());
    assert_equal(&rt, sent, due.as_slice().get(FRAME..FRAME + 60));
    Ok(())
}

// Another memory of the same size takes the place of a guest's, and no register changes.
#[test]
fn a_memory_is_replaced_by_one_of_its_size(rt: HostRuntime) -> Result<(), Fail> {
    let alloc = rt.alloc();
    let mut device = vacant_device(alloc, 2)?;
    let memory = LiveMem::for_guest(alloc, 4096)?;
    assert_equal(&rt, device.attach(0, memory).is_ok(), true);
    let answers = run_live(&mut device, alloc, &[Event::VfWrite(0, TDBAH0, 1)])?;
    assert_equal(&rt, answers.len(), 1);
    let rows = [
        (0, 4096, None),
        (0, 4095, Some(Fault::BadMake)),
        (0, 4097, Some(Fault::BadMake)),
        (1, 0, None),
        (1, 4096, Some(Fault::BadMake)),
        (2, 0, Some(Fault::NoSuchVf)),
        (255, 4096, Some(Fault::NoSuchVf)),
    ];
    for (pool, size, due) in rows {
        assert_equal(&rt, not_replaced(&mut device, alloc, pool, size)?, due);
    }
    assert_equal(&rt, word(&mut device, TDBAH0), Some(1));
    assert_equal(&rt, size_of_first(&device), Some(4096));
    Ok(())
}

// Why a guest with so much memory can't come to a function, and whether its memory came back as it was.
fn refused(
    device: &mut Device<LiveMem<'_>, Shared>,
    alloc: Global,
    pool: u8,
    size: u64,
) -> Result<(Option<Fault>, bool), Fail> {
    let memory = LiveMem::for_guest(alloc, size)?;
    match device.attach(pool, memory) {
        Ok(_) => Ok((None, false)),
        Err(back) => Ok((Some(back.why), back.memory.extent() == size)),
    }
}

#[test]
fn says_why_a_guest_cant_come(rt: HostRuntime) -> Result<(), Fail> {
    let alloc = rt.alloc();
    let mut device = vacant_device(alloc, 2)?;
    let rows = [
        (2, 4096, (Some(Fault::NoSuchVf), true)),
        (255, 0, (Some(Fault::NoSuchVf), true)),
        (1, 0, (Some(Fault::BadMake), true)),
        (1, 1, (None, false)),
        (1, 4096, (Some(Fault::AlreadyOpen), true)),
        (1, 0, (Some(Fault::AlreadyOpen), true)),
        (0, MOST_MEMORY, (None, false)),
    ];
    for (pool, size, due) in rows {
        assert_equal(&rt, refused(&mut device, alloc, pool, size)?, due);
    }
    // nobody goes from a function that isn't there, or is vacant
    let absent = leave(&mut device, alloc, 2)?.is_none();
    let size = leave(&mut device, alloc, 1)?.map(|memory| memory.extent());
    let again = leave(&mut device, alloc, 1)?.is_none();
    assert_equal(&rt, (absent, size, again), (true, Some(1), true));
    // a closed function keeps its guest's memory until it goes
    let closed = (device.end(0), size_of_first(&device));
    assert_equal(&rt, closed, (Ok(()), Some(MOST_MEMORY)));
    let still = refused(&mut device, alloc, 0, 4096)?;
    assert_equal(&rt, still, (Some(Fault::AlreadyOpen), true));
    Ok(())
}

// The fault of a device for guests over memories of these sizes.
fn make_fault(alloc: Global, sizes: &[u64], limit: u16) -> Result<Option<Fault>, Fail> {
    let mut memories = Vec::new(alloc);
    for size in sizes {
        memories.push(LiveMem::for_guest(alloc, *size)?)?;
    }
    Ok(Device::for_guests(alloc, memories, limit, Offloads::all()).err())
}

#[test]
fn says_why_a_device_for_guests_isnt_made(rt: HostRuntime) -> Result<(), Fail> {
    let alloc = rt.alloc();
    let rows: [(&[u64], u16, Option<Fault>); 6] = [
        (&[], 1518, Some(Fault::BadMake)),
        (&[0; 65], 1518, Some(Fault::BadMake)),
        (&[0], 1517, Some(Fault::BadMake)),
        (&[0], 9019, Some(Fault::BadMake)),
        (&[0, 1, 4097, MOST_MEMORY], 9018, None),
        (&[0; 64], 1518, None),
    ];
    for (sizes, limit, due) in rows {
        assert_equal(&rt, make_fault(alloc, sizes, limit)?, due);
    }
    let larger = LiveMem::for_guest(alloc, MOST_MEMORY + 1).err();
    assert_equal(&rt, larger, Some(Fault::BadMake));
    Ok(())
}
