use super::*;
use crate::compare::assert_equal;
use script_support::registers::{PFVFRE, VFLINKS, VMOLR, VTEICS, VTIVAR};

// All functions open, each with one receive descriptor, whose message is that of the vector.
fn open_all<R: Abort, M: GuestMem>(
    rt: &R,
    history: &mut History,
    device: &mut Device<M>,
    vector: u32,
) -> Result<(), Fail> {
    let mut room = Room::new();
    // both words of the receive enables
    for offset in [PFVFRE, PFVFRE + 4] {
        let enable = Request::PfWrite(offset, 0xFFFF_FFFF);
        keep(rt, history, device, Caller::Driver, enable, &mut room);
    }
    let descriptor = MemSlice::new(&[0, 4])?;
    for pool in 0..64u8 {
        let open = Request::Open(pool);
        keep(rt, history, device, Caller::Service, open, &mut room);
        let write = Request::MemWrite(pool, 0, descriptor);
        keep(rt, history, device, port_of(pool), write, &mut room);
        for (offset, value) in RECEIVE {
            let value = if offset == VTIVAR {
                0x80 | vector
            } else {
                value
            };
            let write = Request::VfWrite(pool, offset, value);
            keep(rt, history, device, port_of(pool), write, &mut room);
        }
    }
    Ok(())
}

// Makes the pools accept broadcast frames.
fn accept_broadcast<R: Abort, M: GuestMem>(
    rt: &R,
    history: &mut History,
    device: &mut Device<M>,
    pools: &[u8],
) {
    let mut room = Room::new();
    for pool in pools {
        let accept = Request::PfWrite(VMOLR + 4 * u32::from(*pool), 0x0800_0000);
        keep(rt, history, device, Caller::Driver, accept, &mut room);
    }
}

#[test]
fn a_twin_gives_messages_to_any_pools(rt: HostRuntime) -> Result<(), Fail> {
    let mut all = [0; 64];
    for pool in 0..64 {
        all[pool] = pool as u8;
    }
    let broadcast = FrameBuf::from_bytes(&[0xFF; 60])?;
    let mut room = Room::new();
    let pools: [&[u8]; 4] = [&[], &[0], &[5, 63], &all];
    for (vector, pools) in [
        (0, pools[0]),
        (0, pools[1]),
        (1, pools[2]),
        (2, pools[2]),
        (0, pools[3]),
        (2, pools[3]),
    ] {
        let mut device = device_of_64(rt.alloc())?;
        let mut history = History::new(rt.alloc(), 1000)?;
        open_all(&rt, &mut history, &mut device, vector)?;
        accept_broadcast(&rt, &mut history, &mut device, pools);
        let wire = Request::Wire(broadcast.as_frame());
        let pump = Caller::Pump;
        let told = keep(&rt, &mut history, &mut device, pump, wire, &mut room).messages;
        assert_equal(
            &rt,
            told.pools_with(vector as u8).bits().count_ones() as usize,
            pools.len(),
        );
        assert_equal(&rt, told.pools(), told.pools_with(vector as u8));
        // all three vectors of one pool
        let set = Request::VfWrite(7, VTEICS, 7);
        let told = keep(&rt, &mut history, &mut device, port_of(7), set, &mut room).messages;
        assert_equal(&rt, told.pools().bits(), 1 << 7);
        let mut twin = device_of_64(rt.alloc())?;
        assert_equal(&rt, first_other(&history, &mut twin, &mut room), None);
    }
    Ok(())
}

#[test]
fn a_device_whose_function_is_open_gives_another_answer(rt: HostRuntime) -> Result<(), Fail> {
    let mut device = device_of_64(rt.alloc())?;
    let mut history = History::new(rt.alloc(), 4)?;
    let mut room = Room::new();
    for request in [
        Request::PfRead(0),
        Request::Open(0),
        Request::VfRead(0, VFLINKS),
    ] {
        let service = Caller::Service;
        keep(&rt, &mut history, &mut device, service, request, &mut room);
    }
    let mut other = device_of_64(rt.alloc())?;
    assert_equal(&rt, other.open(0), Ok(()));
    assert_equal(&rt, first_other(&history, &mut other, &mut room), Some(1));
    // and one without that function too
    let mut smaller = Device::new(rt.alloc(), memories(rt.alloc(), 1, 4096)?)?;
    assert_equal(&rt, first_other(&history, &mut smaller, &mut room), None);
    assert_equal(&rt, smaller.end(0), Ok(()));
    assert!(rt; 2 < history.len());
    assert!(rt; !history.gives(2, &mut smaller, &mut room));
    history.step(1, &mut smaller, &mut room);
    assert!(rt; history.gives(2, &mut smaller, &mut room));
    Ok(())
}
