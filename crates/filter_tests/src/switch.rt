//! Routes from outside: frames as tenants and the wire send them, under register words as a driver writes them.
use crate::compare::assert_equal;
use local_switch::*;
use pool_filter::Tables;
use script_support::registers::{MPSAR, PF_VT_CTL, PFDTXGSWC, PFVFRE, RAH, RAL, VLNCTRL, VMOLR};
use std::test::Fail;
use wire_frame::{FrameBuf, PoolId, PoolSet};

// Pools 3, 4 and 5 have the addresses 02:00:00:00:00:03 to 05 and take broadcast; all pools may receive.
fn three_tenants() -> Tables {
    let mut tables = Tables::new();
    for pool in 3..6u32 {
        tables.write(RAL + 8 * pool, 2);
        tables.write(RAH + 8 * pool, 0x8000_0000 + 256 * pool);
        tables.write(MPSAR + 8 * pool, 1 << pool);
        tables.write(VMOLR + 4 * pool, 0x0800_0000);
    }
    tables.write(PFVFRE, 0xFF);
    tables
}

fn frame_to(address: [u8; 6]) -> Result<FrameBuf, Fail> {
    let mut bytes = [0u8; 60];
    bytes[..6].copy_from_slice(&address);
    bytes[12] = 8;
    Ok(FrameBuf::from_bytes(&bytes)?)
}

const BROADCAST: [u8; 6] = [0xFF; 6];

const OF_POOL_3: [u8; 6] = [2, 0, 0, 0, 0, 3];

const OF_POOL_5: [u8; 6] = [2, 0, 0, 0, 0, 5];

const OF_NOBODY: [u8; 6] = [2, 0, 0, 0, 0, 0x77];

#[test]
fn routes_frames_of_the_wire(rt: HostRuntime) -> Result<(), Fail> {
    let mut tables = three_tenants();
    for (default, address, local) in [
        (0x2000_0000, BROADCAST, 0x38),
        (0x2000_0000, OF_POOL_3, 0x08),
        (0x2000_0000, OF_NOBODY, 0),
        // Pool 6 is the default pool, and then pool 9, which may not receive.
        (0x300, OF_NOBODY, 0x40),
        (0x300, OF_POOL_3, 0x08),
        (0x480, OF_NOBODY, 0),
    ] {
        tables.write(PF_VT_CTL, default);
        let route = route(&tables, Source::Wire, &frame_to(address)?);
        let local = PoolSet::from_bits(local);
        assert_equal(&rt, route, Route { local, wire: false });
    }
    Ok(())
}

#[test]
fn routes_frames_of_a_pool(rt: HostRuntime) -> Result<(), Fail> {
    let mut tables = three_tenants();
    let sender = PoolId::new(5).ok_or("a pool")?;
    // Pool 6 is the default pool, and takes no frames of pools.
    tables.write(PF_VT_CTL, 0x300);
    for (loopback, address, local, wire) in [
        (0, OF_POOL_3, 0, true),
        (0, BROADCAST, 0, true),
        (1, OF_POOL_3, 0x08, false),
        (1, OF_POOL_5, 0, false),
        (1, OF_NOBODY, 0, true),
        (1, BROADCAST, 0x18, true),
    ] {
        tables.write(PFDTXGSWC, loopback);
        let route = route(&tables, Source::Pool(sender), &frame_to(address)?);
        let local = PoolSet::from_bits(local);
        assert_equal(&rt, route, Route { local, wire });
    }
    // VLAN filtering holds of frames of pools too, and changes nothing of the wire.
    tables.write(VLNCTRL, 0x4000_0000);
    let route = route(&tables, Source::Pool(sender), &frame_to(OF_POOL_3)?);
    assert_equal(
        &rt,
        route,
        Route {
            local: PoolSet::none(),
            wire: false,
        },
    );
    Ok(())
}
