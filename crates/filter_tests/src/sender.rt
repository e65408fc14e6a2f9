//! Frames that pools try to send, and the checks that stop them.
use crate::compare::{assert_equal, assert_equal_at};
use anti_spoof::{honest, passes_anti_spoof};
use pool_filter::{Own, Tables};
use script_support::registers::{MPSAR, PFVFSPOOF, RAH, RAL, VFTA, VLVF, VLVFB, VMOLR};
use std::test::Fail;
use wire_frame::{FrameBuf, PoolId};

// A frame of 60 bytes to 02:00:00:00:00:04, with a VLAN tag or none.
fn frame_from(source: [u8; 6], tag: Option<u16>) -> Result<FrameBuf, Fail> {
    let mut bytes = [0u8; 60];
    bytes[0] = 2;
    bytes[5] = 4;
    bytes[6..12].copy_from_slice(&source);
    bytes[12] = 8;
    if let Some(tag) = tag {
        bytes[12] = 0x81;
        bytes[14] = (tag / 256) as u8;
        bytes[15] = (tag % 256) as u8;
        bytes[16] = 8;
    }
    Ok(FrameBuf::from_bytes(&bytes)?)
}

// Whether the pool may send frames from its own address, from another pool's, and from nobody's.
fn sources_of(tables: &Tables, pool: PoolId) -> Result<[bool; 3], Fail> {
    let own = frame_from([2, 0, 0, 0, 0, 2], None)?;
    let others = frame_from([2, 0, 0, 0, 0, 5], None)?;
    let nobodys = frame_from([2, 0, 0, 0, 0, 0x99], None)?;
    Ok([
        honest(tables, pool, &own),
        honest(tables, pool, &others),
        honest(tables, pool, &nobodys),
    ])
}

/// Pools 2 and 5 have an address each. While pool 2 is not checked, it may send from any source; while it is, from its own
/// alone. That pool 5 is not checked is of no matter to pool 2.
#[test]
fn sources_are_checked(rt: HostRuntime) -> Result<(), Fail> {
    let mut tables = Tables::new();
    for (offset, value) in [
        (RAL + 8 * 2, 0x2),
        (RAH + 8 * 2, 0x8000_0200),
        (MPSAR + 8 * 2, 0x4),
        (RAL + 8 * 5, 0x2),
        (RAH + 8 * 5, 0x8000_0500),
        (MPSAR + 8 * 5, 0x20),
    ] {
        tables.write(offset, value);
    }
    let second = PoolId::new(2).ok_or("no such pool")?;
    let fifth = PoolId::new(5).ok_or("no such pool")?;
    assert_equal(&rt, sources_of(&tables, second)?, [true, true, true]);
    tables.write(PFVFSPOOF, 0x4);
    assert_equal(&rt, sources_of(&tables, second)?, [true, false, false]);
    assert_equal(&rt, sources_of(&tables, fifth)?, [true, true, true]);
    Ok(())
}

/// Pool 5 is checked for its VLANs alone. It has VLAN 100 once an entry has its bit and the VLAN table has the id, and may
/// send untagged frames once it takes them.
#[test]
fn vlans_are_checked(rt: HostRuntime) -> Result<(), Fail> {
    let pool = PoolId::new(5).ok_or("no such pool")?;
    let source = [2, 0, 0, 0, 0, 0x99];
    let tagged = frame_from(source, Some(100))?;
    let untagged = frame_from(source, None)?;
    let mut tables = Tables::new();
    assert!(rt; honest(&tables, pool, &tagged));
    for (offset, value, tagged_passes, untagged_passes) in [
        (PFVFSPOOF, 0x2000, false, false),
        (VLVF, 0x8000_0064, false, false),
        (VLVFB, 0x20, false, false),
        (VFTA + 4 * 3, 0x10, true, false),
        (VMOLR + 4 * 5, 0x0100_0000, true, true),
        (VFTA + 4 * 3, 0x20, false, true),
    ] {
        tables.write(offset, value);
        assert_equal_at(&rt, honest(&tables, pool, &tagged), tagged_passes, offset);
        assert_equal_at(
            &rt,
            honest(&tables, pool, &untagged),
            untagged_passes,
            offset,
        );
    }
    Ok(())
}

/// The same check on own settings that are held as a value: pool 5 has 02:00:00:00:00:05 and VLAN 100, and takes no untagged
/// frames. Without checks all frames may be sent, then those from its address, then moreover in its VLAN alone.
#[test]
fn held_settings_are_checked(rt: HostRuntime) -> Result<(), Fail> {
    let pool = PoolId::new(5).ok_or("no such pool")?;
    let mut tables = Tables::new();
    for (offset, value) in [
        (RAL + 8 * 5, 0x2),
        (RAH + 8 * 5, 0x8000_0500),
        (MPSAR + 8 * 5, 0x20),
        (VLVF, 0x8000_0064),
        (VLVFB, 0x20),
        (VFTA + 4 * 3, 0x10),
    ] {
        tables.write(offset, value);
    }
    let frames = [
        frame_from([2, 0, 0, 0, 0, 5], Some(0x2064))?,
        frame_from([2, 0, 0, 0, 0, 5], Some(101))?,
        frame_from([2, 0, 0, 0, 0, 5], None)?,
        frame_from([2, 0, 0, 0, 0, 0x99], Some(100))?,
    ];
    let mut own = Own::none();
    for (checks, passes) in [
        (0x0, [true, true, true, true]),
        (0x20, [true, true, true, false]),
        (0x2000, [true, false, false, true]),
        (0x2020, [true, false, false, false]),
    ] {
        tables.write(PFVFSPOOF, checks);
        tables.own(pool, &mut own);
        let [tagged, elsewhere, untagged, nobodys] = &frames;
        let found = [
            passes_anti_spoof(&own, tagged),
            passes_anti_spoof(&own, elsewhere),
            passes_anti_spoof(&own, untagged),
            passes_anti_spoof(&own, nobodys),
        ];
        assert_equal_at(&rt, found, passes, checks);
    }
    Ok(())
}
