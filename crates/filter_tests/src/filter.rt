//! Words as a driver writes them, frames as they come from the wire, and which pools take them.
use crate::compare::{assert_equal, assert_equal_at};
use bitflags::Flags;
use pool_filter::{Own, PoolFlags, Tables, accept_mask};
use script_support::registers::{
    MCSTCTRL, MPSAR, PF_VT_CTL, PFDTXGSWC, PFVFRE, PFVFSPOOF, PFVFTE, RAH, RAL, VFTA, VLNCTRL,
    VLVF, VLVFB, VMOLR, VMVIR,
};
use std::process::Abort;
use std::test::Fail;
use wire_frame::{FrameBuf, Mac, PoolId, PortVlan, Vid};

// Settings as a device is made, with some words written.
fn tables_with(words: &[(u32, u32)]) -> Tables {
    let mut tables = Tables::new();
    for &(offset, value) in words {
        tables.write(offset, value);
    }
    tables
}

// A frame of 60 bytes from 02:00:00:00:00:99, with a VLAN tag or none.
fn frame_to(destination: [u8; 6], tag: Option<u16>) -> Result<FrameBuf, Fail> {
    let mut bytes = [0u8; 60];
    bytes[..6].copy_from_slice(&destination);
    bytes[6] = 2;
    bytes[11] = 0x99;
    bytes[12] = 8;
    if let Some(tag) = tag {
        bytes[12] = 0x81;
        bytes[14] = (tag / 256) as u8;
        bytes[15] = (tag % 256) as u8;
        bytes[16] = 8;
    }
    Ok(FrameBuf::from_bytes(&bytes)?)
}

fn pool(number: u8) -> Result<PoolId, Fail> {
    Ok(PoolId::new(number).ok_or("no such pool")?)
}

/// Two valid entries, the first and the last, hold one address for pools 1 and 34.
#[test]
fn entries_with_one_address_are_united(rt: HostRuntime) -> Result<(), Fail> {
    let tables = tables_with(&[
        (RAL, 0x2),
        (RAH, 0x8000_7700),
        (MPSAR, 0x2),
        (RAL + 8 * 127, 0x2),
        (RAH + 8 * 127, 0x8000_7700),
        (MPSAR + 8 * 127 + 4, 0x4),
    ]);
    let address = [2, 0, 0, 0, 0, 0x77];
    assert_equal(
        &rt,
        accept_mask(&tables, &frame_to(address, None)?),
        0x4_0000_0002,
    );
    assert_equal(
        &rt,
        accept_mask(&tables, &frame_to([2, 0, 0, 0, 0, 0x78], None)?),
        0,
    );
    assert_equal(&rt, tables.pools_of(Mac(address)), 0x4_0000_0002);
    assert!(rt; tables.is_held(Mac(address)));
    assert!(rt; tables.has_address(pool(34)?, Mac(address)));
    assert!(rt; !tables.has_address(pool(2)?, Mac(address)));
    Ok(())
}

/// Broadcast is for the pools with BAM, here 3, and for no pool with all other flags, here 4.
#[test]
fn broadcast_by_its_flag(rt: HostRuntime) -> Result<(), Fail> {
    let tables = tables_with(&[(VMOLR + 4 * 3, 0x0800_0000), (VMOLR + 4 * 4, 0x1300_0000)]);
    assert_equal(&rt, accept_mask(&tables, &frame_to([0xFF; 6], None)?), 0x8);
    assert_equal(
        &rt,
        accept_mask(&tables, &frame_to([1, 0, 0x5E, 0, 0, 1], None)?),
        0x10,
    );
    assert_equal(
        &rt,
        accept_mask(&tables, &frame_to([2, 0, 0, 0, 0, 3], None)?),
        0,
    );
    assert!(rt; tables.flags(pool(3)?).contains(PoolFlags::BAM));
    assert!(rt; !tables.flags(pool(4)?).contains(PoolFlags::BAM));
    Ok(())
}

/// The words of VMOLR of pools 31, 32 and 33, of which some are written twice, and of pools 0 and 63: the pools with AUPE,
/// ROMPE, BAM and MPE after each write. The flags are bits 24, 25, 27 and 28; no other bit of the word is one.
#[test]
fn flags_of_neighbours(rt: HostRuntime) {
    let mut tables = Tables::new();
    let steps = [
        (
            VMOLR + 4 * 32,
            0x0900_0000,
            [0x1_0000_0000, 0, 0x1_0000_0000, 0],
        ),
        (
            VMOLR + 4 * 31,
            0x1200_0000,
            [0x1_0000_0000, 0x8000_0000, 0x1_0000_0000, 0x8000_0000],
        ),
        (
            VMOLR + 4 * 33,
            0x1B00_0000,
            [0x3_0000_0000, 0x2_8000_0000, 0x3_0000_0000, 0x2_8000_0000],
        ),
        (
            VMOLR + 4 * 32,
            0x1000_0000,
            [0x2_0000_0000, 0x2_8000_0000, 0x2_0000_0000, 0x3_8000_0000],
        ),
        (
            VMOLR + 4 * 31,
            0x0,
            [0x2_0000_0000, 0x2_0000_0000, 0x2_0000_0000, 0x3_0000_0000],
        ),
        (VMOLR + 4 * 33, 0xE4FF_FFFF, [0, 0, 0, 0x1_0000_0000]),
        (VMOLR, 0x0800_0000, [0, 0, 0x1, 0x1_0000_0000]),
        (
            VMOLR + 4 * 63,
            0x0800_0000,
            [0, 0, 0x8000_0000_0000_0001, 0x1_0000_0000],
        ),
        (
            VLVF,
            0x1B00_0000,
            [0, 0, 0x8000_0000_0000_0001, 0x1_0000_0000],
        ),
    ];
    for (offset, value, want) in steps {
        tables.write(offset, value);
        let masks = [
            tables.untagged_pools(),
            tables.hashed_pools(),
            tables.broadcast_pools(),
            tables.multicast_pools(),
        ];
        assert_eq!(rt; masks, want, "after {offset} was {value}");
    }
}

/// The bit of the multicast table for an address under each value of MO, worked out by hand from its last two bytes: 0x00
/// and 0xFB, then 0x12 and 0x03. Pool 1 has ROMPE, and takes the frame where the table is on.
#[test]
fn multicast_by_its_hash(rt: HostRuntime) -> Result<(), Fail> {
    let hashes = [
        (0, [1, 0, 0x5E, 0, 0, 0xFB], 0x53F4, 0x0001_0000),
        (0, [1, 0, 0x5E, 0, 0x12, 3], 0x5204, 0x0002_0000),
        (1, [1, 0, 0x5E, 0, 0x12, 3], 0x520C, 0x0000_0004),
        (2, [1, 0, 0x5E, 0, 0x12, 3], 0x5218, 0x0000_0010),
        (3, [1, 0, 0x5E, 0, 0x12, 3], 0x5260, 0x0004_0000),
    ];
    for (offset_bits, address, word, bit) in hashes {
        let mut tables = tables_with(&[(VMOLR + 4, 0x0200_0000), (MCSTCTRL, 4 + offset_bits)]);
        let frame = frame_to(address, None)?;
        assert_equal_at(&rt, accept_mask(&tables, &frame), 0, offset_bits);
        tables.write(word, bit);
        assert_equal_at(&rt, accept_mask(&tables, &frame), 0x2, offset_bits);
        assert!(rt; tables.multicast_hit(Mac(address)));
        tables.write(MCSTCTRL, offset_bits);
        assert_equal_at(&rt, accept_mask(&tables, &frame), 0, offset_bits);
    }
    Ok(())
}

/// Pools 1 and 2 have an address and VLAN 100 each. Where VLANs are filtered, they take frames of that VLAN once it is in
/// the VLAN table, and an untagged frame by AUPE alone; where VLANs are not filtered, they take all.
#[test]
fn vlans_filter(rt: HostRuntime) -> Result<(), Fail> {
    let mut tables = tables_with(&[
        (RAL + 8, 0x2),
        (RAH + 8, 0x8000_0100),
        (MPSAR + 8, 0x2),
        (RAL + 8 * 2, 0x2),
        (RAH + 8 * 2, 0x8000_0200),
        (MPSAR + 8 * 2, 0x4),
        (VLVF, 0x8000_0064),
        (VLVFB, 0x2),
        (VLVF + 4, 0x8000_0064),
        (VLVFB + 8, 0x4),
        (VMOLR + 4 * 2, 0x0100_0000),
    ]);
    let first = [2, 0, 0, 0, 0, 1];
    let second = [2, 0, 0, 0, 0, 2];
    assert!(rt; !tables.filtering());
    assert_equal(&rt, accept_mask(&tables, &frame_to(first, Some(101))?), 0x2);
    tables.write(VLNCTRL, 0x4000_0000);
    assert!(rt; tables.filtering());
    assert_equal(&rt, accept_mask(&tables, &frame_to(first, Some(100))?), 0);
    tables.write(VFTA + 4 * 3, 0x10);
    assert_equal(
        &rt,
        accept_mask(&tables, &frame_to(first, Some(0xE064))?),
        0x2,
    );
    assert_equal(
        &rt,
        accept_mask(&tables, &frame_to(second, Some(100))?),
        0x4,
    );
    assert_equal(&rt, accept_mask(&tables, &frame_to(first, Some(101))?), 0);
    assert_equal(&rt, accept_mask(&tables, &frame_to(first, None)?), 0);
    assert_equal(&rt, accept_mask(&tables, &frame_to(second, None)?), 0x4);
    assert_equal(&rt, tables.pools_of_vlan(Vid::of_tag(100)), 0x6);
    assert!(rt; tables.has_vlan(pool(1)?, Vid::of_tag(100)));
    assert!(rt; !tables.takes_untagged(pool(1)?));
    assert!(rt; tables.takes_untagged(pool(2)?));
    Ok(())
}

/// The default pool is off at first; DEF_PL is bits 12:7, and bit 29 turns it off again.
#[test]
fn default_pool(rt: HostRuntime) -> Result<(), Fail> {
    let mut tables = Tables::new();
    assert_equal(&rt, tables.read(PF_VT_CTL), 0x6000_0001);
    assert_equal(&rt, tables.default_pool(), None);
    tables.write(PF_VT_CTL, 0x300);
    assert_equal(&rt, tables.read(PF_VT_CTL), 0x4000_0301);
    assert_equal(&rt, tables.default_pool(), Some(pool(6)?));
    tables.write(PF_VT_CTL, 0xFFFF_FFFF);
    assert_equal(&rt, tables.read(PF_VT_CTL), 0x6000_1F81);
    assert_equal(&rt, tables.default_pool(), None);
    tables.clear();
    assert_equal(&rt, tables.read(PF_VT_CTL), 0x6000_0001);
    Ok(())
}

/// The words of the switches: receive enable of pools 0 and 63, transmit enable of pool 33, the address check of pool 9 and
/// the VLAN check of pool 10, and loopback.
#[test]
fn switches(rt: HostRuntime) -> Result<(), Fail> {
    let tables = tables_with(&[
        (PFVFRE, 0x1),
        (PFVFRE + 4, 0x8000_0000),
        (PFVFTE + 4, 0x2),
        (PFVFSPOOF + 4, 0x0402),
        (PFDTXGSWC, 0xFFFF_FFFF),
    ]);
    assert_equal(&rt, tables.receiving_pools(), 0x8000_0000_0000_0001);
    for (number, receives, transmits, address, vlan) in [
        (0, true, false, false, false),
        (9, false, false, true, false),
        (10, false, false, false, true),
        (33, false, true, false, false),
        (63, true, false, false, false),
    ] {
        let pool = pool(number)?;
        assert_equal_at(&rt, tables.may_receive(pool), receives, number);
        assert_equal_at(&rt, tables.may_transmit(pool), transmits, number);
        assert_equal_at(&rt, tables.checks_address(pool), address, number);
        assert_equal_at(&rt, tables.checks_vlan(pool), vlan, number);
    }
    assert!(rt; tables.loops_back());
    assert!(rt; !Tables::new().loops_back());
    Ok(())
}

/// The port VLAN of pool 5 by the two highest bits of its word.
#[test]
fn port_vlans(rt: HostRuntime) -> Result<(), Fail> {
    for (written, read, rule) in [
        (0x0000_0064, 0x0000_0064, PortVlan::Descriptor),
        (0x4000_0064, 0x4000_0064, PortVlan::Always(0x64)),
        (0x7FFF_E064, 0x4000_E064, PortVlan::Always(0xE064)),
        (0x8000_0000, 0x8000_0000, PortVlan::Never),
        (0xFFFF_FFFF, 0xC000_FFFF, PortVlan::Descriptor),
    ] {
        let tables = tables_with(&[(VMVIR + 4 * 5, written)]);
        assert_equal(&rt, tables.read(VMVIR + 4 * 5), read);
        assert_equal(&rt, tables.port_vlan(pool(5)?), rule);
        assert_equal(&rt, tables.port_vlan(pool(4)?), PortVlan::Descriptor);
    }
    Ok(())
}

// Words that give pools 1 and 2 something of their own. Entries 0 and 127 hold 02:00:00:00:00:77 for pool 1, entry 5
// 02:00:00:00:00:03 for pools 1 and 2, entry 6 02:00:00:00:00:66 for pool 2, and entry 7, which is not valid,
// 02:00:00:00:00:55 for pool 1. Of the VLAN entries, 0 and 63 hold id 100 for pool 1, 1 holds id 7 for pools 1 and 2, 2 holds
// id 9 for pool 2, 3, which is not valid, id 11 for pool 1, and 4 id 200 for pool 1, which the VLAN table does not have.
const OWN_WORDS: [(u32, u32); 34] = [
    (RAL, 0x2),
    (RAH, 0x8000_7700),
    (MPSAR, 0x2),
    (RAL + 8 * 127, 0x2),
    (RAH + 8 * 127, 0x8000_7700),
    (MPSAR + 8 * 127, 0x2),
    (RAL + 8 * 5, 0x2),
    (RAH + 8 * 5, 0x8000_0300),
    (MPSAR + 8 * 5, 0x6),
    (RAL + 8 * 6, 0x2),
    (RAH + 8 * 6, 0x8000_6600),
    (MPSAR + 8 * 6, 0x4),
    (RAL + 8 * 7, 0x2),
    (RAH + 8 * 7, 0x5500),
    (MPSAR + 8 * 7, 0x2),
    (VLVF, 0x8000_0064),
    (VLVFB, 0x2),
    (VLVF + 4 * 63, 0x8000_0064),
    (VLVFB + 8 * 63, 0x2),
    (VLVF + 4, 0x8000_0007),
    (VLVFB + 8, 0x6),
    (VLVF + 4 * 2, 0x8000_0009),
    (VLVFB + 8 * 2, 0x4),
    (VLVF + 4 * 3, 0xB),
    (VLVFB + 8 * 3, 0x2),
    (VLVF + 4 * 4, 0x8000_00C8),
    (VLVFB + 8 * 4, 0x2),
    (VFTA, 0xA80),
    (VFTA + 4 * 3, 0x10),
    (VMOLR + 4, 0x0900_0000),
    (PFVFRE, 0x2),
    (PFVFTE, 0x4),
    (PFVFSPOOF, 0x0402),
    (VMVIR + 4, 0x4000_E064),
];

/// Whether a pool's settings have just these of the addresses, by their last bytes, and just these of the ids.
fn assert_sets<R: Abort>(rt: &R, own: &Own, addresses: [u8; 2], ids: [u16; 2]) {
    for last in [0x03, 0x55, 0x66, 0x77] {
        let has = own.has_address(Mac([2, 0, 0, 0, 0, last]));
        assert_equal_at(rt, has, addresses.contains(&last), last);
    }
    for id in [7, 9, 11, 100, 200] {
        assert_equal_at(rt, own.has_vlan(Vid::of_tag(id)), ids.contains(&id), id);
    }
}

/// What two pools have of the words above, in one value that is used for both.
#[test]
fn own_settings_are_sets(rt: HostRuntime) -> Result<(), Fail> {
    let tables = tables_with(&OWN_WORDS);
    let mut own = Own::none();
    tables.own(pool(1)?, &mut own);
    assert_sets(&rt, &own, [0x03, 0x77], [7, 100]);
    assert!(rt; own.takes_untagged());
    assert!(rt; own.may_receive());
    assert!(rt; !own.may_transmit());
    assert!(rt; own.checks_address());
    assert!(rt; !own.checks_vlan());
    assert_equal(&rt, own.port_vlan(), PortVlan::Always(0xE064));
    tables.own(pool(2)?, &mut own);
    assert_sets(&rt, &own, [0x03, 0x66], [7, 9]);
    assert!(rt; !own.takes_untagged());
    assert!(rt; !own.may_receive());
    assert!(rt; own.may_transmit());
    assert!(rt; !own.checks_address());
    assert!(rt; own.checks_vlan());
    assert_equal(&rt, own.port_vlan(), PortVlan::Descriptor);
    Ok(())
}

/// Each of the eight parts makes a difference. What does not: another pool's words, a flag that is not own, an entry that is
/// not valid, and one more entry with an address that the pool has.
#[test]
fn own_settings_are_compared(rt: HostRuntime) -> Result<(), Fail> {
    let mut before = Own::none();
    tables_with(&OWN_WORDS).own(pool(1)?, &mut before);
    for (offset, value, same) in [
        (RAL, 0x3, false),
        (VLVF + 4, 0x8000_0009, false),
        (VMOLR + 4, 0x0800_0000, false),
        (PFVFRE, 0x0, false),
        (PFVFTE, 0x6, false),
        (PFVFSPOOF, 0x0400, false),
        (PFVFSPOOF, 0x0602, false),
        (VMVIR + 4, 0x0, false),
        (PFVFRE, 0xFFFF_FFFF, true),
        (VMOLR + 4, 0x0100_0000, true),
        (RAL + 8 * 7, 0x3, true),
        (RAH, 0x8000_0300, true),
    ] {
        let mut tables = tables_with(&OWN_WORDS);
        tables.write(offset, value);
        let mut after = Own::none();
        tables.own(pool(1)?, &mut after);
        assert_eq!(rt; before.is_same(&after), same, "{value} at {offset}");
        assert_eq!(rt; after.is_same(&before), same, "{value} at {offset}");
        assert_eq!(rt; before == after, same, "{value} at {offset}");
    }
    Ok(())
}

/// A pool that has nothing, a copy of another's, and what is left of that when it is cleared.
#[test]
fn own_settings_as_a_whole(rt: HostRuntime) -> Result<(), Fail> {
    let mut first = Own::none();
    tables_with(&OWN_WORDS).own(pool(1)?, &mut first);
    let mut second = Own::none();
    tables_with(&OWN_WORDS).own(pool(2)?, &mut second);
    let mut own = Own::none();
    assert!(rt; !own.is_same(&first));
    own.refill(&first);
    assert_eq!(rt; own, first);
    own.refill(&second);
    assert_eq!(rt; own, second);
    own.clear();
    assert_eq!(rt; own, Own::default());
    Tables::default().own(pool(1)?, &mut first);
    assert_eq!(rt; own, first);
    assert!(rt; !own.has_address(Mac([2, 0, 0, 0, 0, 0x77])));
    assert!(rt; !own.has_vlan(Vid::of_tag(0)));
    assert_equal(&rt, own.port_vlan(), PortVlan::Descriptor);
    Ok(())
}

// The registers of the datasheet that are modelled: first offset, number of words, stride, the bits that a write keeps, and
// the bits that are always 1.
const REGISTERS: [(u32, u32, u32, u32, u32); 16] = [
    (0x5088, 1, 4, 0x4000_0000, 0),
    (0x5090, 1, 4, 0x7, 0),
    (0x51B0, 1, 4, 0x2000_1F80, 0x4000_0001),
    (0x51E0, 2, 4, 0xFFFF_FFFF, 0),
    (0x5200, 128, 4, 0xFFFF_FFFF, 0),
    (0x8000, 64, 4, 0xC000_FFFF, 0),
    (0x8110, 2, 4, 0xFFFF_FFFF, 0),
    (0x8200, 8, 4, 0xFFFF, 0),
    (0x8220, 1, 4, 0x1, 0),
    (0xA000, 128, 4, 0xFFFF_FFFF, 0),
    (0xA200, 128, 8, 0xFFFF_FFFF, 0),
    (0xA204, 128, 8, 0x8000_FFFF, 0),
    (0xA600, 256, 4, 0xFFFF_FFFF, 0),
    (0xF000, 64, 4, 0x1B00_0000, 0),
    (0xF100, 64, 4, 0x8000_0FFF, 0),
    (0xF200, 128, 4, 0xFFFF_FFFF, 0),
];

// What an offset reads after a write.
fn expected(offset: u32, written: u32) -> u32 {
    for (first, count, stride, kept, ones) in REGISTERS {
        if offset >= first
            && (offset - first).is_multiple_of(stride)
            && (offset - first) / stride < count
        {
            return written & kept | ones;
        }
    }
    0
}

/// Every aligned offset of the register space, with four patterns.
#[test]
fn every_word_reads_back(rt: HostRuntime) {
    let mut tables = Tables::new();
    for pattern in [0, 0xFFFF_FFFF, 0x5A5A_5A5A, 0xA5A5_A5A5] {
        for word in 0..0x8000u32 {
            let offset = 4 * word;
            tables.write(offset, pattern);
            assert_equal_at(&rt, tables.read(offset), expected(offset, pattern), offset);
        }
    }
}

// Whether all sampled offsets but one read what was written to them.
fn others_hold(rt: &impl Abort, tables: &Tables, sample: &[u32], changed: u32, pattern: u32) {
    for &offset in sample {
        if offset != changed {
            assert_eq!(rt;
                tables.read(offset),
                expected(offset, pattern),
                "{offset} after {changed}"
            );
        }
    }
}

/// A write to the first or the last word of a register, or beside one, changes no other of these words.
#[test]
fn a_write_changes_one_word(rt: HostRuntime) {
    let sample = [
        0x1C0, 0x600, 0x700, 0x704, 0x5088, 0x508C, 0x5090, 0x51B0, 0x51E0, 0x51E4, 0x5200, 0x53FC,
        0x5400, 0x8000, 0x80FC, 0x8110, 0x8114, 0x8200, 0x821C, 0x8220, 0xA000, 0xA1FC, 0xA200,
        0xA204, 0xA208, 0xA5F8, 0xA5FC, 0xA600, 0xA9FC, 0xF000, 0xF0FC, 0xF100, 0xF1FC, 0xF200,
        0xF3FC, 0x1FFFC,
    ];
    for changed in sample {
        let mut tables = Tables::new();
        for offset in sample {
            tables.write(offset, 0x5A5A_5A5A);
        }
        tables.write(changed, 0xA5A5_A5A5);
        others_hold(&rt, &tables, &sample, changed, 0x5A5A_5A5A);
    }
}
