//! Groups of pools, and whether words as a driver writes them keep a group from all others.
use crate::compare::assert_equal_at;
use pool_filter::Tables;
use script_support::registers::{
    PFDTXGSWC, PFVFSPOOF, PFVFTE, VFTA, VLNCTRL, VLVF, VLVFB, VMOLR, VMVIR,
};
use wire_frame::{PoolId, PoolSet};

const ALL: u64 = 0xFFFF_FFFF_FFFF_FFFF;

// Pools 0 and 32; these and 63; all three and 31.
const PAIR: u64 = 0x1_0000_0001;

const THREE: u64 = 0x8000_0001_0000_0001;

const FOUR: u64 = 0x8000_0001_8000_0001;

// The pools that frames of the pool may be for.
fn reach_of(tables: &Tables, pool: u8) -> Option<u64> {
    PoolId::new(pool).map(|pool| tables.reach(pool).bits())
}

fn is_apart(tables: &Tables, group: u64) -> bool {
    tables.keeps_apart(PoolSet::from_bits(group))
}

/// What pools 0, 31, 32 and 63 may reach, and whether pool 0, pools 0 and 32, pools 32 and 63, and the three of these are apart,
/// after one write after another. The empty group and that of all pools are apart under all of them.
#[test]
fn groups_are_apart_or_not(rt: HostRuntime) {
    let mut tables = Tables::new();
    let steps = [
        // Without loopback no pool reaches another, and with it none that may not transmit.
        (PFVFTE, 0x8000_0001, [0, 0, 0, 0], [true, true, true, true]),
        (PFDTXGSWC, 1, [ALL, ALL, 0, 0], [false, false, true, false]),
        (
            PFVFTE + 4,
            0x8000_0001,
            [ALL, ALL, ALL, ALL],
            [false, false, false, false],
        ),
        // That VLANs are filtered keeps nobody who may choose his tag. A port tag does: nobody is in its VLAN yet.
        (
            VLNCTRL,
            0x4000_0000,
            [ALL, ALL, ALL, ALL],
            [false, false, false, false],
        ),
        (
            VMVIR,
            0x4000_0064,
            [0, ALL, ALL, ALL],
            [true, false, false, false],
        ),
        (
            VMVIR + 4 * 32,
            0x4000_0064,
            [0, ALL, 0, ALL],
            [true, true, false, false],
        ),
        // VLAN 100 gets pools 0 and 32, and counts once the VLAN table has it. The id is the low twelve bits of the tag.
        (
            VLVF,
            0x8000_0064,
            [0, ALL, 0, ALL],
            [true, true, false, false],
        ),
        (VLVFB, 0x1, [0, ALL, 0, ALL], [true, true, false, false]),
        (VLVFB + 4, 0x1, [0, ALL, 0, ALL], [true, true, false, false]),
        (
            VFTA + 4 * 3,
            0x10,
            [PAIR, ALL, PAIR, ALL],
            [false, true, false, false],
        ),
        (
            VMVIR,
            0x4000_E064,
            [PAIR, ALL, PAIR, ALL],
            [false, true, false, false],
        ),
        // The rule that no tag is inserted leaves the tag to the sender, as does that of the descriptor.
        (
            VMVIR + 4 * 32,
            0x8000_0064,
            [PAIR, ALL, ALL, ALL],
            [false, false, false, false],
        ),
        (
            VMVIR + 4 * 32,
            0x64,
            [PAIR, ALL, ALL, ALL],
            [false, false, false, false],
        ),
        // A check of the VLANs of pool 32 keeps it too, but a check of its source address doesn't.
        (
            PFVFSPOOF + 4 * 4,
            0x1,
            [PAIR, ALL, ALL, ALL],
            [false, false, false, false],
        ),
        (
            PFVFSPOOF + 4 * 4,
            0x100,
            [PAIR, ALL, PAIR, ALL],
            [false, true, false, false],
        ),
        // Untagged frames pass the check where the sender takes them, and are for those that take them too.
        (
            VMOLR + 4 * 63,
            0x0100_0000,
            [PAIR, ALL, PAIR, ALL],
            [false, true, false, false],
        ),
        (
            VMOLR + 4 * 32,
            0x0100_0000,
            [PAIR, ALL, THREE, ALL],
            [false, false, false, false],
        ),
        (
            PFVFTE + 4,
            0x1,
            [PAIR, ALL, THREE, 0],
            [false, false, false, true],
        ),
        // VLAN 200, of the last entry, has pools 31, 32 and 63: a pool reaches all that are in one of its VLANs.
        (
            VLVF + 4 * 63,
            0x8000_00C8,
            [PAIR, ALL, THREE, 0],
            [false, false, false, true],
        ),
        (
            VLVFB + 8 * 63,
            0x8000_0000,
            [PAIR, ALL, THREE, 0],
            [false, false, false, true],
        ),
        (
            VLVFB + 8 * 63 + 4,
            0x8000_0001,
            [PAIR, ALL, THREE, 0],
            [false, false, false, true],
        ),
        (
            VFTA + 4 * 6,
            0x100,
            [PAIR, ALL, FOUR, 0],
            [false, false, false, false],
        ),
        // Under a port tag and a check both have to let a frame through.
        (
            VMVIR + 4 * 32,
            0x4000_0064,
            [PAIR, ALL, PAIR, 0],
            [false, true, false, true],
        ),
        (VLNCTRL, 0, [ALL, ALL, ALL, 0], [false, false, false, false]),
        (PFDTXGSWC, 0, [0, 0, 0, 0], [true, true, true, true]),
    ];
    for (offset, value, reach, apart) in steps {
        tables.write(offset, value);
        let found = [
            reach_of(&tables, 0),
            reach_of(&tables, 31),
            reach_of(&tables, 32),
            reach_of(&tables, 63),
        ];
        assert_equal_at(&rt, found, reach.map(Some), (offset, value));
        let found = [
            is_apart(&tables, 0x1),
            is_apart(&tables, PAIR),
            is_apart(&tables, 0x8000_0001_0000_0000),
            is_apart(&tables, THREE),
        ];
        assert_equal_at(&rt, found, apart, (offset, value));
        let found = [is_apart(&tables, 0), is_apart(&tables, ALL)];
        assert_equal_at(&rt, found, [true, true], (offset, value));
    }
}

/// The settings of examples/group_apart.script: with loopback on, port tags put pool 1 into VLAN 100, and pools 3 and 5 into
/// VLAN 200. Either VLAN is apart, and neither pool 3 nor pool 5 is without the other.
#[test]
fn a_group_in_a_vlan_is_apart(rt: HostRuntime) {
    let mut tables = Tables::new();
    for (offset, value) in [
        (PFVFTE, 0xFF),
        (PFDTXGSWC, 1),
        (VLNCTRL, 0x4000_0000),
        (VFTA + 4 * 3, 0x10),
        (VFTA + 4 * 6, 0x100),
        (VLVF, 0x8000_0064),
        (VLVFB, 0x2),
        (VLVF + 4, 0x8000_00C8),
        (VLVFB + 8, 0x28),
        (VMVIR + 4, 0x4000_0064),
        (VMVIR + 4 * 3, 0x4000_00C8),
        (VMVIR + 4 * 5, 0x4000_00C8),
    ] {
        tables.write(offset, value);
    }
    for (group, apart) in [
        (0x28, true),
        (0x02, true),
        (0x2A, true),
        (0x08, false),
        (0x20, false),
        (0x0A, false),
    ] {
        assert_equal_at(&rt, is_apart(&tables, group), apart, group);
    }
}
