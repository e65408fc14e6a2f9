//! Words as a driver writes them, and what the tables then say.
use crate::compare::{assert_equal, assert_equal_at};
use script_support::registers::{VFTA, VLNCTRL, VLVF, VLVFB};
use vlan_table::VlanTable;
use wire_frame::{PoolId, Vid};

/// Id 100 stands in the first and the last entry, for pools 1 and 34, and in one that is not valid, for pool 5. Its bit in
/// the VLAN table is bit 4 of word 3; until that is set, no pool has it. Id 0 is as any id.
#[test]
fn entries_with_one_id_are_united(rt: HostRuntime) {
    let mut table = VlanTable::default();
    let words = [
        (VLVF, 0x8000_0064),
        (VLVFB, 0x2),
        (VLVF + 4 * 63, 0x8000_0064),
        (VLVFB + 8 * 63 + 4, 0x4),
        (VLVF + 4, 0x64),
        (VLVFB + 8, 0x20),
        (VLVF + 4 * 2, 0x8000_0000),
        (VLVFB + 8 * 2, 0x8),
        (VFTA, 0x1),
        (VFTA + 4 * 3, 0x20),
    ];
    for (offset, value) in words {
        table.write(offset, value);
    }
    assert_equal(&rt, Vid::new(100).map(|id| table.pools_of(id)), Some(0));
    assert_equal(&rt, Vid::new(0).map(|id| table.pools_of(id)), Some(0x8));
    table.write(VFTA + 4 * 3, 0x10);
    assert_equal(
        &rt,
        Vid::new(100).map(|id| table.pools_of(id)),
        Some(0x4_0000_0002),
    );
    assert_equal(&rt, Vid::new(101).map(|id| table.pools_of(id)), Some(0));
    for (number, has) in [(0, false), (1, true), (5, false), (34, true)] {
        let found = PoolId::new(number).and_then(|pool| Vid::new(100).map(|id| table.member(
            id, pool,
        )));
        assert_equal_at(&rt, found, Some(has), number);
    }
}

// The pools of an id, and how many ids were compared with it.
fn found(table: &VlanTable, id: u16) -> (u64, u8) {
    table.probe(Vid::of_tag(id))
}

/// One entry, as its words change one after another: the pools of ids 100 and 200, both in the VLAN table, after each write.
/// It becomes valid, gets another id and other pools, is not valid for a while, and is then without pools.
#[test]
fn a_valid_entry_follows_its_words(rt: HostRuntime) {
    let mut table = VlanTable::new();
    table.write(VFTA + 4 * 3, 0x10);
    table.write(VFTA + 4 * 6, 0x100);
    let steps = [
        (VLVFB, 0x8, [0, 0]),
        (VLVF, 0x8000_0064, [0x8, 0]),
        (VLVF, 0x8000_00C8, [0, 0x8]),
        (VLVFB + 4, 0x8000_0000, [0, 0x8000_0000_0000_0008]),
        (VLVFB, 0x10, [0, 0x8000_0000_0000_0010]),
        (VLVF, 0xC8, [0, 0]),
        (VLVFB + 4, 0x0, [0, 0]),
        (VLVF, 0x8000_00C8, [0, 0x10]),
        (VLVFB, 0x0, [0, 0]),
    ];
    for (offset, value, want) in steps {
        table.write(offset, value);
        let pools = [found(&table, 100).0, found(&table, 200).0];
        assert_eq!(rt; pools, want, "after {offset} was {value}");
    }
}

/// Three entries for one id, each with another pool, between entries for two others. As one after another ceases to be
/// valid, the id keeps the pools of the rest.
#[test]
fn repeated_ids_lose_one_entry(rt: HostRuntime) {
    let mut table = VlanTable::new();
    table.write(VFTA + 4 * 2, 0x700);
    for (e, id, pools) in [(0, 73, 1), (1, 74, 2), (2, 73, 4), (3, 72, 8), (4, 73, 16)] {
        table.write(VLVFB + 8 * e, pools);
        table.write(VLVF + 4 * e, 0x8000_0000 + id);
    }
    for (offset, want) in [
        (VLVF + 4 * 63, 21),
        (VLVF, 20),
        (VLVF + 4 * 4, 4),
        (VLVF + 4 * 2, 0),
    ] {
        table.write(offset, 73);
        assert_equal_at(&rt, found(&table, 73).0, want, offset);
        assert_equal(&rt, found(&table, 72).0, 8);
        assert_equal(&rt, found(&table, 74).0, 2);
    }
}

/// The first and the last id, in the first and the last entry. The VLAN table counts as it is when an id is looked for,
/// whether its words were written before the entries' or after.
#[test]
fn the_table_counts_at_each_lookup(rt: HostRuntime) {
    let mut table = VlanTable::new();
    table.write(VLVF, 0x8000_0000);
    table.write(VLVFB, 0x2);
    table.write(VLVF + 4 * 63, 0x8000_0FFF);
    table.write(VLVFB + 8 * 63 + 4, 0x4);
    let steps = [
        (VFTA, 0xFFFF_FFFE, [0, 0]),
        (VFTA + 4 * 127, 0x8000_0000, [0, 0x4_0000_0000]),
        (VFTA, 0x1, [0x2, 0x4_0000_0000]),
        (VFTA + 4 * 127, 0x7FFF_FFFF, [0x2, 0]),
        (VFTA, 0x0, [0, 0]),
    ];
    for (offset, value, want) in steps {
        table.write(offset, value);
        let pools = [found(&table, 0).0, found(&table, 4095).0];
        assert_eq!(rt; pools, want, "after {offset} was {value}");
    }
}

/// 64 ids, written from the highest, 4095, to the lowest, 0, each 65 below the one before. Each is found with the pool of
/// its entry, and its neighbour is not, all with at most 7 comparisons.
#[test]
fn many_ids_take_few_comparisons(rt: HostRuntime) {
    let mut table = VlanTable::new();
    for word in 0..128 {
        table.write(VFTA + 4 * word, 0xFFFF_FFFF);
    }
    assert_equal(&rt, found(&table, 0), (0, 0));
    for e in 0..64 {
        table.write(VLVF + 4 * e, 0x8000_0FFF - 65 * e);
        table.write(VLVFB + 8 * e + 4 * (e / 32), 1 << (e % 32));
    }
    for e in 0..64u16 {
        let id = 4095 - 65 * e;
        let (pools, compared) = found(&table, id);
        assert_equal_at(&rt, pools, 1 << e, id);
        assert!(rt; 1 <= compared && compared <= 7, "id {id}: {compared}");
        let (pools, compared) = found(&table, id ^ 1);
        assert_equal_at(&rt, pools, 0, id);
        assert!(rt;
            6 <= compared && compared <= 7,
            "beside id {id}: {compared}"
        );
    }
}

/// What an entry gives a pool. The first entry is for pool 1, the last for pool 34, the second is not valid, and the id of
/// the third, 101, is not in the VLAN table.
#[test]
fn entries_give_ids(rt: HostRuntime) {
    let mut table = VlanTable::new();
    let words = [
        (VLVF, 0x8000_0064),
        (VLVFB, 0x2),
        (VLVF + 4 * 63, 0x8000_0FFF),
        (VLVFB + 8 * 63 + 4, 0x4),
        (VLVF + 4, 0x64),
        (VLVFB + 8, 0x2),
        (VLVF + 4 * 2, 0x8000_0065),
        (VLVFB + 8 * 2, 0x2),
        (VFTA + 4 * 3, 0x10),
        (VFTA + 4 * 127, 0x8000_0000),
    ];
    for (offset, value) in words {
        table.write(offset, value);
    }
    let given = [
        (1, 0, Some(100)),
        (34, 0, None),
        (1, 1, None),
        (1, 2, None),
        (1, 63, None),
        (34, 63, Some(4095)),
    ];
    for (number, entry, want) in given {
        let found = PoolId::new(number).and_then(|pool| table.id_for(pool, entry));
        assert_eq!(rt;
            found.map(|id| id.get()),
            want,
            "pool {number}, entry {entry}"
        );
    }
}

/// VLANs are filtered exactly where bit 30 of VLNCTRL is set.
#[test]
fn filtering_is_one_bit(rt: HostRuntime) {
    let mut table = VlanTable::new();
    assert!(rt; !table.filtering());
    table.write(VLNCTRL, 0xBFFF_FFFF);
    assert!(rt; !table.filtering());
    table.write(VLNCTRL, 0x4000_8100);
    assert!(rt; table.filtering());
}

/// What a write of ones keeps, at the first and the last word of each register, and offsets beside them.
#[test]
fn words_read_back(rt: HostRuntime) {
    let kept = [
        (0x5088, Some(0x4000_0000)),
        (0xA000, Some(0xFFFF_FFFF)),
        (0xA1FC, Some(0xFFFF_FFFF)),
        (0xF100, Some(0x8000_0FFF)),
        (0xF1FC, Some(0x8000_0FFF)),
        (0xF200, Some(0xFFFF_FFFF)),
        (0xF3FC, Some(0xFFFF_FFFF)),
        (0x508C, None),
        (0x9FFC, None),
        (0xA200, None),
        (0xF0FC, None),
        (0xF102, None),
        (0xF400, None),
    ];
    for (offset, want) in kept {
        let mut table = VlanTable::new();
        table.write(offset, 0xFFFF_FFFF);
        assert_equal_at(&rt, table.read(offset), want, offset);
    }
}
