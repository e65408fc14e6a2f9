//! Words as a driver writes them, and what the tables then say.
use crate::compare::{assert_equal, assert_equal_at};
use addr_tables::AddrTables;
use script_support::registers::{MCSTCTRL, MPSAR, MTA, RAH, RAL};
use wire_frame::{Mac, PoolId};

/// The first and the last entry hold one address, 02:00:00:00:00:77, for pools 1 and 34; an entry that is not valid holds
/// it for pool 5, and a valid one without pools holds 02:00:00:00:00:78.
#[test]
fn entries_with_one_address_are_united(rt: HostRuntime) {
    let mut tables = AddrTables::default();
    let words = [
        (RAL, 0x2),
        (RAH, 0x8000_7700),
        (MPSAR, 0x2),
        (RAL + 8 * 127, 0x2),
        (RAH + 8 * 127, 0x8000_7700),
        (MPSAR + 8 * 127 + 4, 0x4),
        (RAL + 8, 0x2),
        (RAH + 8, 0x7700),
        (MPSAR + 8, 0x20),
        (RAL + 8 * 2, 0x2),
        (RAH + 8 * 2, 0x8000_7800),
    ];
    for (offset, value) in words {
        tables.write(offset, value);
    }
    let address = Mac([2, 0, 0, 0, 0, 0x77]);
    assert_equal(&rt, tables.pools_of(address), 0x4_0000_0002);
    for (number, has) in [(0, false), (1, true), (5, false), (34, true)] {
        assert_equal_at(
            &rt,
            PoolId::new(number).map(|pool| tables.has_pool(address, pool)),
            Some(has),
            number,
        );
    }
    assert!(rt; tables.is_held(address));
    assert!(rt; !tables.is_held(Mac([2, 0, 0, 0, 0, 0x78])));
}

/// One entry, as its words change one after another: the pools of 02:00:00:00:00:11, 02:00:00:00:00:22 and
/// 03:00:00:00:00:22 after each write. It becomes valid, gets another high word, low word and pools, is not valid for a
/// while, and is then without pools.
#[test]
fn a_valid_entry_follows_its_words(rt: HostRuntime) {
    let mut tables = AddrTables::new();
    let steps = [
        (RAL, 0x2, [0, 0, 0]),
        (MPSAR, 0x8, [0, 0, 0]),
        (RAH, 0x8000_1100, [0x8, 0, 0]),
        (RAH, 0x8000_2200, [0, 0x8, 0]),
        (RAL, 0x3, [0, 0, 0x8]),
        (MPSAR + 4, 0x8000_0000, [0, 0, 0x8000_0000_0000_0008]),
        (MPSAR, 0x10, [0, 0, 0x8000_0000_0000_0010]),
        (RAH, 0x2200, [0, 0, 0]),
        (MPSAR + 4, 0x0, [0, 0, 0]),
        (RAH, 0x8000_2200, [0, 0, 0x10]),
        (MPSAR, 0x0, [0, 0, 0]),
    ];
    for (offset, value, want) in steps {
        tables.write(offset, value);
        let found = [
            tables.pools_of(Mac([2, 0, 0, 0, 0, 0x11])),
            tables.pools_of(Mac([2, 0, 0, 0, 0, 0x22])),
            tables.pools_of(Mac([3, 0, 0, 0, 0, 0x22])),
        ];
        assert_eq!(rt; found, want, "after {offset} was {value}");
    }
}

/// Two entries with one address, whose pools overlap: one gives more, then less, then another pool in place of its own, while the other
/// keeps what it gives.
#[test]
fn an_entry_gives_more_and_less(rt: HostRuntime) {
    let mut tables = AddrTables::new();
    let entries = [
        (RAL, 0x2),
        (RAH, 0x8000_1100),
        (MPSAR, 0x3),
        (RAL + 8, 0x2),
        (RAH + 8, 0x8000_1100),
        (MPSAR + 8, 0x6),
    ];
    for (offset, value) in entries {
        tables.write(offset, value);
    }
    let address = Mac([2, 0, 0, 0, 0, 0x11]);
    assert_equal(&rt, tables.pools_of(address), 0x7);
    let steps = [
        (0xE, 0xF),
        (0xE, 0xF),
        (0x2, 0x3),
        (0x10, 0x13),
        (0x0, 0x3),
        (0x8000_0000, 0x8000_0003),
    ];
    for (value, want) in steps {
        tables.write(MPSAR + 8, value);
        assert_equal_at(&rt, tables.pools_of(address), want, value);
    }
}

/// Three entries for one address, each with another pool, between entries for two others. As one after another ceases to
/// be valid, the address keeps the pools of the rest.
#[test]
fn repeated_addresses_lose_one_entry(rt: HostRuntime) {
    let mut tables = AddrTables::new();
    let entries = [
        (0, 0x55, 1),
        (1, 0x66, 2),
        (2, 0x55, 4),
        (3, 0x44, 8),
        (4, 0x55, 16),
    ];
    for (e, last, pools) in entries {
        tables.write(RAL + 8 * e, 0x2);
        tables.write(MPSAR + 8 * e, pools);
        tables.write(RAH + 8 * e, 0x8000_0000 + 256 * last);
    }
    for (high, want) in [
        (RAH + 8 * 127, 21),
        (RAH, 20),
        (RAH + 8 * 4, 4),
        (RAH + 8 * 2, 0),
    ] {
        tables.write(high, 0x5500);
        assert_equal_at(&rt, tables.pools_of(Mac([2, 0, 0, 0, 0, 0x55])), want, high);
        assert_equal(&rt, tables.pools_of(Mac([2, 0, 0, 0, 0, 0x44])), 8);
        assert_equal(&rt, tables.pools_of(Mac([2, 0, 0, 0, 0, 0x66])), 2);
    }
}

/// 128 addresses, written from the highest to the lowest, whose last bytes are the even numbers. Each is found with the
/// pool of its entry, and those below, between and above are not, all with at most 8 comparisons.
#[test]
fn many_addresses_take_few_comparisons(rt: HostRuntime) {
    let mut tables = AddrTables::new();
    assert_equal(&rt, tables.probe(Mac([2, 0, 0, 0, 0, 0])), (0, 0));
    for e in 0..128 {
        tables.write(RAL + 8 * e, 0x2);
        tables.write(RAH + 8 * e, 0x8000_FE00 - 512 * e);
        tables.write(MPSAR + 4 * (2 * e + e / 32 % 2), 1 << (e % 32));
    }
    for e in 0..128u8 {
        let last = 254 - 2 * e;
        let (pools, compared) = tables.probe(Mac([2, 0, 0, 0, 0, last]));
        assert_equal_at(&rt, pools, 1 << (e % 64), e);
        assert!(rt; 1 <= compared && compared <= 8, "entry {e}: {compared}");
        let (pools, compared) = tables.probe(Mac([2, 0, 0, 0, 0, last + 1]));
        assert_equal_at(&rt, pools, 0, e);
        assert!(rt;
            7 <= compared && compared <= 8,
            "above entry {e}: {compared}"
        );
    }
    for other in [
        Mac([0, 0, 0, 0, 0, 0]),
        Mac([1, 0, 0, 0, 0, 0]),
        Mac([0xFF; 6]),
    ] {
        let (pools, compared) = tables.probe(other);
        assert_equal(&rt, pools, 0);
        assert!(rt; 7 <= compared && compared <= 8, "{compared}");
    }
}

// Tables in which each of the 128 entries holds an address of its own, 02:00:00:00:00:00 to 02:00:00:00:00:7F, for the pool
// with the entry's number, counted from 0 again after 63.
fn full_tables() -> AddrTables {
    let mut tables = AddrTables::new();
    for e in 0..128 {
        tables.write(RAL + 8 * e, 0x2);
        tables.write(RAH + 8 * e, 0x8000_0000 + 256 * e);
        tables.write(MPSAR + 4 * (2 * e + e / 32 % 2), 1 << (e % 32));
    }
    tables
}

/// 128 addresses, of which each entry in turn gets another, whose last byte is 128 more. The former one is then no pool's,
/// and the new one is found with the pool of its entry, by at most 8 comparisons.
#[test]
fn full_tables_are_rewritten(rt: HostRuntime) {
    let mut tables = full_tables();
    for e in 0..128u8 {
        tables.write(RAH + 8 * u32::from(e), 0x8000_8000 + 256 * u32::from(e));
        let former = tables.probe(Mac([2, 0, 0, 0, 0, e]));
        assert_equal_at(&rt, former.0, 0, e);
        assert!(rt; former.1 <= 8, "entry {e}");
        let (pools, compared) = tables.probe(Mac([2, 0, 0, 0, 0, 128 + e]));
        assert_equal_at(&rt, pools, 1 << (e % 64), e);
        assert!(rt; 1 <= compared && compared <= 8, "entry {e}: {compared}");
    }
}

/// 128 addresses, of which each entry in turn gets one and the same, which gathers their pools; it is then the only one,
/// and found by one comparison. It stays with the pools of the rest while the entries cease to be valid.
#[test]
fn one_address_gathers_all_pools(rt: HostRuntime) {
    let mut tables = full_tables();
    let address = Mac([2, 0, 0, 0, 0, 0xEE]);
    for e in 0..128 {
        tables.write(RAH + 8 * e, 0x8000_EE00);
    }
    assert_equal(&rt, tables.probe(address), (u64::MAX, 1));
    assert_equal(&rt, tables.probe(Mac([2, 0, 0, 0, 0, 0x7F])), (0, 1));
    for e in 0..64 {
        tables.write(RAH + 8 * e, 0xEE00);
    }
    assert_equal(&rt, tables.probe(address), (u64::MAX, 1));
    for e in 64..127 {
        tables.write(RAH + 8 * e, 0xEE00);
    }
    assert_equal(&rt, tables.probe(address), (0x8000_0000_0000_0000, 1));
    tables.write(RAH + 8 * 127, 0xEE00);
    assert_equal(&rt, tables.probe(address), (0, 0));
}

/// What an entry gives a pool. The first entry is for pool 1, the last for pool 34, the second is not valid and the third
/// has no pools.
#[test]
fn entries_give_addresses(rt: HostRuntime) {
    let mut tables = AddrTables::new();
    let words = [
        (RAL, 0x5634_1202),
        (RAH, 0x8000_7778),
        (MPSAR, 0x2),
        (RAL + 8 * 127, 0x2),
        (RAH + 8 * 127, 0x8000_7700),
        (MPSAR + 8 * 127 + 4, 0x4),
        (RAL + 8, 0x2),
        (RAH + 8, 0x7700),
        (MPSAR + 8, 0x2),
        (RAL + 8 * 2, 0x2),
        (RAH + 8 * 2, 0x8000_7800),
    ];
    for (offset, value) in words {
        tables.write(offset, value);
    }
    let given = [
        (1, 0, Some(0x7778_5634_1202)),
        (34, 0, None),
        (1, 1, None),
        (1, 2, None),
        (1, 127, None),
        (34, 127, Some(0x7700_0000_0002)),
    ];
    for (number, entry, want) in given {
        let found = PoolId::new(number).and_then(|pool| tables.address_for(pool, entry));
        assert_eq!(rt; found, want, "pool {number}, entry {entry}");
    }
}

/// The hash of 01:00:5E:00:12:03 by each value of MO, worked out by hand from the two last bytes, 0x12 and 0x03: the word
/// of MTA, and its bit.
#[test]
fn multicast_hashes(rt: HostRuntime) {
    let address = Mac([1, 0, 0x5E, 0, 0x12, 3]);
    let hashes = [
        (0, 0x5204, 17),
        (1, 0x520C, 2),
        (2, 0x5218, 4),
        (3, 0x5260, 18),
    ];
    for (offset_bits, word, bit) in hashes {
        let mut tables = AddrTables::new();
        tables.write(MCSTCTRL, 4 + offset_bits);
        assert!(rt; !tables.multicast_hit(address));
        tables.write(word, 1 << bit);
        assert!(rt; tables.multicast_hit(address), "MO {offset_bits}");
        tables.write(MCSTCTRL, offset_bits);
        assert!(rt;
            !tables.multicast_hit(address),
            "MO {offset_bits} with the table off"
        );
    }
}

/// What a write of ones keeps, at the first and the last word of each register, and offsets beside them.
#[test]
fn words_read_back(rt: HostRuntime) {
    let kept = [
        (0x5090, Some(0x7)),
        (0x5200, Some(0xFFFF_FFFF)),
        (0x53FC, Some(0xFFFF_FFFF)),
        (0xA200, Some(0xFFFF_FFFF)),
        (0xA204, Some(0x8000_FFFF)),
        (0xA5F8, Some(0xFFFF_FFFF)),
        (0xA5FC, Some(0x8000_FFFF)),
        (0xA600, Some(0xFFFF_FFFF)),
        (0xA9FC, Some(0xFFFF_FFFF)),
        (0x508C, None),
        (0x5400, None),
        (0xA1FC, None),
        (0xA202, None),
        (0xAA00, None),
    ];
    for (offset, want) in kept {
        let mut tables = AddrTables::new();
        tables.write(offset, 0xFFFF_FFFF);
        assert_equal_at(&rt, tables.read(offset), want, offset);
    }
}
