//! Keys that are put, changed and taken out, and what is then found.
use crate::compare::assert_equal;
use pool_index::PoolIndex;

/// Three keys, put in no order. One of them gets other pools, and then one is taken out; a key that is not kept has no
/// pools, and taking it out changes nothing.
#[test]
fn keys_change(rt: HostRuntime) {
    let mut index = PoolIndex::<4>::new();
    assert_equal(&rt, index.probe(50), (0, 0));
    index.put(50, 0x1);
    index.put(30, 0x8000_0000_0000_0000);
    index.put(90, 0x4);
    index.put(50, 0x6);
    assert_equal(&rt, index.probe(50).0, 0x6);
    assert_equal(&rt, index.probe(30).0, 0x8000_0000_0000_0000);
    index.take_out(30);
    index.take_out(70);
    assert_equal(&rt, index.probe(30).0, 0);
    assert_equal(&rt, index.probe(50).0, 0x6);
    assert_equal(&rt, index.probe(90).0, 0x4);
    assert_equal(&rt, index.probe(u64::MAX).0, 0);
}

/// A key is set to what was found of it: pools, none, and nothing at all.
#[test]
fn keys_are_set(rt: HostRuntime) {
    let mut index = PoolIndex::<2>::new();
    index.set(0, Some(0x5));
    index.set(u64::MAX, Some(0));
    assert_equal(&rt, index.probe(0).0, 0x5);
    assert_equal(&rt, index.probe(u64::MAX).0, 0);
    index.set(0, None);
    index.set(7, None);
    assert_equal(&rt, index.probe(0), (0, 1));
    assert_equal(&rt, index.probe(7).0, 0);
}

/// A key that isn't kept gets pools by an addition, and then more; another key stays as it is.
#[test]
fn keys_gather_pools(rt: HostRuntime) {
    let mut index = PoolIndex::<2>::new();
    index.put(9, 0x8000_0000_0000_0000);
    index.add(4, 0x2);
    assert_equal(&rt, index.probe(4).0, 0x2);
    index.add(4, 0x5);
    index.add(9, 0);
    assert_equal(&rt, index.probe(4).0, 0x7);
    assert_equal(&rt, index.probe(9).0, 0x8000_0000_0000_0000);
}

/// Of three keys the one in the middle is compared first, and any other takes one comparison more: 3 has two binary digits.
#[test]
fn the_middle_is_compared_first(rt: HostRuntime) {
    let mut index = PoolIndex::<3>::new();
    index.put(20, 0x2);
    index.put(10, 0x1);
    index.put(30, 0x4);
    assert_equal(&rt, index.probe(20), (0x2, 1));
    assert_equal(&rt, index.probe(10), (0x1, 2));
    assert_equal(&rt, index.probe(30), (0x4, 2));
    assert_equal(&rt, index.probe(5), (0, 2));
    assert_equal(&rt, index.probe(25), (0, 2));
    assert_equal(&rt, index.probe(35), (0, 2));
}
