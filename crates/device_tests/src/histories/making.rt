use super::*;
use crate::compare::{assert_equal, assert_equal_at};

// The fault of a history that is made for so many entries, if it is not made.
fn fault_of(alloc: Global, cap: usize) -> Option<Fault> {
    match History::new(alloc, cap) {
        Ok(_) => None,
        Err(fault) => Some(fault),
    }
}

#[test]
fn a_head_has_32_bytes(rt: HostRuntime) {
    assert_equal(&rt, size_of::<Head>(), 32);
}

#[test]
fn takes_1_to_65536_entries(rt: HostRuntime) {
    for (cap, fault) in [
        (0, Some(Fault::BadMake)),
        (1, None),
        (65_536, None),
        (65_537, Some(Fault::BadMake)),
        (usize::MAX, Some(Fault::BadMake)),
    ] {
        assert_equal_at(&rt, fault_of(rt.alloc(), cap), fault, cap);
    }
}
