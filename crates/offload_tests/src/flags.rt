//! Offloads by the flags of a word.
use crate::compare::assert_equal_at;
use offload::Offloads;
use std::test::Fail;

/// Each flag alone, all of them, and words with a bit that is none.
#[test]
fn flags(rt: HostRuntime) -> Result<(), Fail> {
    const NONE: [bool; 7] = [false; 7];
    for (word, due) in [
        (0u32, Some(NONE)),
        (1, Some([true, false, false, false, false, false, false])),
        (2, Some([false, true, false, false, false, false, false])),
        (4, Some([false, false, true, false, false, false, false])),
        (8, Some([false, false, false, true, false, false, false])),
        (16, Some([false, false, false, false, true, false, false])),
        (32, Some([false, false, false, false, false, true, false])),
        (64, Some([false, false, false, false, false, false, true])),
        (127, Some([true; 7])),
        (128, None),
        (0x8000_0001, None),
    ] {
        let flags = Offloads::from_bits(word).map(|o| [
            o.vlan,
            o.checksum,
            o.segmentation,
            o.auto_mask,
            o.legacy_receive,
            o.throttle,
            o.receive_checksum,
        ]);
        assert_equal_at(&rt, flags, due, word);
    }
    Ok(())
}
