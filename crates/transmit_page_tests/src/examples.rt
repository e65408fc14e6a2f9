//! The example of the documentation of transmit_page, which docs/check compares with this.
use transmit_page::{RingWords, changes_between, offset_of};

#[test]
fn example_of_changes_between(rt: HostRuntime) {
    // a driver has set up a ring of 8 descriptors, turned its queue on and queued two frames
    let was = RingWords::zeros();
    let now = RingWords {
        base_low: 0x1000,
        length: 128,
        control: 0x200_0000,
        tail: 2,
        ..was
    };
    let changes = changes_between(&was, &now);
    assert_eq!(rt; changes.as_slice().len(), 5);
    assert_eq!(rt; offset_of(1, changes.as_slice()[0].register), 0x2040);
}
