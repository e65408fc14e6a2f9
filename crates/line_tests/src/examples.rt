//! The example of the documentation of irq_line, which docs/check compares with this.
use irq_causes::Vectors;
use irq_line::make;
use std::test::Fail;
use wire_frame::PoolId;

#[test]
fn example_of_make(rt: HostRuntime) -> Result<(), Fail> {
    let (mut device, mut guests) = make(rt.alloc())?;
    if let (Some(pool), Some(vectors)) = (PoolId::new(3), Vectors::new(5)) {
        device.raise(pool, vectors);
    }
    assert!(rt; guests[3].peek() == 5);
    assert!(rt; guests[3].take() == 5);
    assert!(rt; guests[3].take() == 0);
    Ok(())
}
