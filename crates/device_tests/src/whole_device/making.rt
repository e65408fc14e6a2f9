use super::*;
use crate::compare::assert_equal;

#[test]
fn takes_1_to_64_memories_of_valid_sizes(rt: HostRuntime) -> Result<(), Fail> {
    let alloc = rt.alloc();
    for (count, made) in [(0, false), (1, true), (64, true), (65, false)] {
        let device = Device::new(alloc, memories(alloc, count, 65536)?);
        match device {
            Ok(device) => {
                assert!(rt; made);
                assert_equal(&rt, device.functions(), count);
            }
            Err(fault) => {
                assert!(rt; !made);
                assert_equal(&rt, fault, Fault::BadMake);
            }
        }
    }
    Ok(())
}

#[test]
fn takes_limits_of_1518_to_9018_bytes(rt: HostRuntime) -> Result<(), Fail> {
    let alloc = rt.alloc();
    for (limit, made) in [(1517, false), (1518, true), (9018, true), (9019, false)] {
        match Device::with_limit(alloc, memories(alloc, 1, 65536)?, limit) {
            Ok(_) => assert!(rt; made),
            Err(fault) => {
                assert!(rt; !made);
                assert_equal(&rt, fault, Fault::BadMake);
            }
        }
    }
    Ok(())
}
