//! 64 functions beside one another.
use crate::driver::{ask, host, policy, words};
use mailbox::{Mailbox, Write};
use script_support::registers::{RAH, VALID, VFMBMEM};
use std::test::Fail;
use wire_frame::PoolId;

/// Each of 64 functions is reset and gets its own permanent address, whose last byte is twice the pool's number; the writes go
/// to its own receive address entry; and to ask for the next one's address is refused.
#[test]
fn each_has_its_own(rt: HostRuntime) -> Result<(), Fail> {
    let mut host = host()?;
    for number in 0..64 {
        let pool = PoolId::new(number).ok_or("no such pool")?;
        host.admit(pool, &policy(2 * number))?;
    }
    let mut mailbox = Mailbox::new();
    for number in 0..64 {
        let pool = PoolId::new(number).ok_or("no such pool")?;
        let writes = ask(&mut host, pool, &mut mailbox, [1, 0, 0])?;
        let own = u32::from(number) * 0x200;
        assert_eq!(rt; words(&mut mailbox), [0x8000_0001, 0x9059_8202, own, 0, 0]);
        assert_eq!(rt;
            writes.as_slice().get(1).copied(),
            Some(Write {
                offset: RAH + 8 * u32::from(number),
                value: VALID + own,
            })
        );
        let next = (u32::from(number) + 1) % 64 * 0x200;
        let _ = ask(&mut host, pool, &mut mailbox, [2, 0x9059_8202, next])?;
        assert_eq!(rt; mailbox.read(VFMBMEM), Some(0x6000_0002));
    }
    Ok(())
}
