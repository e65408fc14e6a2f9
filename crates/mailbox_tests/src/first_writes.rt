//! The first writes.
use crate::driver::{host, policy};
use mailbox::Write;
use script_support::registers::{
    MCSTCTRL, MPSAR, MTA, PF_VT_CTL, PFDTXGSWC, PFVFRE, PFVFSPOOF, PFVFTE, RAH, RAL, VALID, VFTA,
    VLNCTRL, VLVF, VLVFB, VMOLR, VMVIR,
};
use std::test::Fail;
use wire_frame::PoolId;

/// There are 1104 of them. The first eight turn all source checks on; the address entries are empty; entry 65 is pool 1's
/// alone; VLANs are filtered; VFTA has the ids 0, 100 and 200; VLVF has them with VI_En; there is no default pool; frames go from
/// pool to pool; and nobody is up.
#[test]
fn first_writes(rt: HostRuntime) -> Result<(), Fail> {
    let host = host()?;
    for (i, offset, value) in [
        (0, PFVFSPOOF, 0xFFFF),
        (7, PFVFSPOOF + 4 * 7, 0xFFFF),
        (8, RAL, 0),
        (136, RAH, 0),
        (394, MPSAR + 8 * 65, 2),
        (395, MPSAR + 8 * 65 + 4, 0),
        (520, MTA, 0),
        (648, MCSTCTRL, 0),
        (649, VLNCTRL, 0x4000_0000),
        (650, VFTA, 1),
        (653, VFTA + 4 * 3, 0x10),
        (656, VFTA + 4 * 6, 0x100),
        (778, VLVF, VALID),
        (779, VLVF + 4, VALID | 0x64),
        (780, VLVF + 4 * 2, VALID | 0xC8),
        (781, VLVF + 4 * 3, 0),
        (842, VLVFB, 0),
        (970, PF_VT_CTL, 0x6000_0001),
        (971, VMVIR, 0),
        (1035, PFDTXGSWC, 1),
        (1036, VMOLR, 0),
        (1100, PFVFRE, 0),
        (1102, PFVFTE, 0),
    ] {
        assert_eq!(rt; host.first_write(i), Some(Write { offset, value }));
    }
    assert_eq!(rt; host.first_write(1104), None);
    Ok(())
}

/// A function that is admitted and not reset changes no first write.
#[test]
fn admits_without_writes(rt: HostRuntime) -> Result<(), Fail> {
    let mut host = host()?;
    let pool = PoolId::new(1).ok_or("no such pool")?;
    host.admit(pool, &policy(0x10))?;
    assert_eq!(rt;
        host.first_write(9),
        Some(Write {
            offset: RAL + 8,
            value: 0
        })
    );
    assert_eq!(rt;
        host.first_write(1102),
        Some(Write {
            offset: PFVFTE,
            value: 0
        })
    );
    Ok(())
}
