//! Context descriptors.
use crate::compare::assert_equal_at;
use offload::{Context, Ip, Transport};
use std::test::Fail;

/// Each field alone has all its bits at 1, and each bit outside of all fields; then the two words that Linux 6.1 makes for a tagged TCP
/// frame of IPv4 to be cut: MACLEN 14, IPLEN 20, VLAN 7, L4LEN 32, MSS 1448.
#[test]
fn fields(rt: HostRuntime) -> Result<(), Fail> {
    for (first, second, due) in [
        (0, 0, (0, 0, 0, 0, 0, 0)),
        (0x0000_01FF, 0, (511, 0, 0, 0, 0, 0)),
        (0x0000_FE00, 0, (0, 127, 0, 0, 0, 0)),
        (0xFFFF_0000, 0, (0, 0, 65_535, 0, 0, 0)),
        (0xFFFF_FFFF_0000_0000, 0, (0, 0, 0, 0, 0, 0)),
        (0, 0x0000_0010_0000_0000, (0, 0, 0, 1, 0, 0)),
        (0, 0x0000_FF00_0000_0000, (0, 0, 0, 0, 255, 0)),
        (0, 0xFFFF_0000_0000_0000, (0, 0, 0, 0, 0, 65_535)),
        (0, 0x0000_00EF_FFFF_FFFF, (0, 0, 0, 0, 0, 0)),
        (0x0007_1C14, 0x05A8_2010_2020_0C00, (20, 14, 7, 1, 32, 1448)),
    ] {
        let c = Context::decode(first, second);
        assert_equal_at(
            &rt,
            (c.iplen, c.maclen, c.vlan, c.index, c.l4len, c.mss),
            due,
            (first, second),
        );
    }
    Ok(())
}

/// TUCMD: bit 10 is IPV4, and bits 12:11 are L4T.
#[test]
fn protocols(rt: HostRuntime) -> Result<(), Fail> {
    for (second, due) in [
        (0x0000u64, (Ip::V6, Transport::Udp)),
        (0x0400, (Ip::V4, Transport::Udp)),
        (0x0800, (Ip::V6, Transport::Tcp)),
        (0x1400, (Ip::V4, Transport::Sctp)),
        (0x1800, (Ip::V6, Transport::Reserved)),
        (0xFFFF_FFFF_FFFF_E3FF, (Ip::V6, Transport::Udp)),
    ] {
        let c = Context::decode(u64::MAX, second);
        assert_equal_at(&rt, (c.ip, c.transport), due, second);
    }
    Ok(())
}
