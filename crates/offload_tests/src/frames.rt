//! Frames that scapy 2.5.0 built, with its checksums, and as a driver hands them over: something else in the IPv4 header's field, and the
//! sum of the pseudo header in that of TCP or UDP.
use crate::compare::assert_equal_at;
use offload::{Context, NotSummed, Sums, insert_sums};
use std::test::Fail;

/// IPv4 and TCP; IPv4 with options, and UDP with an odd last byte; IPv6 and TCP; IPv6 and UDP; a tagged frame; the IPv4 header alone; UDP
/// whose sum comes to 0, so that 0xFFFF is sent.
#[test]
fn as_scapy_sums_them(rt: HostRuntime) -> Result<(), Fail> {
    for (first, second, ip, transport, text, due) in [
        (
            0x1c14,
            0x20200c00,
            true,
            true,
            "020000000002020000000001080045000033123400004006abcdc0000201c633640704000050000003e80000004d501801f4ec61000068656c6c6f20776f726c64",
            "0200000000020200000000010800450000331234000040067c55c0000201c633640704000050000003e80000004d501801f4273e000068656c6c6f20776f726c64",
        ),
        (
            0x1c18,
            0x20200400,
            true,
            true,
            "020000000002020000000001080046000023123400004011abcdc0000201c63364079404000000440035000bec58616263",
            "020000000002020000000001080046000023123400004011e755c0000201c63364079404000000440035000b4ec0616263",
        ),
        (
            0x1c28,
            0x20200800,
            false,
            true,
            "02000000000202000000000186dd600123450017064020010db800000000000000000000000120010db800000000000000000002000704000050000003e80000004d501801f45b990000787878",
            "02000000000202000000000186dd600123450017064020010db800000000000000000000000120010db800000000000000000002000704000050000003e80000004d501801f4595c0000787878",
        ),
        (
            0x1c28,
            0x20200000,
            false,
            true,
            "02000000000202000000000186dd60012345001c114020010db800000000000000000000000120010db800000000000000000002000700440035001c5ba9000102030405060708090a0b0c0d0e0f10111213",
            "02000000000202000000000186dd60012345001c114020010db800000000000000000000000120010db800000000000000000002000700440035001c495d000102030405060708090a0b0c0d0e0f10111213",
        ),
        (
            0x2414,
            0x20200400,
            true,
            true,
            "0200000000020200000000018100600708004500001f123400004011abcdc0000201c633640700440035000bec58746167",
            "0200000000020200000000018100600708004500001f1234000040117c5ec0000201c633640700440035000b37c1746167",
        ),
        (
            0x1c14,
            0x20200c00,
            true,
            false,
            "02000000000202000000000108004500002d123400004006abcdc0000201c633640704000050000003e80000004d501801f47540000068656c6c6f",
            "02000000000202000000000108004500002d1234000040067c5bc0000201c633640704000050000003e80000004d501801f47540000068656c6c6f",
        ),
        (
            0x1c14,
            0x20200400,
            true,
            true,
            "02000000000202000000000108004500001e123400004011abcdc0000201c633640700440035000aec571325",
            "02000000000202000000000108004500001e1234000040117c5fc0000201c633640700440035000affff1325",
        ),
    ] {
        let mut frame = hex::decode(rt.alloc(), text)?;
        let sums = Sums { ip, transport };
        let done = insert_sums(frame.as_mut_slice(), &Context::decode(first, second), sums);
        assert_equal_at(&rt, done, Ok(()), text);
        assert_equal_at(
            &rt,
            hex::encode(rt.alloc(), frame.as_slice())?.as_str(),
            due,
            text,
        );
    }
    Ok(())
}

/// What can't be summed stays as it is, and the reason is told: IPv6 has no sum of its header; IPLEN below 20; a header that ends one byte
/// past the frame; TCP and UDP with one byte too few; SCTP; and the L4T that stands for nothing. Nothing is looked at that isn't asked for.
#[test]
fn refused(rt: HostRuntime) -> Result<(), Fail> {
    for (first, second, size, ip, transport, due) in [
        (0x1C14u64, 0x0C00u64, 54, true, true, Ok(())),
        (0x1C14, 0x0800, 54, true, true, Err(NotSummed::NotIpv4)),
        (0x1C14, 0x0800, 54, false, true, Ok(())),
        (0x1C13, 0x0C00, 54, true, true, Err(NotSummed::IpOutside)),
        (0x1C14, 0x0C00, 33, true, false, Err(NotSummed::IpOutside)),
        (0x1C14, 0x0C00, 34, true, false, Ok(())),
        (
            0x1C14,
            0x0C00,
            53,
            true,
            true,
            Err(NotSummed::TransportOutside),
        ),
        (
            0x1C14,
            0x0400,
            41,
            true,
            true,
            Err(NotSummed::TransportOutside),
        ),
        (0x1C14, 0x0400, 42, true, true, Ok(())),
        (0x1C14, 0x1400, 54, true, true, Err(NotSummed::SctpUnsummed)),
        (0x1C14, 0x1400, 54, true, false, Ok(())),
        (0x1C14, 0x1C00, 54, true, true, Err(NotSummed::NoProtocol)),
        (0xFFFF, 0x0C00, 637, true, true, Err(NotSummed::IpOutside)),
        (0xFFFF, 0x0C00, 658, true, true, Ok(())),
        (0xFFFF, 0x1C00, 0, false, false, Ok(())),
    ] {
        let mut frame = [0xA5u8; 700];
        let Some(bytes) = frame.get_mut(..size) else {
            return Err("no such size".into());
        };
        let done = insert_sums(
            bytes,
            &Context::decode(first, second),
            Sums { ip, transport },
        );
        assert_equal_at(&rt, done, due, (first, second, size));
        let changed = frame.iter().any(|byte| *byte != 0xA5);
        assert_equal_at(
            &rt,
            changed,
            due.is_ok() && (ip || transport),
            (first, second, size),
        );
    }
    Ok(())
}
