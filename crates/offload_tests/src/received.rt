//! What a card says of frames that it received. The frames are those that scapy 2.5.0 built, with its checksums but where one is said to be bad.
use crate::compare::assert_equal_at;
use offload::{Context, Sums, insert_sums};
use receive_checksum::{Check, Checks, check_sums};
use std::process::Abort;
use std::test::Fail;
use wire_frame::{Frame, FrameLimit};

/// IPv4 and TCP; IPv4 and UDP, and with an odd last byte; IPv6 and TCP; IPv6 and UDP; a tag with IPv4 and UDP, and with IPv6 and TCP; padding
/// that isn't zeros, behind IPv4 and behind IPv6; options of IPv4 and of TCP; Don't Fragment; and UDP that is two bytes shorter than the payload.
/// Then a wrong sum, 0x1111: of the IPv4 header, of TCP, and of UDP over IPv6.
#[test]
fn sums_that_are_looked_at(rt: HostRuntime) -> Result<(), Fail> {
    for (text, ip, transport) in [
        (
            "0200000002020200000001010800450000331234000040067c55c0000201c633640704000050000003e80000004d501801f4273e000068656c6c6f20776f726c64",
            Check::Good,
            Check::Good,
        ),
        (
            "0200000002020200000001010800450000201234000040117c5dc0000201c633640704000035000c4a9e61626364",
            Check::Good,
            Check::Good,
        ),
        (
            "02000000020202000000010108004500001f1234000040117c5ec0000201c633640704000035000b4b04616263",
            Check::Good,
            Check::Good,
        ),
        (
            "02000000020202000000010186dd600000000017064020010db800000000000000000000000120010db800000000000000000000000204000050000003e80000004d501801f45762000078797a",
            Check::Unchecked,
            Check::Good,
        ),
        (
            "02000000020202000000010186dd60000000001c114020010db800000000000000000000000120010db800000000000000000000000204000035001c45a8000102030405060708090a0b0c0d0e0f10111213",
            Check::Unchecked,
            Check::Good,
        ),
        (
            "0200000002020200000001018100600708004500001f1234000040117c5ec0000201c633640704000035000b3405746167",
            Check::Good,
            Check::Good,
        ),
        (
            "0200000002020200000001018100000786dd600000000017064020010db800000000000000000000000120010db800000000000000000000000204000050000003e80000004d501801f46e7a0000746167",
            Check::Unchecked,
            Check::Good,
        ),
        (
            "02000000020202000000010108004500001f1234000040117c5ec0000201c633640704000035000b3b05706164aaaaaaaaaaaaaaaaaaaaaaaaaaaaaa",
            Check::Good,
            Check::Good,
        ),
        (
            "02000000020202000000010186dd600000000009114020010db800000000000000000000000120010db80000000000000000000000020400003500093032705555555555",
            Check::Unchecked,
            Check::Good,
        ),
        (
            "020000000202020000000101080046000038123400004006e74bc0000201c63364079404000004000050000003e80000004d601801f4ec9e0000020405b46f7074696f6e616c",
            Check::Good,
            Check::Good,
        ),
        (
            "0200000002020200000001010800450000241234400040113c59c0000201c63364070400003500105bed6669727374206672",
            Check::Good,
            Check::Good,
        ),
        (
            "0200000002020200000001010800450000201234000040117c5dc0000201c633640704000035000a96ef78790102",
            Check::Good,
            Check::Good,
        ),
        (
            "0200000002020200000001010800450000291234000040061111c0000201c633640704000050000003e80000004d501801f44116000078",
            Check::Bad,
            Check::Good,
        ),
        (
            "0200000002020200000001010800450000291234000040067c5fc0000201c633640704000050000003e80000004d501801f41111000078",
            Check::Good,
            Check::Bad,
        ),
        (
            "02000000020202000000010186dd600000000009114020010db800000000000000000000000120010db8000000000000000000000002040000350009111178",
            Check::Unchecked,
            Check::Bad,
        ),
    ] {
        assert_equal_at(&rt, found(&rt, text)?, Checks { ip, transport }, text);
    }
    Ok(())
}

/// UDP without a checksum, over IPv4 and over IPv6; the first fragment, and one with an offset; ICMP; SCTP; 19 bytes of TCP; and UDP whose
/// length is one byte too much, or 7.
#[test]
fn transport_that_is_not_looked_at(rt: HostRuntime) -> Result<(), Fail> {
    for (text, ip, transport) in [
        (
            "02000000020202000000010108004500001f1234000040117c5ec0000201c633640704000035000b0000616263",
            Check::Good,
            Check::Unchecked,
        ),
        (
            "02000000020202000000010186dd60000000000b114020010db800000000000000000000000120010db800000000000000000000000204000035000b0000616263",
            Check::Unchecked,
            Check::Unchecked,
        ),
        (
            "0200000002020200000001010800450000241234200040115c59c0000201c63364070400003500105bed6669727374206672",
            Check::Good,
            Check::Unchecked,
        ),
        (
            "0200000002020200000001010800450000241234000340117c56c0000201c63364070400003500105bed6669727374206672",
            Check::Good,
            Check::Unchecked,
        ),
        (
            "0200000002020200000001010800450000201234000040017c6dc0000201c63364070800192d0001000170696e67",
            Check::Good,
            Check::Unchecked,
        ),
        (
            "0200000002020200000001010800450000341234000040847bd6c0000201c63364070001000200000000b19b3ac80000001100000000000000000000000078000000",
            Check::Good,
            Check::Unchecked,
        ),
        (
            "0200000002020200000001010800450000271234000040067c61c0000201c633640700000000000000000000000000000000000000",
            Check::Good,
            Check::Unchecked,
        ),
        (
            "02000000020202000000010108004500001d1234000040117c60c0000201c633640704000035000a976978",
            Check::Good,
            Check::Unchecked,
        ),
        (
            "02000000020202000000010108004500001d1234000040117c60c0000201c6336407040000350007976c78",
            Check::Good,
            Check::Unchecked,
        ),
    ] {
        assert_equal_at(&rt, found(&rt, text)?, Checks { ip, transport }, text);
    }
    Ok(())
}

/// A total length past the end, and one below the header's; header lengths of 16 bytes, and of 60 in 29; version 5 in IPv4, and version 4 in
/// IPv6; a payload length past the end; IPv6 with a hop-by-hop header; ARP; and two tags.
#[test]
fn frames_that_are_not_looked_at(rt: HostRuntime) -> Result<(), Fail> {
    for text in [
        "0200000002020200000001010800450000351234000040117c48c0000201c6336407040000350009975278",
        "0200000002020200000001010800450000131234000040117c6ac0000201c6336407040000350009977378",
        "02000000020202000000010108004400001d1234000040117d60c0000201c6336407040000350009976a78",
        "02000000020202000000010108004f00001d1234000040117260c0000201c6336407040000350009976a78",
        "02000000020202000000010108005500001d1234000040116c60c0000201c6336407040000350009976a78",
        "02000000020202000000010186dd400000000009114020010db800000000000000000000000120010db8000000000000000000000002040000350009283278",
        "02000000020202000000010186dd60000000000a114020010db800000000000000000000000120010db8000000000000000000000002040000350009283278",
        "02000000020202000000010186dd600000000011004020010db800000000000000000000000120010db80000000000000000000000021100050200000100040000350009283278",
        "02000000020202000000010108060001080006040001020000000101c0000201000000000000c0000207",
        "020000000202020000000101810000018100000208004500001d1234000040117c60c0000201c6336407040000350009976a78",
    ] {
        assert_equal_at(&rt, found(&rt, text)?, Checks::none(), text);
    }
    Ok(())
}

/// What a driver leaves to the card, as in the tests of frames: with the sums that are made for it all is good, and with any one bit turned over
/// behind the first eight bytes of TCP or UDP, their sum is bad.
#[test]
fn sums_that_were_inserted(rt: HostRuntime) -> Result<(), Fail> {
    for (first, second, ip, text) in [
        (
            0x1c14u64,
            0x20200c00u64,
            Check::Good,
            "020000000002020000000001080045000033123400004006abcdc0000201c633640704000050000003e80000004d501801f4ec61000068656c6c6f20776f726c64",
        ),
        (
            0x1c18,
            0x20200400,
            Check::Good,
            "020000000002020000000001080046000023123400004011abcdc0000201c63364079404000000440035000bec58616263",
        ),
        (
            0x1c28,
            0x20200800,
            Check::Unchecked,
            "02000000000202000000000186dd600123450017064020010db800000000000000000000000120010db800000000000000000002000704000050000003e80000004d501801f45b990000787878",
        ),
        (
            0x2414,
            0x20200400,
            Check::Good,
            "0200000000020200000000018100600708004500001f123400004011abcdc0000201c633640700440035000bec58746167",
        ),
        (
            0x1c14,
            0x20200400,
            Check::Good,
            "02000000000202000000000108004500001e123400004011abcdc0000201c633640700440035000aec571325",
        ),
    ] {
        let mut bytes = hex::decode(rt.alloc(), text)?;
        let context = Context::decode(first, second);
        let sums = Sums {
            ip: ip == Check::Good,
            transport: true,
        };
        let done = insert_sums(bytes.as_mut_slice(), &context, sums);
        assert_equal_at(&rt, done, Ok(()), text);
        let due = Checks {
            ip,
            transport: Check::Good,
        };
        assert_equal_at(&rt, of_bytes(bytes.as_slice())?, due, text);
        turn_each_bit(&rt, bytes.as_mut_slice(), context.transport_at(), ip)?;
    }
    Ok(())
}

// Turns each bit over, one after the other, from eight bytes behind a place on.
fn turn_each_bit(rt: &impl Abort, bytes: &mut [u8], place: usize, ip: Check) -> Result<(), Fail> {
    let due = Checks {
        ip,
        transport: Check::Bad,
    };
    for at in place.wrapping_add(8)..bytes.len() {
        for mask in [1u8, 2, 4, 8, 16, 32, 64, 128] {
            turn(bytes, at, mask);
            assert_equal_at(rt, of_bytes(bytes)?, due, (at, mask));
            turn(bytes, at, mask);
        }
    }
    Ok(())
}

fn turn(bytes: &mut [u8], at: usize, mask: u8) {
    if let Some(byte) = bytes.get_mut(at) {
        *byte ^= mask;
    }
}

fn found(rt: &HostRuntime, text: &str) -> Result<Checks, Fail> {
    let bytes = hex::decode(rt.alloc(), text)?;
    of_bytes(bytes.as_slice())
}

fn of_bytes(bytes: &[u8]) -> Result<Checks, Fail> {
    match Frame::new(bytes, FrameLimit::longest()) {
        Ok(frame) => Ok(check_sums(frame)),
        Err(_) => Err("it is a frame".into()),
    }
}
