//! The examples of the documentation of internet_checksum, offload and receive_checksum, which docs/check compares with these.
use internet_checksum::{checksum, sum};
use offload::{Context, Cut};
use receive_checksum::{Check, check_sums};
use std::test::Fail;
use wire_frame::{Frame, FrameLimit};

#[test]
fn example_of_internet_checksum(rt: HostRuntime) {
    // the words 0x0001, 0xF203, 0xF4F5 and 0xF6F7 (RFC 1071, section 3)
    let bytes = [0x00u8, 0x01, 0xF2, 0x03, 0xF4, 0xF5, 0xF6, 0xF7];
    assert_eq!(rt; sum(&bytes, 0), 0xDDF2);
    assert_eq!(rt; checksum(&bytes), 0x220D);
}

#[test]
fn example_of_offload(rt: HostRuntime) -> Result<(), Fail> {
    // 14 bytes of Ethernet, 20 of IPv4 and 20 of TCP; 10 bytes of payload a segment
    let context = Context::decode(0x1C14, 0x000A_1400_0000_0C00);
    let mut frame = [0u8; 75];
    let Ok(cut) = Cut::of(&context, frame.len(), 1514) else {
        return Err("it can be cut".into());
    };
    let mut room = [0u8; 1514];
    for number in 0..cut.count() {
        let size = cut.segment(&mut frame, number, &mut room);
        assert!(rt; size == 64 || number == 2);
        cut.put_back(&mut frame, number, &room);
    }
    Ok(())
}

#[test]
fn example_of_receive_checksum(rt: HostRuntime) -> Result<(), Fail> {
    // 14 bytes of Ethernet, and a header of IPv4 alone, whose checksum is 0x8DB1
    let mut bytes = [0u8; 34];
    bytes[12..22].copy_from_slice(&[0x08, 0x00, 0x45, 0, 0, 20, 0, 0, 0, 0]);
    bytes[22..].copy_from_slice(&[64, 253, 0x8D, 0xB1, 192, 0, 2, 1, 198, 51, 100, 7]);
    let Ok(frame) = Frame::new(&bytes, FrameLimit::longest()) else {
        return Err("it is a frame".into());
    };
    let found = check_sums(frame);
    assert_eq!(rt; found.ip, Check::Good);
    assert_eq!(rt; found.transport, Check::Unchecked);
    Ok(())
}
