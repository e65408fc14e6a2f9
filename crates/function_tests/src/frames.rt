//! Values from outside: frames as 802.1Q and the receive address registers lay them out, limits, texts.
use crate::compare::{assert_equal, assert_equal_at};
use std::test::Fail;
use wire_frame::*;

// A frame to 02:00:00:00:00:03 from 02:00:00:00:00:99 with VLAN id 100 at priority 5, of type IPv4.
const TAGGED: [u8; 20] = [
    2, 0, 0, 0, 0, 3, 2, 0, 0, 0, 0, 0x99, 0x81, 0, 0xA0, 0x64, 8, 0, 0xAA, 0xBB,
];

// The same without its tag.
const UNTAGGED: [u8; 16] = [2, 0, 0, 0, 0, 3, 2, 0, 0, 0, 0, 0x99, 8, 0, 0xAA, 0xBB];

#[test]
fn takes_frames_alone(rt: HostRuntime) {
    let mut plain = [0u8; 9019];
    plain[12] = 8;
    let mut tagged = [0u8; 9019];
    tagged[12] = 0x81;
    for (len, takes_plain, takes_tagged) in [
        (0, false, false),
        (13, false, false),
        (14, true, false),
        (17, true, false),
        (18, true, true),
        (1518, true, true),
        (9018, true, true),
        (9019, false, false),
    ] {
        let is_plain = FrameBuf::from_bytes(&plain[..len]).is_ok();
        assert_equal_at(&rt, is_plain, takes_plain, len);
        let is_tagged = FrameBuf::from_bytes(&tagged[..len]).is_ok();
        assert_equal_at(&rt, is_tagged, takes_tagged, len);
        let longest = FrameLimit::longest();
        assert_equal_at(
            &rt,
            Frame::new(&plain[..len], longest).is_ok(),
            takes_plain,
            len,
        );
        assert_equal_at(
            &rt,
            Frame::new(&tagged[..len], longest).is_ok(),
            takes_tagged,
            len,
        );
    }
}

#[test]
fn a_frame_is_no_longer_than_its_limit(rt: HostRuntime) -> Result<(), Fail> {
    let bytes = [0u8; 1519];
    let limit = FrameLimit::standard();
    assert_equal(&rt, Frame::new(&bytes[..1518], limit)?.bytes().len(), 1518);
    assert_equal(&rt, Frame::new(&bytes, limit).err(), Some(Fault::BadFrame));
    let longer = FrameLimit::new(1519).ok_or("a limit")?;
    assert_equal(&rt, Frame::new(&bytes, longer)?.bytes().len(), 1519);
    Ok(())
}

#[test]
fn a_frame_is_read_where_it_stands(rt: HostRuntime) -> Result<(), Fail> {
    let tagged = Frame::new(&TAGGED, FrameLimit::standard())?;
    assert_equal(&rt, tagged.bytes(), TAGGED.as_slice());
    assert_equal(&rt, tagged.dst(), Mac([2, 0, 0, 0, 0, 3]));
    assert_equal(&rt, tagged.src(), Mac([2, 0, 0, 0, 0, 0x99]));
    assert_equal(&rt, tagged.tag(), Some(0xA064));
    let kept = FrameBuf::from_bytes(&UNTAGGED)?;
    assert_equal(&rt, kept.as_frame().bytes(), UNTAGGED.as_slice());
    assert_equal(&rt, kept.as_frame().tag(), None);
    Ok(())
}

#[test]
fn reads_a_tagged_frame(rt: HostRuntime) -> Result<(), Fail> {
    let frame = FrameBuf::from_bytes(&TAGGED)?;
    assert_equal(&rt, frame.bytes(), TAGGED.as_slice());
    assert_equal(&rt, frame.dst(), Mac([2, 0, 0, 0, 0, 3]));
    assert_equal(&rt, frame.src(), Mac([2, 0, 0, 0, 0, 0x99]));
    assert_equal(&rt, frame.tag(), Some(0xA064));
    assert!(rt; frame.copy() == frame);
    let (tag, rest) = frame.stripped().ok_or("tagged")?;
    assert_equal(&rt, tag, 0xA064);
    assert_equal(&rt, rest.as_slice(), UNTAGGED.as_slice());
    Ok(())
}

#[test]
fn frames_are_equal_by_their_bytes(rt: HostRuntime) -> Result<(), Fail> {
    let frame = FrameBuf::from_bytes(&UNTAGGED)?;
    let mut other = frame.copy();
    assert!(rt; frame == other);
    // A byte more, another last byte, and the bytes again over a longer frame.
    let limit = FrameLimit::standard();
    let mut bytes = [0u8; 17];
    bytes[..16].copy_from_slice(&UNTAGGED);
    assert!(rt; other.refill(&bytes, limit));
    assert!(rt; frame != other);
    bytes[15] = 0xBC;
    assert!(rt; other.refill(&bytes[..16], limit));
    assert!(rt; frame != other);
    assert!(rt; other.refill(&TAGGED, limit));
    assert!(rt; other.refill(&UNTAGGED, limit));
    assert!(rt; frame == other);
    assert_equal(
        &rt,
        format!(in rt.alloc(); "{:?}", FrameBuf::blank())?.as_str(),
        "FrameBuf { kept: [0, 0, 0, 0, 0, 0, 0, 0, 0, 0, 0, 0, 0, 0] }",
    );
    Ok(())
}

#[test]
fn inserts_a_tag(rt: HostRuntime) -> Result<(), Fail> {
    let frame = FrameBuf::from_bytes(&UNTAGGED)?;
    assert_equal(&rt, frame.tag(), None);
    assert!(rt; frame.stripped().is_none());
    assert_equal(
        &rt,
        frame.insert(0xA064).ok_or("fits")?.bytes(),
        TAGGED.as_slice(),
    );
    let longest = [0u8; 9018];
    assert!(rt; FrameBuf::from_bytes(&longest[..9014])?.insert(1).is_some());
    assert!(rt; FrameBuf::from_bytes(&longest[..9015])?.insert(1).is_none());
    Ok(())
}

#[test]
fn refills_in_place(rt: HostRuntime) -> Result<(), Fail> {
    let limit = FrameLimit::standard();
    let mut frame = FrameBuf::blank();
    assert_equal(&rt, frame.bytes(), [0u8; 14].as_slice());
    let long = [7u8; 1519];
    assert!(rt; frame.refill(&long[..1518], limit));
    assert_equal(&rt, frame.bytes(), &long[..1518]);
    assert!(rt; !frame.refill(&long, limit));
    assert_equal(&rt, frame.bytes(), &long[..1518]);
    assert!(rt; frame.refill_tagged(0xA064, &UNTAGGED, limit));
    assert_equal(&rt, frame.bytes(), TAGGED.as_slice());
    assert!(rt; !frame.refill_tagged(1, &UNTAGGED[..13], limit));
    assert!(rt; !frame.refill_tagged(1, &long[..1515], limit));
    assert_equal(&rt, frame.bytes(), TAGGED.as_slice());
    assert!(rt; frame.refill_tagged(1, &long[..1514], limit));
    assert_equal(&rt, frame.bytes().len(), 1518);
    Ok(())
}

#[test]
fn knows_kinds_of_addresses(rt: HostRuntime) {
    for (address, kind, number) in [
        (
            [0xFF, 0xFF, 0xFF, 0xFF, 0xFF, 0xFF],
            AddressKind::Broadcast,
            0xFFFF_FFFF_FFFF,
        ),
        (
            [0x01, 0x00, 0x5E, 0x00, 0x00, 0xFB],
            AddressKind::Multicast,
            0xFB00_005E_0001,
        ),
        (
            [0xFF, 0xFF, 0xFF, 0xFF, 0xFF, 0xFE],
            AddressKind::Multicast,
            0xFEFF_FFFF_FFFF,
        ),
        (
            [0x02, 0x00, 0x00, 0x00, 0x00, 0x03],
            AddressKind::Unicast,
            0x0300_0000_0002,
        ),
    ] {
        assert_equal(&rt, Mac(address).kind(), kind);
        assert_equal(&rt, Mac(address).number(), number);
    }
}

#[test]
fn bounds_are_in_the_types(rt: HostRuntime) {
    assert_equal(&rt, PoolId::new(63).map(|p| p.get()), Some(63));
    assert!(rt; PoolId::new(64).is_none());
    assert_equal(&rt, Vid::new(4095).map(|v| v.get()), Some(4095));
    assert!(rt; Vid::new(4096).is_none());
    assert_equal(&rt, Vid::of_tag(0xA064).get(), 100);
    assert_equal(&rt, FrameLimit::standard().get(), 1518);
    assert_equal(&rt, FrameLimit::default(), FrameLimit::standard());
    for (bytes, is_limit) in [(1517, false), (1518, true), (9018, true), (9019, false)] {
        assert_equal_at(&rt, FrameLimit::new(bytes).is_some(), is_limit, bytes);
    }
    assert_equal(&rt, FrameLimit::new(9018).map(|l| l.get()), Some(9018));
}

#[test]
fn numbers_and_texts_of_faults(rt: HostRuntime) -> Result<(), Fail> {
    for (fault, number, text) in [
        (Fault::NoSuchVf, 1, "no such virtual function"),
        (Fault::NotOpen, 2, "the virtual function is not open"),
        (Fault::BadOffset, 3, "the register offset is not valid"),
        (Fault::BadRange, 4, "the range passes the end of the memory"),
        (Fault::TooLong, 5, "the access is longer than 2048 bytes"),
        (Fault::BadFrame, 6, "the bytes are no frame"),
        (
            Fault::AlreadyOpen,
            7,
            "the virtual function is open already",
        ),
        (Fault::HistoryFull, 8, "the history is full"),
        (Fault::NoMemory, 9, "no memory"),
        (
            Fault::BadMake,
            10,
            "a size or a count is outside its limits",
        ),
    ] {
        assert_equal(&rt, fault.number(), number);
        assert_equal(&rt, format!(in rt.alloc(); "{fault}")?.as_str(), text);
    }
    Ok(())
}

// The receive address registers: 128 words eight bytes apart, of which the high ones keep the valid bit and 16 more.
const HIGH: Row = Row {
    first: 0xA204,
    count: 128,
    stride: 8,
    mask: 0x8000_FFFF,
};

#[test]
fn reads_and_writes_rows(rt: HostRuntime) {
    let mut words = [0u32; 128];
    for (offset, stays) in [
        (0xA204, false),
        (0xA5FC, false),
        (0xA208, true),
        (0xA604, true),
    ] {
        write_word(&mut words, HIGH, offset, 0xFFFF_FFFF);
        let word = read_word(&words, HIGH, offset);
        assert_equal(&rt, word, if stays { None } else { Some(0x8000_FFFF) });
    }
    assert_equal(&rt, words[0], 0x8000_FFFF);
    assert_equal(&rt, words[1], 0);
    assert_equal(&rt, words[127], 0x8000_FFFF);
    let mut control = 0;
    write_one(&mut control, 0x5090, 7, 0x5094, 0xFF);
    assert_equal(&rt, control, 0);
    write_one(&mut control, 0x5090, 7, 0x5090, 0xFF);
    assert_equal(&rt, read_one(control, 0x5090, 0x5090), Some(7));
    assert_equal(&rt, read_one(control, 0x5090, 0x5094), None);
}

#[test]
fn reads_sets_of_pools(rt: HostRuntime) {
    assert!(rt; has_bit(0x8000_0000_0000_0000, 63));
    assert!(rt; !has_bit(0x8000_0000_0000_0000, 62));
    // Entry 1 has pool 0 in its low word and pool 63 in its high one.
    let entries = [0, 0, 1, 0x8000_0000];
    assert_equal(&rt, pool_words(&entries, 1), 0x8000_0000_0000_0001);
}

// Pools 0, 5 and 63, the lowest and the highest among them.
#[test]
fn a_set_gives_its_pools_in_rising_order(rt: HostRuntime) -> Result<(), Fail> {
    let set = PoolSet::from_bits(0x8000_0000_0000_0021);
    let mut pools = Vec::new(rt.alloc());
    for pool in set {
        assert!(rt; set.contains(pool));
        pools.push(pool.get())?;
    }
    assert_equal(&rt, pools.as_slice(), [0, 5, 63].as_slice());
    let other = PoolId::new(6).ok_or("a pool")?;
    assert!(rt; !set.contains(other) && !set.is_empty());
    assert!(rt; PoolSet::none().is_empty() && PoolSet::none().into_iter().next().is_none());
    Ok(())
}
