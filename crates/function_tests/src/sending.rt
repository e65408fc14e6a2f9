//! Descriptors as a driver writes them, and what then comes of them: words, frames and outcomes are worked out by hand from
//! the datasheet's descriptor formats and the rules of port VLANs.
ghost use Rattle.std.specs.Prelude.{◌≡◌, length, IfOk};
ghost use Rattle.rings.specs.Ring.{LiesInside};

use crate::compare::{assert_equal, assert_equal_at};
use guest_memory::{FlatMem, GuestMem, read_bytes, read_word, write_bytes, write_words};
use live_memory::Traced;
use rings::{Ring, RingRegister};
use std::alloc::Global;
use std::iter;
use std::process::Abort;
use std::test::Fail;
use tx_desc::{Fetched, Pending, Progress, fetch, fetch_into};
use wire_frame::{Fault, FrameBuf, FrameLimit, PortVlan};

/// The size of the memory.
const SIZE: u64 = 0x1_0000;
/// Where the ring of eight descriptors stands.
const RING: u64 = 0x1000;
/// Where the bytes of a frame stand.
const FIRST: u64 = 0x6000;
/// Where those of a second descriptor do.
const SECOND: u64 = 0x7000;

/// The addresses and the type of an untagged frame; zeros follow, here and in memory.
const PLAIN: [u8; 18] = [2, 0, 0, 0, 0, 4, 2, 0, 0, 0, 0, 0x99, 8, 0, 0, 0, 0, 0];
/// The same frame with tag control 5.
const TAGGED_5: [u8; 18] = [2, 0, 0, 0, 0, 4, 2, 0, 0, 0, 0, 0x99, 0x81, 0, 0, 5, 8, 0];
/// The same frame with tag control 100.
const TAGGED_100: [u8; 18] = [2, 0, 0, 0, 0, 4, 2, 0, 0, 0, 0, 0x99, 0x81, 0, 0, 100, 8, 0];
/// Nothing but zeros.
const ZEROS: [u8; 18] = [0; 18];

/// Whether the frame has `len` bytes: those of `start`, and zeros after them.
fn is_padded(frame: &FrameBuf, start: [u8; 18], len: usize) -> bool {
    let bytes = frame.bytes();
    let mut expected = start.iter().chain(iter::repeat(&0));
    bytes.len() == len && bytes.iter().all(|byte| expected.next() == Some(byte))
}

/// A memory with the bytes at [`FIRST`], and a first descriptor of the two words.
fn memory_of(
    rt: &impl Abort,
    alloc: Global,
    bytes: [u8; 18],
    buffer: u64,
    word: u64,
) -> Result<FlatMem, Fault>
    ensures { IfOk result (λ m. length m ≡ 65536) }
{
    let mut memory = FlatMem::new(alloc, SIZE)?;
    assert_eq!(rt; memory.size(), 65536);
    write_bytes(&mut memory, FIRST, &bytes);
    write_words(&mut memory, RING, buffer, word);
    Ok(memory)
}

/// A ring of eight descriptors that is on, of which the device owns the first `tail`.
fn ring_of(tail: u32) -> Ring
    ensures { LiesInside 65536 result }
{
    ring_at(RING as u32, 0, tail)
}

/// The same, from another address on and from another head.
fn ring_at(base: u32, head: u32, tail: u32) -> Ring
    ensures { LiesInside 65536 result }
{
    let mut ring = Ring::new();
    ring.write(RingRegister::BaseLow, base);
    ring.write(RingRegister::Length, 128);
    ring.write(RingRegister::Head, head);
    ring.set_tail(tail);
    ring.try_enable(SIZE);
    ring
}

/// The address and the second word of a lone descriptor; then the outcome, the second word afterwards, and the head.
#[test]
fn kinds_of_descriptors(rt: HostRuntime) -> Result<(), Fail> {
    use Progress::{Dropped, Ended, Faulted, More};
    let rows = [
        // advanced data; legacy, where bit 31 means nothing; without RS; without EOP
        (FIRST, 0x2930_003C, Ended, 0x1_2930_003C, 1),
        (FIRST, 0x8900_003C, Ended, 0x1_8900_003C, 1),
        (FIRST, 0x0100_003C, Ended, 0x0100_003C, 1),
        (FIRST, 0x2830_003C, More, 0x1_2830_003C, 1),
        // bytes past the end of the memory; no bytes, at the end and past it
        (u64::MAX, 0x2930_003C, Faulted, 0x2930_003C, 0),
        (SIZE, 0x2930_0000, Dropped, 0x1_2930_0000, 1),
        (SIZE + 1, 0x2930_0000, Faulted, 0x2930_0000, 0),
        // an unknown type; TSE; VLE; a context, which no RS reports
        (FIRST, 0x2910_003C, Faulted, 0x2910_003C, 0),
        (FIRST, 0xA930_003C, Faulted, 0xA930_003C, 0),
        (FIRST, 0x6930_003C, Faulted, 0x6930_003C, 0),
        (FIRST, 0x2920_003C, More, 0x2920_003C, 1),
    ];
    for (buffer, word, outcome, word_after, head) in rows {
        let mut memory = Traced::new(memory_of(&rt, rt.alloc(), PLAIN, buffer, word)?);
        let mut ring = ring_of(1);
        let mut pending = Pending::new(rt.alloc())?;
        let mut frame = FrameBuf::blank();
        let rule = PortVlan::Descriptor;
        let limit = FrameLimit::standard();
        let served = fetch_into(
            &mut memory,
            &mut ring,
            &mut pending,
            &mut frame,
            rule,
            limit,
        );
        assert_eq!(rt; memory.size(), 65536);
        let after = (
            served.outcome,
            served.reported,
            memory.load_word(RING + 8),
            ring.read(RingRegister::Head),
            ring.is_enabled(),
        );
        let wanted = (
            outcome,
            word_after != word,
            word_after,
            head,
            outcome != Faulted,
        );
        assert!(rt; after == wanted, "{buffer:x} {word:x}");
    }
    Ok(())
}

/// The second word of a lone descriptor, its bytes and the port's rule; then how the frame that is sent begins, and its
/// length, 0 where it is dropped.
#[test]
fn frames_under_port_rules(rt: HostRuntime) -> Result<(), Fail> {
    use PortVlan::{Always, Descriptor, Never};
    let rows = [
        (0x2930_003C, PLAIN, Descriptor, PLAIN, 60),
        (0x5_0000_4900_003C, PLAIN, Descriptor, TAGGED_5, 64),
        (0x2930_003C, PLAIN, Always(100), TAGGED_100, 64),
        (0x5_0000_4900_003C, PLAIN, Always(100), TAGGED_100, 64),
        (0x5_0000_4900_003C, PLAIN, Never, PLAIN, 60),
        (0x2930_0040, TAGGED_5, Always(100), ZEROS, 0),
        // a tag makes 1514 bytes a longest frame, and 1515 none
        (0x2930_05EA, PLAIN, Always(100), TAGGED_100, 1518),
        (0x2930_05EB, PLAIN, Always(100), ZEROS, 0),
    ];
    for (word, bytes, rule, start, len) in rows {
        let mut memory = memory_of(&rt, rt.alloc(), bytes, FIRST, word)?;
        let mut ring = ring_of(1);
        let mut pending = Pending::new(rt.alloc())?;
        let limit = FrameLimit::standard();
        match fetch(&mut memory, &mut ring, &mut pending, rule, limit) {
            (Fetched::Frame(frame), true) => assert!(rt;
                is_padded(&frame, start, len),
                "{rule:?} {word:x}"
            ),
            (Fetched::Dropped, true) => assert_eq!(rt; len, 0, "{rule:?} {word:x}"),
            _ => assert!(rt; false, "{rule:?} {word:x}"),
        }
    }
    Ok(())
}

/// A descriptor may name its own 16 bytes: they are sent as the driver wrote them.
#[test]
fn a_descriptor_sends_itself(rt: HostRuntime) -> Result<(), Fail> {
    let mut memory = Traced::new(memory_of(&rt, rt.alloc(), ZEROS, RING, 0x2930_0010)?);
    let mut ring = ring_of(1);
    let mut pending = Pending::new(rt.alloc())?;
    let mut frame = FrameBuf::blank();
    let rule = PortVlan::Descriptor;
    let limit = FrameLimit::standard();
    let served = fetch_into(
        &mut memory,
        &mut ring,
        &mut pending,
        &mut frame,
        rule,
        limit,
    );
    assert_equal(&rt, served.outcome, Progress::Ended);
    let expected = [0, 0x10, 0, 0, 0, 0, 0, 0, 0x10, 0, 0x30, 0x29, 0, 0, 0, 0];
    assert_equal(&rt, frame.bytes(), expected.as_slice());
    assert_eq!(rt; memory.size(), 65536);
    assert_equal(&rt, memory.load_word(RING + 8), 0x1_2930_0010);
    Ok(())
}

/// A memory whose bytes about the ring differ from 16 to 16, and a first descriptor of the two words.
fn striped(rt: &impl Abort, alloc: Global, buffer: u64, word: u64) -> Result<FlatMem, Fault>
    ensures { IfOk result (λ m. length m ≡ 65536) }
{
    let mut memory = FlatMem::new(alloc, SIZE)?;
    for stripe in 0..16u8 {
        assert_eq!(rt; memory.size(), 65536);
        write_words(
            &mut memory,
            RING - 128 + 16 * u64::from(stripe),
            0x0101_0101_0101_0101 * u64::from(stripe),
            0x8070_6050_4030_2010,
        );
    }
    assert_eq!(rt; memory.size(), 65536);
    write_words(&mut memory, RING, buffer, word);
    Ok(memory)
}

/// Where the bytes of a frame begin and how many they are, beside the 16 bytes of its descriptor: up to them, over the first of
/// them, over all, some, all and no others, over the last, and behind. What stands there is sent, by the lent frame's room
/// or without.
#[test]
fn frames_over_their_descriptor(rt: HostRuntime) -> Result<(), Fail> {
    let rows = [
        (RING - 60, 60u16),
        (RING - 50, 60),
        (RING - 22, 60),
        (RING + 1, 14),
        (RING, 16),
        (RING + 6, 60),
        (RING + 16, 60),
    ];
    for (buffer, size) in rows {
        for lent in [FrameBuf::blank(), FrameBuf::from_bytes(&[1; 100])?] {
            let word = 0x0900_0000 + u64::from(size);
            let flat = striped(&rt, rt.alloc(), buffer, word)?;
            let mut due = [0u8; 60];
            assert!(rt; buffer < 0x2000);
            read_bytes(&flat, buffer, &mut due);
            let mut memory = Traced::new(flat);
            let mut ring = ring_of(1);
            let mut pending = Pending::new(rt.alloc())?;
            let mut frame = lent;
            let served = fetch_into(
                &mut memory,
                &mut ring,
                &mut pending,
                &mut frame,
                PortVlan::Descriptor,
                FrameLimit::standard(),
            );
            assert_equal_at(&rt, served.outcome, Progress::Ended, buffer);
            assert_eq!(rt; frame.bytes().len(), usize::from(size), "at {buffer:x}");
            assert!(rt; due.starts_with(frame.bytes()), "at {buffer:x}");
        }
    }
    Ok(())
}

/// Two advanced descriptors of 1000 and 600 bytes are too many for a limit of 1518, and a frame under one of 9018. A third
/// call finds no descriptor.
#[test]
fn two_descriptors(rt: HostRuntime) -> Result<(), Fail> {
    for (most, len) in [(1518, None), (9018, Some(1600))] {
        let limit = FrameLimit::new(most).ok_or("no limit")?;
        let rule = PortVlan::Descriptor;
        let mut flat = memory_of(&rt, rt.alloc(), PLAIN, FIRST, 0x2830_03E8)?;
        write_words(&mut flat, RING + 16, SECOND, 0x2930_0258);
        let mut memory = Traced::new(flat);
        let mut ring = ring_of(2);
        let mut pending = Pending::new(rt.alloc())?;
        let mut frame = FrameBuf::blank();
        let first = fetch_into(
            &mut memory,
            &mut ring,
            &mut pending,
            &mut frame,
            rule,
            limit,
        );
        assert_equal_at(
            &rt,
            (first.outcome, first.reported),
            (Progress::More, true),
            most,
        );
        let second = fetch_into(
            &mut memory,
            &mut ring,
            &mut pending,
            &mut frame,
            rule,
            limit,
        );
        assert!(rt; second.reported, "under {most}");
        match (second.outcome, len) {
            (Progress::Ended, Some(len)) => assert!(rt; is_padded(&frame, PLAIN, len)),
            (Progress::Dropped, None) => {}
            _ => assert!(rt; false, "under {most}"),
        }
        let third = fetch_into(
            &mut memory,
            &mut ring,
            &mut pending,
            &mut frame,
            rule,
            limit,
        );
        assert_equal_at(
            &rt,
            (third.outcome, third.reported),
            (Progress::Idle, false),
            most,
        );
    }
    Ok(())
}

/// A tag in a descriptor that is not the last one of its frame is not looked at; and a pending frame that is forgotten
/// gives no bytes to the next one.
#[test]
fn pending_bytes(rt: HostRuntime) -> Result<(), Fail> {
    for (is_forgotten, start, len) in [(false, PLAIN, 74), (true, ZEROS, 14)] {
        let limit = FrameLimit::standard();
        let mut flat = memory_of(&rt, rt.alloc(), PLAIN, FIRST, 0x5_0000_4800_003C)?;
        write_words(&mut flat, RING + 16, SECOND, 0x0900_000E);
        let mut memory = Traced::new(flat);
        let mut ring = ring_of(2);
        let mut pending = Pending::new(rt.alloc())?;
        let mut frame = FrameBuf::blank();
        let rule = PortVlan::Descriptor;
        let first = fetch_into(
            &mut memory,
            &mut ring,
            &mut pending,
            &mut frame,
            rule,
            limit,
        );
        assert_equal(&rt, first.outcome, Progress::More);
        if is_forgotten {
            pending.clear();
        }
        let second = fetch_into(
            &mut memory,
            &mut ring,
            &mut pending,
            &mut frame,
            rule,
            limit,
        );
        assert_equal(&rt, second.outcome, Progress::Ended);
        assert!(rt; is_padded(&frame, start, len), "of {len}");
    }
    Ok(())
}

/// Frames of two descriptors, one after another in one room: a longest one, a shorter one, a longer one again. Each has its own
/// bytes, and none of those before it.
#[test]
fn frames_in_turn(rt: HostRuntime) -> Result<(), Fail> {
    let limit = FrameLimit::new(9018).ok_or("no limit")?;
    let rule = PortVlan::Descriptor;
    let mut pending = Pending::new(rt.alloc())?;
    for (first, second, byte) in [(9000u16, 18u16, 0xA5), (14, 46, 0x11), (8000, 1018, 0x22)] {
        let mut flat = FlatMem::new(rt.alloc(), SIZE)?;
        assert_eq!(rt; flat.size(), 65536);
        write_bytes(&mut flat, SECOND, &[byte; 9018]);
        write_words(&mut flat, RING, SECOND, 0x2830_0000 + u64::from(first));
        write_words(
            &mut flat,
            RING + 16,
            SECOND,
            0x2930_0000 + u64::from(second),
        );
        let mut memory = Traced::new(flat);
        assert_eq!(rt; memory.size(), 65536);
        let mut ring = ring_of(2);
        let mut frame = FrameBuf::blank();
        let more = fetch_into(
            &mut memory,
            &mut ring,
            &mut pending,
            &mut frame,
            rule,
            limit,
        );
        assert_equal_at(&rt, more.outcome, Progress::More, first);
        let ended = fetch_into(
            &mut memory,
            &mut ring,
            &mut pending,
            &mut frame,
            rule,
            limit,
        );
        assert_equal_at(&rt, ended.outcome, Progress::Ended, first);
        let len = usize::from(first) + usize::from(second);
        assert_equal(&rt, frame.bytes().len(), len);
        assert!(rt;
            frame.bytes().iter().all(|found| *found == byte),
            "of {first}"
        );
    }
    Ok(())
}

// Takes two descriptors, one after the other, of a memory of any kind.
fn fetch_two(
    memory: &mut dyn GuestMem,
    ring: &mut Ring,
    pending: &mut Pending,
    rule: PortVlan,
) -> ((Fetched, bool), (Fetched, bool))
    requires { LiesInside (length (bytes memory.old)) ring.old }
{
    let limit = FrameLimit::standard();
    let first = fetch(memory, ring, pending, rule, limit);
    let second = fetch(memory, ring, pending, rule, limit);
    (first, second)
}

/// The first of two descriptors has the addresses and the type, and the second what follows.
#[test]
fn two_descriptors_of_any_memory(rt: HostRuntime) -> Result<(), Fail> {
    let mut memory = memory_of(&rt, rt.alloc(), PLAIN, FIRST, 0x2830_000E)?;
    write_words(&mut memory, RING + 16, SECOND, 0x2930_002E);
    let mut ring = ring_of(2);
    let mut pending = Pending::new(rt.alloc())?;
    let (first, second) = fetch_two(&mut memory, &mut ring, &mut pending, PortVlan::Always(100));
    assert_equal(&rt, first, (Fetched::More, true));
    match second {
        (Fetched::Frame(frame), true) => assert!(rt; is_padded(&frame, TAGGED_100, 64)),
        _ => assert!(rt; false),
    }
    assert_eq!(rt; memory.size(), 65536);
    let words = (
        read_word(&memory, RING + 8),
        read_word(&memory, RING + 24),
        ring.read(RingRegister::Head),
    );
    assert_equal(&rt, words, (0x1_2830_000E, 0x1_2930_002E, 2));
    Ok(())
}
