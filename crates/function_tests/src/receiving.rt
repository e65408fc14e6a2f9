//! Frames in rings as drivers lay them out. What the guest finds afterwards was worked out by hand from the datasheet's
//! receive descriptors. The second word of an advanced one, written back, has done in bit 0, the end of the frame in bit 1, a
//! stripped tag in bit 3, loopback in bit 18, the length from bit 32 on and the tag control from bit 48 on. That of a legacy one has
//! the length in its low 16 bits, done in bit 32, the end of the frame in bit 33, a stripped tag in bit 35, and the tag control as well.
ghost use Rattle.std.specs.Prelude.{◌≡◌, ◌+◌, ◌≤◌, length, IfOk};
ghost use Rattle.rings.specs.Ring.{LiesInside};

use crate::compare::{assert_equal, assert_equal_at};
use guest_memory::{FlatMem, GuestMem, read_word, write_word};
use live_memory::{Alone, Traced};
use rings::{Ring, RingRegister};
use rx_desc::laws::pieces_are_the_only_cut;
use rx_desc::{Placed, RxConfig, RxFormat, place, place_in};
use std::alloc::Global;
use std::process::Abort;
use std::test::Fail;
use wire_frame::{Fault, FrameBuf};

/// The size of the memory.
const SIZE: u64 = 0x1_0000;
/// Where the ring stands.
const RING: u64 = 0x1000;
/// Where the first buffer stands.
const FIRST: u64 = 0x4000;
/// Where the second buffer stands.
const SECOND: u64 = 0x5000;

/// The addresses and the type of an untagged frame.
const PLAIN: [u8; 18] = [
    2, 0, 0, 0, 0, 3, 2, 0, 0, 0, 0, 0x99, 8, 0, 0xAA, 0xAA, 0xAA, 0xAA,
];
/// The same frame with tag control 100.
const TAGGED: [u8; 18] = [2, 0, 0, 0, 0, 3, 2, 0, 0, 0, 0, 0x99, 0x81, 0, 0, 100, 8, 0];
/// An untagged frame that begins with the bytes of an address, 0x6000, as a descriptor holds it.
const MISLEADING: [u8; 18] = [
    0, 0x60, 0, 0, 0, 0, 0, 0, 0, 0, 0, 0x99, 8, 0, 0xAA, 0xAA, 0xAA, 0xAA,
];

/// A queue where tags stay.
const KEEP: bool = false;
/// A queue where tags are stripped.
const STRIP: bool = true;

/// A queue of buffers of 1 KiB.
fn queue(strip_tag: bool) -> RxConfig
    ensures { result.buffer_size ≡ 1024 }
{
    RxConfig {
        buffer_size: 1024,
        strip_tag,
        format: RxFormat::Advanced,
        check_sums: false,
    }
}

/// The same with legacy descriptors.
fn legacy_queue(strip_tag: bool) -> RxConfig
    ensures { result.buffer_size ≡ 1024 }
{
    RxConfig {
        buffer_size: 1024,
        strip_tag,
        format: RxFormat::Legacy,
        check_sums: false,
    }
}

/// The frame of up to 9018 bytes that begins so, with bytes 0xAA after that.
fn frame_of(start: [u8; 18], len: usize) -> Result<FrameBuf, Fault> {
    let mut bytes = [0xAA; 9018];
    bytes[..18].copy_from_slice(&start);
    FrameBuf::from_bytes(&bytes[..len.min(9018)])
}

/// A ring of so many descriptors that is on, of which the device owns those from the head up to the tail.
fn ring_of(count: u16, head: u32, tail: u32) -> Ring
    ensures { LiesInside 65536 result }
{
    ring_at(RING as u32, count, head, tail)
}

/// The same, from another address on.
fn ring_at(base: u32, count: u16, head: u32, tail: u32) -> Ring
    ensures { LiesInside 65536 result }
{
    let mut ring = Ring::new();
    ring.write(RingRegister::BaseLow, base);
    ring.write(RingRegister::Length, 16 * u32::from(count));
    ring.write(RingRegister::Head, head);
    ring.write(RingRegister::Tail, tail);
    ring.try_enable(SIZE);
    ring
}

/// Where the descriptor of a ring of eight stands that comes so many after the first.
fn descriptor(number: u32) -> u64
    ensures { result + 16 ≤ 65536 }
{
    RING + 16 * u64::from(number % 8)
}

/// A memory with the two buffers' addresses in the descriptor of that number and in the one after it.
fn memory_of(
    rt: &impl Abort,
    alloc: Global,
    number: u32,
    first: u64,
    second: u64,
) -> Result<FlatMem, Fault>
    ensures { IfOk result (λ m. length m ≡ 65536) }
{
    let mut memory = FlatMem::new(alloc, SIZE)?;
    assert_eq!(rt; memory.size(), 65536);
    write_word(&mut memory, descriptor(number), first);
    write_word(&mut memory, descriptor(number % 8 + 1), second);
    Ok(memory)
}

/// All bytes of a memory.
fn image(alloc: Global, memory: &Traced<FlatMem, Alone>) -> Result<Vec<u8>, Fail>
    requires { length memory.now.memory ≡ 65536 }
{
    let mut bytes = vec![in alloc; 0; 65536]?;
    memory.look_at(0, bytes.as_mut_slice());
    Ok(bytes)
}

/// A frame of 1518 bytes in two pieces, the first of them in the last descriptor of eight. The tail and where the second
/// buffer stands; then the outcome, the second words of both descriptors, and the head.
#[test]
fn two_pieces(rt: HostRuntime) -> Result<(), Fail> {
    use Placed::{Faulted, NoRoom, Put};
    for (tail, second, placed, word, next_word, head) in [
        (1, SECOND, Put, 0x0400_0000_0001, 0x01EE_0000_0003, 1),
        // one descriptor too few
        (0, SECOND, NoRoom, 0, 0, 7),
        // the second piece ends with the memory, one byte past it, and past all addresses
        (1, 0xFE12, Put, 0x0400_0000_0001, 0x01EE_0000_0003, 1),
        (1, 0xFE13, Faulted, 0, 0, 7),
        (1, u64::MAX, Faulted, 0, 0, 7),
    ] {
        let mut ring = ring_of(8, 7, tail);
        let mut memory = Traced::new(memory_of(&rt, rt.alloc(), 7, FIRST, second)?);
        let before = image(rt.alloc(), &memory)?;
        let frame = frame_of(PLAIN, 1518)?;
        let outcome = place_in(
            &mut memory,
            &mut ring,
            &queue(KEEP),
            frame.as_frame(),
            false,
        );
        assert_eq!(rt; memory.size(), 65536);
        let after = (
            outcome,
            ring.is_enabled(),
            ring.read(RingRegister::Head),
            ring.read(RingRegister::Tail),
            memory.load_word(0x1078),
            memory.load_word(0x1008),
        );
        let wanted = (placed, placed != Faulted, head, tail, word, next_word);
        assert!(rt; after == wanted, "{tail}, {second:x}");
        let same = image(rt.alloc(), &memory)?.as_slice() == before.as_slice();
        assert_eq!(rt; same, placed != Put, "{tail}, {second:x}");
    }
    Ok(())
}

/// Whether tags are stripped, how the frame begins, its length and whether another pool sent it; then the second words of
/// the first two descriptors, and the head.
#[test]
fn written_back(rt: HostRuntime) -> Result<(), Fail> {
    for (strip, start, len, loopback, word, next_word, head) in [
        // a buffer that is just filled, and one byte more
        (KEEP, PLAIN, 1024, false, 0x0400_0000_0003, 0, 1),
        (
            KEEP,
            PLAIN,
            1025,
            false,
            0x0400_0000_0001,
            0x0001_0000_0003,
            2,
        ),
        // a tag that is stripped, one that stays, and none; on two pieces the last one tells of it
        (STRIP, TAGGED, 60, false, 0x0064_0038_0000_000B, 0, 1),
        (KEEP, TAGGED, 60, false, 0x003C_0000_0003, 0, 1),
        (STRIP, PLAIN, 60, false, 0x003C_0000_0003, 0, 1),
        (
            STRIP,
            TAGGED,
            1518,
            false,
            0x0400_0000_0001,
            0x0064_01EA_0000_000B,
            2,
        ),
        // loopback, which every piece tells of
        (KEEP, PLAIN, 60, true, 0x003C_0004_0003, 0, 1),
        (
            KEEP,
            PLAIN,
            1518,
            true,
            0x0400_0004_0001,
            0x01EE_0004_0003,
            2,
        ),
    ] {
        let mut ring = ring_of(8, 0, 7);
        let mut memory = Traced::new(memory_of(&rt, rt.alloc(), 0, FIRST, SECOND)?);
        let frame = frame_of(start, len)?;
        let outcome = place_in(
            &mut memory,
            &mut ring,
            &queue(strip),
            frame.as_frame(),
            loopback,
        );
        assert_eq!(rt; memory.size(), 65536);
        let after = (
            outcome,
            ring.read(RingRegister::Head),
            memory.load_word(0x1008),
            memory.load_word(0x1018),
        );
        assert!(rt;
            after == (Placed::Put, head, word, next_word),
            "{len} bytes"
        );
    }
    Ok(())
}

/// Where the buffers of the first two descriptors stand, the queue, how the frame begins and its length; then words of
/// the memory, by their addresses.
#[test]
fn bytes_in_memory(rt: HostRuntime) -> Result<(), Fail> {
    let filled = 0xAAAA_AAAA_AAAA_AAAA;
    let rows = [
        // two pieces: nothing stands behind the second
        (
            (FIRST, SECOND, KEEP, PLAIN, 1518),
            [
                (0x4008, 0xAAAA_0008_9900_0000),
                (0x43F8, filled),
                (0x4400, 0),
                (0x5000, filled),
                (0x51E8, 0x0000_AAAA_AAAA_AAAA),
                (0x51F0, 0),
            ],
        ),
        // without its tag, and with it
        (
            (FIRST, SECOND, STRIP, TAGGED, 60),
            [
                (0x4000, 0x0002_0300_0000_0002),
                (0x4008, 0xAAAA_0008_9900_0000),
                (0x4010, filled),
                (0x4030, filled),
                (0x4038, 0),
                (0x5000, 0),
            ],
        ),
        (
            (FIRST, SECOND, KEEP, TAGGED, 60),
            [
                (0x4000, 0x0002_0300_0000_0002),
                (0x4008, 0x6400_0081_9900_0000),
                (0x4010, 0xAAAA_AAAA_AAAA_0008),
                (0x4030, filled),
                (0x4038, 0xAAAA_AAAA),
                (0x4040, 0),
            ],
        ),
        // the ring is the buffer: it is written back over the frame
        (
            (RING, SECOND, KEEP, PLAIN, 60),
            [
                (0x1000, 0),
                (0x1008, 0x003C_0000_0003),
                (0x1010, filled),
                (0x1030, filled),
                (0x1038, 0xAAAA_AAAA),
                (0x1040, 0),
            ],
        ),
        // the first piece goes over the second descriptor, which was read before: it leads nothing to 0x6000
        (
            (0x1010, SECOND, KEEP, MISLEADING, 1518),
            [
                (0x1008, 0x0400_0000_0001),
                (0x1010, 0),
                (0x1018, 0x01EE_0000_0003),
                (0x1020, filled),
                (0x5000, filled),
                (0x6000, 0),
            ],
        ),
    ];
    for ((first, second, strip, start, len), words) in rows {
        let mut ring = ring_of(8, 0, 2);
        let mut memory = Traced::new(memory_of(&rt, rt.alloc(), 0, first, second)?);
        let frame = frame_of(start, len)?;
        let outcome = place_in(
            &mut memory,
            &mut ring,
            &queue(strip),
            frame.as_frame(),
            false,
        );
        assert_equal_at(&rt, outcome, Placed::Put, first);
        for (at, word) in words {
            assert_eq!(rt; memory.size(), 65536);
            assert!(rt; at <= SIZE - 8);
            assert_eq!(rt; memory.load_word(at), word, "{first:x}, {at:x}");
        }
    }
    Ok(())
}

/// A frame of 9018 bytes is nine pieces: eight of 1024 bytes, and one of 826. With eight
/// descriptors it is not begun.
#[test]
fn nine_pieces(rt: HostRuntime) -> Result<(), Fail> {
    pieces_are_the_only_cut();
    for (tail, placed, word, last_word, head) in [
        (9, Placed::Put, 0x0400_0000_0001, 0x033A_0000_0003, 9),
        (8, Placed::NoRoom, 0, 0, 0),
    ] {
        let mut ring = ring_of(16, 0, tail);
        let mut flat = FlatMem::new(rt.alloc(), SIZE)?;
        for i in 0..9 {
            assert_eq!(rt; flat.size(), 65536);
            write_word(&mut flat, RING + 16 * i, FIRST + 1024 * i);
        }
        let mut memory = Traced::new(flat);
        assert_eq!(rt; memory.size(), 65536);
        let frame = frame_of(PLAIN, 9018)?;
        let outcome = place_in(
            &mut memory,
            &mut ring,
            &queue(KEEP),
            frame.as_frame(),
            false,
        );
        assert_equal(&rt, outcome, placed);
        assert_eq!(rt; memory.size(), 65536);
        for i in 0..8 {
            assert_eq!(rt; memory.size(), 65536);
            assert_equal_at(&rt, memory.load_word(RING + 16 * i + 8), word, i);
        }
        assert_eq!(rt; memory.size(), 65536);
        assert_equal(&rt, memory.load_word(RING + 16 * 8 + 8), last_word);
        assert_equal(&rt, ring.read(RingRegister::Head), head);
    }
    Ok(())
}

/// A tagged frame of 1518 bytes, whose tag is stripped, in two pieces of a memory of any kind.
#[test]
fn two_pieces_in_any_memory(rt: HostRuntime) -> Result<(), Fail> {
    let mut ring = ring_of(8, 0, 2);
    let mut memory = memory_of(&rt, rt.alloc(), 0, FIRST, SECOND)?;
    let frame = frame_of(TAGGED, 1518)?;
    let outcome = place(&mut memory, &mut ring, &queue(STRIP), &frame, true);
    assert_equal(&rt, outcome, Placed::Put);
    assert_equal(&rt, ring.read(RingRegister::Head), 2);
    assert_eq!(rt; memory.size(), 65536);
    for (place, word) in [
        (RING + 8, 0x0400_0004_0001),
        (RING + 24, 0x0064_01EA_0004_000B),
        (FIRST, 0x0002_0300_0000_0002),
        (FIRST + 8, 0xAAAA_0008_9900_0000),
        (SECOND + 0x1E2, 0xAAAA_AAAA_AAAA_AAAA),
        (SECOND + 0x1EA, 0),
    ] {
        assert!(rt; place <= SIZE - 8);
        assert_equal_at(&rt, read_word(&memory, place), word, place);
    }
    Ok(())
}

/// Of a queue of legacy descriptors, as in `written_back`. The first words stay the addresses of the buffers, and nothing tells of another
/// pool.
#[test]
fn legacy_written_back(rt: HostRuntime) -> Result<(), Fail> {
    for (strip, start, len, loopback, word, next_word, head) in [
        (KEEP, PLAIN, 60, false, 0x0003_0000_003C, 0, 1),
        (KEEP, PLAIN, 60, true, 0x0003_0000_003C, 0, 1),
        // a tag that is stripped, and one that stays
        (STRIP, TAGGED, 60, true, 0x64_000B_0000_0038, 0, 1),
        (KEEP, TAGGED, 60, false, 0x0003_0000_003C, 0, 1),
        // two pieces, of which the last one tells of the tag
        (
            KEEP,
            PLAIN,
            1518,
            true,
            0x0001_0000_0400,
            0x0003_0000_01EE,
            2,
        ),
        (
            STRIP,
            TAGGED,
            1518,
            false,
            0x0001_0000_0400,
            0x0064_000B_0000_01EA,
            2,
        ),
    ] {
        let mut ring = ring_of(8, 0, 7);
        let mut memory = Traced::new(memory_of(&rt, rt.alloc(), 0, FIRST, SECOND)?);
        let frame = frame_of(start, len)?;
        let config = legacy_queue(strip);
        let outcome = place_in(&mut memory, &mut ring, &config, frame.as_frame(), loopback);
        assert_eq!(rt; memory.size(), 65536);
        let after = (
            outcome,
            ring.read(RingRegister::Head),
            (memory.load_word(0x1000), memory.load_word(0x1008)),
            (memory.load_word(0x1010), memory.load_word(0x1018)),
        );
        let wanted = (Placed::Put, head, (FIRST, word), (SECOND, next_word));
        assert!(rt; after == wanted, "{len} bytes");
    }
    Ok(())
}

/// A frame of 1518 bytes for a queue of legacy descriptors. The tail and where the first buffer stands; then the outcome, the second words of
/// both descriptors, and the head.
#[test]
fn legacy_two_pieces(rt: HostRuntime) -> Result<(), Fail> {
    use Placed::{Faulted, NoRoom, Put};
    for (tail, first, placed, word, next_word, head) in [
        // the first piece goes over the second descriptor, which gets the address back that was read there
        (2, 0x1010, Put, 0x0001_0000_0400, 0x0003_0000_01EE, 2),
        // one descriptor too few
        (1, FIRST, NoRoom, 0, 0, 0),
        // the first piece ends one byte past the memory
        (2, 0xFC01, Faulted, 0, 0, 0),
    ] {
        let mut ring = ring_of(8, 0, tail);
        let mut memory = Traced::new(memory_of(&rt, rt.alloc(), 0, first, SECOND)?);
        let frame = frame_of(MISLEADING, 1518)?;
        let config = legacy_queue(KEEP);
        let outcome = place_in(&mut memory, &mut ring, &config, frame.as_frame(), false);
        assert_eq!(rt; memory.size(), 65536);
        let after = (
            outcome,
            ring.read(RingRegister::Head),
            (memory.load_word(0x1000), memory.load_word(0x1008)),
            (memory.load_word(0x1010), memory.load_word(0x1018)),
        );
        let wanted = (placed, head, (first, word), (SECOND, next_word));
        assert!(rt; after == wanted, "{tail}, {first:x}");
    }
    Ok(())
}

/// A tagged frame of 1518 bytes, whose tag is stripped, in two legacy descriptors of a memory of any kind.
#[test]
fn legacy_two_pieces_in_any_memory(rt: HostRuntime) -> Result<(), Fail> {
    let mut ring = ring_of(8, 0, 2);
    let mut memory = memory_of(&rt, rt.alloc(), 0, FIRST, SECOND)?;
    let frame = frame_of(TAGGED, 1518)?;
    let outcome = place(&mut memory, &mut ring, &legacy_queue(STRIP), &frame, true);
    assert_equal(&rt, outcome, Placed::Put);
    assert_equal(&rt, ring.read(RingRegister::Head), 2);
    assert_eq!(rt; memory.size(), 65536);
    for (place, word) in [
        (RING, FIRST),
        (RING + 8, 0x0000_0001_0000_0400),
        (RING + 16, SECOND),
        (RING + 24, 0x0064_000B_0000_01EA),
        (FIRST, 0x0002_0300_0000_0002),
        (SECOND + 0x1E2, 0xAAAA_AAAA_AAAA_AAAA),
        (SECOND + 0x1EA, 0),
    ] {
        assert!(rt; place <= SIZE - 8);
        assert_equal_at(&rt, read_word(&memory, place), word, place);
    }
    Ok(())
}
