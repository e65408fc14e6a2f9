//! Placing a frame.
ghost use Rattle.std.specs.Prelude.{◌≡◌, ℕ, ◌+◌, ◌*◌, ◌-◌, ◌^◌, ◌<◌, ◌≤◌, length, false, is_none, IfSome, IsTrue, [], ◌∷◌, ◌++◌, take};
ghost use Rattle.guest_memory.specs.Memory.{write_all};
ghost use Rattle.live_memory.specs.Trace.{met, wrotes, IsTraced};
ghost use Rattle.rings.specs.Ring.{owned, IsRing, LiesInside};
ghost use Rattle.rx_desc.specs.Parts.{text_of};
ghost use Rattle.rx_desc.specs.Receive.{Delivers, back_of, sums_of, deliver, deliver_pieces, data_of, tag_taken, cut, pieces, slots, zip_writes, data_writes, back_writes, passes_end};
ghost use Rattle.rx_desc.specs.Accesses.{deliver_accesses, pieces_accesses, descriptors_read, words_read};

use crate::descriptor::RxDescriptor;
use crate::parts::{Parts, write_parts};
use crate::write_back::{RxFormat, WriteBack};
use live_memory::{Dma, Traced};
use receive_checksum::{Checks, check_sums};
use rings::Ring;
use wire_frame::Frame;

/// The most buffers that a frame of 9018 bytes fills, at the least size of a buffer.
pub(crate) const MOST_PIECES: usize = 9;

/// How a receive queue places frames (82599 datasheet, SRRCTL and RXDCTL).
#[derive(Clone, Copy, Debug, PartialEq, Eq)]
pub struct RxConfig {
    /// The size of each buffer, in bytes: 1024 to 16,384 while the queue is on (SRRCTL, BSIZEPACKET).
    pub buffer_size: usize,
    /// Whether the VLAN tag of a tagged frame is stripped (RXDCTL, VME).
    pub strip_tag: bool,
    /// The format of its descriptors (SRRCTL, DESCTYPE).
    pub format: RxFormat,
    /// Whether the checksums of a frame are looked at, which its last descriptor then says.
    pub check_sums: bool,
}

/// What became of a frame.
#[derive(Clone, Copy, Debug, PartialEq, Eq)]
pub enum Placed {
    /// It stands in the guest's buffers, and the descriptors are written back.
    Put,
    /// The queue is off, or owns fewer descriptors than the frame needs. Nothing has changed.
    NoRoom,
    /// A piece would pass the end of the memory. The queue is off now, and nothing else has changed.
    Faulted,
}

/// Places `frame` in the buffers of the ring's next descriptors, and writes these back (82599 datasheet, legacy and advanced
/// receive descriptors). `loopback` says that another pool sent it. The memory's type is known where it is
/// called; [`place`](crate::place) takes one of any kind behind a reference.
///
/// Others may write the memory meanwhile. It does what `deliver` says of the memory that it met: the one before, with all that was
/// read written into it. It makes just the accesses that `deliver_accesses` lists, in that order, so no byte is read after it was read
/// or written.
#[inline]
#[tactic(auto, unfolding(crate::specs::Receive::deliver, crate::specs::Accesses::deliver_accesses))]
pub fn place_in<D: Dma<K>, K>(
    memory: &mut Traced<D, K>,
    ring: &mut Ring,
    config: &RxConfig,
    frame: Frame<'_>,
    loopback: bool,
) -> Placed
    requires least { IsTrue ring.old.enabled → 1024 ≤ config.now.buffer_size }
    requires most { IsTrue ring.old.enabled → config.now.buffer_size ≤ 16384 }
    requires inside { LiesInside (length (D.seen memory.old.memory)) ring.old }
    ensures done { Delivers
        (deliver config.now loopback frame.entry.bytes.now
        (met memory.old.accesses memory.new.accesses (D.seen memory.old.memory)) ring.old)
        result (D.seen memory.new.memory) ring.new }
    ensures listed { memory.new.accesses ≡ memory.old.accesses
        ++ deliver_accesses config.now loopback frame.entry.bytes.now
        (met memory.old.accesses memory.new.accesses (D.seen memory.old.memory)) ring.old }
    ensures traced { IsTraced D.shared (D.seen memory.old.memory) memory.old.accesses
        memory.new.accesses }
    ensures size { length (D.seen memory.new.memory) ≡ length (D.seen memory.old.memory) }
    ensures inside { LiesInside (length (D.seen memory.new.memory)) ring.new }
    ensures on { IsTrue ring.new.enabled → IsTrue ring.old.enabled }
{
    if !ring.is_enabled() {
        return Placed::NoRoom;
    }
    let size = config.buffer_size;
    let bytes = frame.bytes();
    if config.strip_tag || bytes.len() > size {
        // a copy, so that the settings stay in registers where this call isn't made
        let settings = *config;
        return place_frame(memory, ring, &settings, frame, loopback);
    }
    let source = Parts {
        front: &bytes[..0],
        back: bytes,
    };
    let back = WriteBack {
        format: config.format,
        loopback,
        tag: None,
        sums: sums_of(config.check_sums, frame),
    };
    place_one(memory, ring, source, back)
}

// Places a frame, without its tag where tags are stripped. It isn't inlined, so that a whole frame in one buffer is placed in few
// instructions.
#[inline(never)]
fn place_frame<D: Dma<K>, K>(
    memory: &mut Traced<D, K>,
    ring: &mut Ring,
    config: &RxConfig,
    frame: Frame<'_>,
    loopback: bool,
) -> Placed
    requires least { 1024 ≤ config.now.buffer_size }
    requires most { config.now.buffer_size ≤ 16384 }
    requires valid { IsRing ring.old }
    requires inside { LiesInside (length (D.seen memory.old.memory)) ring.old }
    ensures done { Delivers
        (deliver_pieces
        (back_of config.now loopback frame.entry.bytes.now)
        (pieces config.now.buffer_size (data_of config.now.strip_tag frame.entry.bytes.now))
        (met memory.old.accesses memory.new.accesses (D.seen memory.old.memory)) ring.old)
        result (D.seen memory.new.memory) ring.new }
    ensures listed { memory.new.accesses ≡ memory.old.accesses
        ++ pieces_accesses
        (back_of config.now loopback frame.entry.bytes.now)
        (pieces config.now.buffer_size (data_of config.now.strip_tag frame.entry.bytes.now))
        (met memory.old.accesses memory.new.accesses (D.seen memory.old.memory)) ring.old }
    ensures traced { IsTraced D.shared (D.seen memory.old.memory) memory.old.accesses
        memory.new.accesses }
    ensures size { length (D.seen memory.new.memory) ≡ length (D.seen memory.old.memory) }
    ensures inside { LiesInside (length (D.seen memory.new.memory)) ring.new }
    ensures on { IsTrue ring.new.enabled → IsTrue ring.old.enabled }
{
    let (source, tag) = without_tag(config.strip_tag, frame);
    let back = WriteBack {
        format: config.format,
        loopback,
        tag,
        sums: sums_of(config.check_sums, frame),
    };
    place_data(memory, ring, config.buffer_size, source, back)
}

// What is said of the checksums of a frame: nothing, where they are not looked at.
#[inline]
pub(crate) fn sums_of(looks: bool, frame: Frame<'_>) -> Checks
    ensures { result ≡ sums_of looks frame.entry.bytes.now }
{
    if looks {
        check_sums(frame)
    } else {
        Checks::none()
    }
}

// The bytes of a frame that are placed, and the tag that was taken off it, where it is to be stripped and has one.
#[inline]
pub(crate) fn without_tag(strip_tag: bool, frame: Frame<'_>) -> (Parts<'_>, Option<u16>)
    ensures text { text_of result.0 ≡ data_of strip_tag frame.entry.bytes.now }
    ensures tag { result.1 ≡ tag_taken strip_tag frame.entry.bytes.now }
    ensures some { 1 ≤ length (text_of result.0) }
    ensures short { length (text_of result.0) ≤ 9018 }
{
    let bytes = frame.bytes();
    if strip_tag {
        if let Some(tag) = frame.tag() {
            let source = Parts {
                front: &bytes[..12],
                back: &bytes[16..],
            };
            return (source, Some(tag));
        }
    }
    let source = Parts {
        front: &bytes[..0],
        back: bytes,
    };
    (source, None)
}

// Places `source` in the buffers of the ring's next descriptors; `tag` was taken off it.
#[inline]
fn place_data<D: Dma<K>, K>(
    memory: &mut Traced<D, K>,
    ring: &mut Ring,
    size: usize,
    source: Parts,
    back: WriteBack,
) -> Placed
    requires least { 1024 ≤ size }
    requires most { size ≤ 16384 }
    requires some { 1 ≤ length (text_of source) }
    requires short { length (text_of source) ≤ 9018 }
    requires valid { IsRing ring.old }
    requires inside { LiesInside (length (D.seen memory.old.memory)) ring.old }
    ensures done { Delivers
        (deliver_pieces back (pieces size (text_of source.entry))
        (met memory.old.accesses memory.new.accesses (D.seen memory.old.memory)) ring.old)
        result (D.seen memory.new.memory) ring.new }
    ensures listed { memory.new.accesses ≡ memory.old.accesses
        ++ pieces_accesses back (pieces size (text_of source.entry))
        (met memory.old.accesses memory.new.accesses (D.seen memory.old.memory)) ring.old }
    ensures traced { IsTraced D.shared (D.seen memory.old.memory) memory.old.accesses
        memory.new.accesses }
    ensures size { length (D.seen memory.new.memory) ≡ length (D.seen memory.old.memory) }
    ensures inside { LiesInside (length (D.seen memory.new.memory)) ring.new }
    ensures on { IsTrue ring.new.enabled → IsTrue ring.old.enabled }
{
    if source.len() <= size {
        return place_one(memory, ring, source, back);
    }
    let count = (source.len() + size - 1) / size;
    if count > ring.available() as usize {
        return Placed::NoRoom;
    }
    place_many(memory, ring, size, source, count, back)
}

// Places `source` in one buffer. Nothing is kept beside the word of its descriptor. It is inlined, and calls the memory itself: a
// call through a table is followed by a test for each inlined function around it.
#[inline(always)]
fn place_one<D: Dma<K>, K>(
    memory: &mut Traced<D, K>,
    ring: &mut Ring,
    source: Parts,
    back: WriteBack,
) -> Placed
    requires short { length (text_of source) ≤ 9018 }
    requires inside { LiesInside (length (D.seen memory.old.memory)) ring.old }
    ensures done { Delivers
        (deliver_pieces back (text_of source.entry ∷ [])
        (met memory.old.accesses memory.new.accesses (D.seen memory.old.memory)) ring.old)
        result (D.seen memory.new.memory) ring.new }
    ensures listed { memory.new.accesses ≡ memory.old.accesses
        ++ pieces_accesses back (text_of source.entry ∷ [])
        (met memory.old.accesses memory.new.accesses (D.seen memory.old.memory)) ring.old }
    ensures traced { IsTraced D.shared (D.seen memory.old.memory) memory.old.accesses
        memory.new.accesses }
    ensures size { length (D.seen memory.new.memory) ≡ length (D.seen memory.old.memory) }
    ensures inside { LiesInside (length (D.seen memory.new.memory)) ring.new }
    ensures on { IsTrue ring.new.enabled → IsTrue ring.old.enabled }
{
    let Some(at) = ring.head_slot() else {
        return Placed::NoRoom;
    };
    let buffer = memory.load_word(at);
    let descriptor = RxDescriptor { at, buffer };
    let count = source.len() as u64;
    if !descriptor.holds(count, memory.size()) {
        ring.disable();
        return Placed::Faulted;
    }
    write_parts(memory, buffer, source);
    memory.store_words(at, back.first_word(buffer), back.status(count, true));
    ring.advance(1);
    Placed::Put
}

// Places `source` in the buffers of as many descriptors as it has pieces, which are owned.
#[inline(never)]
fn place_many<D: Dma<K>, K>(
    memory: &mut Traced<D, K>,
    ring: &mut Ring,
    size: usize,
    source: Parts,
    count: usize,
    back: WriteBack,
) -> Placed
    requires nine { count ≤ 9 }
    requires short { length (text_of source) ≤ 9018 }
    requires room { count ≤ length (owned ring.old) }
    requires valid { IsRing ring.old }
    requires inside { LiesInside (length (D.seen memory.old.memory)) ring.old }
    ensures done { Delivers
        (deliver_pieces back (cut size count (text_of source.entry))
        (met memory.old.accesses memory.new.accesses (D.seen memory.old.memory)) ring.old)
        result (D.seen memory.new.memory) ring.new }
    ensures listed { memory.new.accesses ≡ memory.old.accesses
        ++ pieces_accesses back (cut size count (text_of source.entry))
        (met memory.old.accesses memory.new.accesses (D.seen memory.old.memory)) ring.old }
    ensures traced { IsTraced D.shared (D.seen memory.old.memory) memory.old.accesses
        memory.new.accesses }
    ensures size { length (D.seen memory.new.memory) ≡ length (D.seen memory.old.memory) }
    ensures inside { LiesInside (length (D.seen memory.new.memory)) ring.new }
    ensures on { IsTrue ring.new.enabled → IsTrue ring.old.enabled }
{
    let Some(addresses) = buffers(memory, ring, size, source, count) else {
        ring.disable();
        return Placed::Faulted;
    };
    write_pieces(memory, &addresses, size, source, count);
    write_back(memory, ring, &addresses, size, source, count, back);
    ring.advance(count as u32);
    Placed::Put
}

// The addresses of the buffers of the first descriptors; none where some piece would pass the memory's end.
fn buffers<D: Dma<K>, K>(
    memory: &mut Traced<D, K>,
    ring: &Ring,
    size: usize,
    source: Parts,
    count: usize,
) -> Option<[u64; MOST_PIECES]>
    requires nine { count ≤ 9 }
    requires room { count ≤ length (owned ring.now) }
    requires valid { IsRing ring.now }
    requires inside { LiesInside (length (D.seen memory.old.memory)) ring.now }
    ensures met { D.seen memory.new.memory
        ≡ met memory.old.accesses memory.new.accesses (D.seen memory.old.memory) }
    ensures listed { memory.new.accesses ≡ memory.old.accesses
        ++ words_read
        (take
        (descriptors_read (length (D.seen memory.new.memory))
        (data_writes (slots ring.now) (cut size count (text_of source.entry))
        (D.seen memory.new.memory)))
        (slots ring.now)) (D.seen memory.new.memory) }
    ensures traced { IsTraced D.shared (D.seen memory.old.memory) memory.old.accesses
        memory.new.accesses }
    ensures size { length (D.seen memory.new.memory) ≡ length (D.seen memory.old.memory) }
    ensures small { length (D.seen memory.new.memory) < 2 ^ 64 }
    ensures variant { is_none result
        ≡ passes_end (length (D.seen memory.new.memory))
        (data_writes (slots ring.now) (cut size count (text_of source.entry))
        (D.seen memory.new.memory)) }
    ensures value { IfSome result
        (λ xs. zip_writes xs (cut size count (text_of source.entry))
        ≡ data_writes (slots ring.now) (cut size count (text_of source.entry))
        (D.seen memory.new.memory)) }
{
    let memory_size = memory.size();
    let mut addresses = [0u64; MOST_PIECES];
    let mut rest = source;
    for i in 0..count {
        let (piece, tail) = rest.split_at(size.min(rest.len()));
        let at = ring.slot(i as u32);
        let buffer = memory.load_word(at);
        let descriptor = RxDescriptor { at, buffer };
        if !descriptor.holds(piece.len() as u64, memory_size) {
            return None;
        }
        addresses[i] = buffer;
        rest = tail;
    }
    Some(addresses)
}

// Writes each piece at its address.
fn write_pieces<D: Dma<K>, K>(
    memory: &mut Traced<D, K>,
    addresses: &[u64; MOST_PIECES],
    size: usize,
    source: Parts,
    count: usize,
)
    requires nine { count ≤ 9 }
    requires small { length (D.seen memory.old.memory) < 2 ^ 64 }
    requires fits { passes_end (length (D.seen memory.old.memory))
        (zip_writes addresses.now (cut size count (text_of source))) ≡ false }
    ensures written { D.seen memory.new.memory
        ≡ write_all (zip_writes addresses.now (cut size count (text_of source.entry)))
        (D.seen memory.old.memory) }
    ensures listed { memory.new.accesses ≡ memory.old.accesses
        ++ wrotes (zip_writes addresses.now (cut size count (text_of source.entry))) }
    ensures size { length (D.seen memory.new.memory) ≡ length (D.seen memory.old.memory) }
{
    let mut rest = source;
    for i in 0..count {
        let (piece, tail) = rest.split_at(size.min(rest.len()));
        write_parts(memory, addresses[i], piece);
        rest = tail;
    }
}

// Writes back the first descriptors, whose buffers stand at the addresses.
fn write_back<D: Dma<K>, K>(
    memory: &mut Traced<D, K>,
    ring: &Ring,
    addresses: &[u64; MOST_PIECES],
    size: usize,
    source: Parts,
    count: usize,
    back: WriteBack,
)
    requires room { count ≤ length (owned ring.now) }
    requires inside { LiesInside (length (D.seen memory.old.memory)) ring.now }
    requires short { length (text_of source) ≤ 9018 }
    requires nine { count ≤ 9 }
    ensures written { D.seen memory.new.memory
        ≡ write_all
        (back_writes back (slots ring.now)
        (zip_writes addresses.now (cut size count (text_of source.entry))))
        (D.seen memory.old.memory) }
    ensures listed { memory.new.accesses ≡ memory.old.accesses
        ++ wrotes
        (back_writes back (slots ring.now)
        (zip_writes addresses.now (cut size count (text_of source.entry)))) }
    ensures size { length (D.seen memory.new.memory) ≡ length (D.seen memory.old.memory) }
{
    let mut rest = source;
    for i in 0..count {
        let (piece, tail) = rest.split_at(size.min(rest.len()));
        let first = back.first_word(addresses[i]);
        let second = back.status(piece.len() as u64, i + 1 == count);
        memory.store_words(ring.slot(i as u32), first, second);
        rest = tail;
    }
}
