//! Placing a frame in a memory of any kind, behind one reference.
ghost use Rattle.std.specs.Prelude.{◌≡◌, ℕ, ◌+◌, ◌*◌, ◌-◌, ◌^◌, ◌<◌, ◌≤◌, length, false, is_none, IfSome, IsTrue, [], ◌∷◌};
ghost use Rattle.guest_memory.specs.Memory.{overwrite, two_words, write_all};
ghost use Rattle.rings.specs.Ring.{owned, LiesInside};
ghost use Rattle.rx_desc.specs.Parts.{text_of};
ghost use Rattle.rx_desc.specs.Receive.{deliver, deliver_pieces, cut, pieces, slots, zip_writes, data_writes, back_writes, passes_end};

use crate::descriptor::RxDescriptor;
use crate::parts::Parts;
use crate::placing::{MOST_PIECES, Placed, RxConfig, sums_of, without_tag};
use crate::write_back::WriteBack;
use guest_memory::GuestMem;
use rings::Ring;
use wire_frame::FrameBuf;

/// Places `frame` in the buffers of the ring's next descriptors, and writes these back (82599 datasheet, legacy and advanced
/// receive descriptors). `loopback` says that another pool sent it.
///
/// It means what [`place_in`](crate::place_in) does, of a memory of any kind behind one reference, and each access is a call
/// through its table. That one is made anew for each kind of memory, and has a shorter path for a frame in one buffer.
#[tactic(auto, unfolding(crate::specs::Receive::deliver))]
pub fn place(
    memory: &mut dyn GuestMem,
    ring: &mut Ring,
    config: &RxConfig,
    frame: &FrameBuf,
    loopback: bool,
) -> Placed
    requires least { IsTrue ring.old.enabled → 1024 ≤ config.now.buffer_size }
    requires most { IsTrue ring.old.enabled → config.now.buffer_size ≤ 16384 }
    requires inside { LiesInside (length (bytes memory.old)) ring.old }
    ensures placed { result
        ≡ (deliver config.now loopback frame.now (bytes memory.old) ring.old).placed }
    ensures written { bytes memory.new
        ≡ (deliver config.now loopback frame.now (bytes memory.old) ring.old).memory }
    ensures ring { ring.new
        ≡ (deliver config.now loopback frame.now (bytes memory.old) ring.old).ring }
    ensures size { length (bytes memory.new) ≡ length (bytes memory.old) }
    ensures inside { LiesInside (length (bytes memory.new)) ring.new }
    ensures on { IsTrue ring.new.enabled → IsTrue ring.old.enabled }
{
    if !ring.is_enabled() {
        return Placed::NoRoom;
    }
    let frame = frame.as_frame();
    let (source, tag) = without_tag(config.strip_tag, frame);
    let back = WriteBack {
        format: config.format,
        loopback,
        tag,
        sums: sums_of(config.check_sums, frame),
    };
    place_pieces(memory, ring, config.buffer_size, source, back)
}

// Places `source` in the buffers of the ring's next descriptors; `tag` was taken off it.
fn place_pieces(
    memory: &mut dyn GuestMem,
    ring: &mut Ring,
    size: usize,
    source: Parts,
    back: WriteBack,
) -> Placed
    requires least { 1024 ≤ size }
    requires most { size ≤ 16384 }
    requires some { 1 ≤ length (text_of source) }
    requires short { length (text_of source) ≤ 9018 }
    requires inside { LiesInside (length (bytes memory.old)) ring.old }
    ensures placed { result
        ≡ (deliver_pieces back (pieces size (text_of source.entry))
        (bytes memory.old) ring.old).placed }
    ensures written { bytes memory.new
        ≡ (deliver_pieces back (pieces size (text_of source.entry))
        (bytes memory.old) ring.old).memory }
    ensures ring { ring.new
        ≡ (deliver_pieces back (pieces size (text_of source.entry))
        (bytes memory.old) ring.old).ring }
    ensures size { length (bytes memory.new) ≡ length (bytes memory.old) }
    ensures inside { LiesInside (length (bytes memory.new)) ring.new }
    ensures on { IsTrue ring.new.enabled → IsTrue ring.old.enabled }
{
    let count = (source.len() + size - 1) / size;
    if count > ring.available() as usize {
        return Placed::NoRoom;
    }
    let memory_size = memory.size();
    place_counted(memory, memory_size, ring, size, source, count, back)
}

// Places `source` in the buffers of as many descriptors as it has pieces, which are owned.
fn place_counted(
    memory: &mut dyn GuestMem,
    memory_size: u64,
    ring: &mut Ring,
    size: usize,
    source: Parts,
    count: usize,
    back: WriteBack,
) -> Placed
    requires known { memory_size ≡ length (bytes memory.old) }
    requires nine { count ≤ 9 }
    requires short { length (text_of source) ≤ 9018 }
    requires room { count ≤ length (owned ring.old) }
    requires inside { LiesInside (length (bytes memory.old)) ring.old }
    ensures placed { result
        ≡ (deliver_pieces back (cut size count (text_of source.entry))
        (bytes memory.old) ring.old).placed }
    ensures written { bytes memory.new
        ≡ (deliver_pieces back (cut size count (text_of source.entry))
        (bytes memory.old) ring.old).memory }
    ensures ring { ring.new
        ≡ (deliver_pieces back (cut size count (text_of source.entry))
        (bytes memory.old) ring.old).ring }
    ensures size { length (bytes memory.new) ≡ length (bytes memory.old) }
    ensures inside { LiesInside (length (bytes memory.new)) ring.new }
    ensures on { IsTrue ring.new.enabled → IsTrue ring.old.enabled }
{
    let Some(addresses) = buffers(memory, memory_size, ring, size, source, count) else {
        ring.disable();
        return Placed::Faulted;
    };
    write_pieces(memory, &addresses, size, source, count);
    write_back(memory, ring, &addresses, size, source, count, back);
    ring.advance(count as u32);
    Placed::Put
}

// The addresses of the buffers of the first descriptors; none where some piece would pass the memory's end.
fn buffers(
    memory: &dyn GuestMem,
    memory_size: u64,
    ring: &Ring,
    size: usize,
    source: Parts,
    count: usize,
) -> Option<[u64; MOST_PIECES]>
    requires known { memory_size ≡ length (bytes memory.now) }
    requires nine { count ≤ 9 }
    requires room { count ≤ length (owned ring.now) }
    requires inside { LiesInside (length (bytes memory.now)) ring.now }
    ensures small { length (bytes memory.now) < 2 ^ 64 }
    ensures variant { is_none result
        ≡ passes_end (length (bytes memory.now))
        (data_writes (slots ring.now) (cut size count (text_of source.entry))
        (bytes memory.now)) }
    ensures value { IfSome result
        (λ xs. zip_writes xs (cut size count (text_of source.entry))
        ≡ data_writes (slots ring.now) (cut size count (text_of source.entry))
        (bytes memory.now)) }
{
    let mut addresses = [0u64; MOST_PIECES];
    let mut rest = source;
    for i in 0..count {
        let (piece, tail) = rest.split_at(size.min(rest.len()));
        let at = ring.slot(i as u32);
        let buffer = memory.read_word(at);
        let descriptor = RxDescriptor { at, buffer };
        if !descriptor.holds(piece.len() as u64, memory_size) {
            return None;
        }
        addresses[i] = buffer;
        rest = tail;
    }
    Some(addresses)
}

// Writes each piece at its address.
fn write_pieces(
    memory: &mut dyn GuestMem,
    addresses: &[u64; MOST_PIECES],
    size: usize,
    source: Parts,
    count: usize,
)
    requires nine { count ≤ 9 }
    requires small { length (bytes memory.old) < 2 ^ 64 }
    requires fits { passes_end (length (bytes memory.old))
        (zip_writes addresses.now (cut size count (text_of source))) ≡ false }
    ensures written { bytes memory.new
        ≡ write_all (zip_writes addresses.now (cut size count (text_of source.entry)))
        (bytes memory.old) }
    ensures size { length (bytes memory.new) ≡ length (bytes memory.old) }
{
    let mut rest = source;
    for i in 0..count {
        let (piece, tail) = rest.split_at(size.min(rest.len()));
        write_parts(memory, addresses[i], piece);
        rest = tail;
    }
}

// Writes both parts over the bytes from `at` on, one behind the other.
fn write_parts(memory: &mut dyn GuestMem, at: u64, source: Parts)
    requires inside { at + length (text_of source) ≤ length (bytes memory.old) }
    requires fits { at + length (text_of source) < 2 ^ 64 }
    ensures written { bytes memory.new
        ≡ overwrite at (text_of source.entry) (bytes memory.old) }
    ensures size { length (bytes memory.new) ≡ length (bytes memory.old) }
{
    write_bytes(memory, at, source.front);
    write_bytes(memory, at + source.front.len() as u64, source.back);
}

// Writes `source` over the bytes from `at` on.
fn write_bytes(memory: &mut dyn GuestMem, at: u64, source: &[u8])
    requires { at + length source.now ≤ length (bytes memory.old) }
    ensures written { bytes memory.new ≡ overwrite at source.now (bytes memory.old) }
    ensures size { length (bytes memory.new) ≡ length (bytes memory.old) }
{
    memory.write_at(at, source);
}

// Writes two words from `at` on.
fn write_words(memory: &mut dyn GuestMem, at: u64, low: u64, high: u64)
    requires { at + 16 ≤ length (bytes memory.old) }
    ensures written { bytes memory.new ≡ overwrite at (two_words low high) (bytes memory.old) }
    ensures size { length (bytes memory.new) ≡ length (bytes memory.old) }
{
    memory.write_words(at, low, high);
}

// Writes back the first descriptors, whose buffers stand at the addresses.
fn write_back(
    memory: &mut dyn GuestMem,
    ring: &Ring,
    addresses: &[u64; MOST_PIECES],
    size: usize,
    source: Parts,
    count: usize,
    back: WriteBack,
)
    requires room { count ≤ length (owned ring.now) }
    requires inside { LiesInside (length (bytes memory.old)) ring.now }
    requires short { length (text_of source) ≤ 9018 }
    requires nine { count ≤ 9 }
    ensures written { bytes memory.new
        ≡ write_all
        (back_writes back (slots ring.now)
        (zip_writes addresses.now (cut size count (text_of source.entry))))
        (bytes memory.old) }
    ensures size { length (bytes memory.new) ≡ length (bytes memory.old) }
{
    let mut rest = source;
    for i in 0..count {
        let (piece, tail) = rest.split_at(size.min(rest.len()));
        let first = back.first_word(addresses[i]);
        let second = back.status(piece.len() as u64, i + 1 == count);
        write_words(memory, ring.slot(i as u32), first, second);
        rest = tail;
    }
}
