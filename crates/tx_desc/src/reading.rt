//! Reading a descriptor and its bytes, no byte twice.
ghost use Rattle.std.specs.Prelude.{◌≡◌, ℕ, ◌+◌, ◌-◌, ◌^◌, ◌<◌, ◌≤◌, [], ◌∷◌, ◌++◌, length, slice_range};
ghost use Rattle.guest_memory.specs.Memory.{overwrite, two_words};
ghost use Rattle.live_memory.specs.Trace.{Read, HasRead};
ghost use Rattle.tx_desc.specs.Transmit.{length_of};
ghost use Rattle.tx_desc.specs.Fetches.{Holds, Stands, ReadsApart, data_of};
ghost use Rattle.tx_desc.specs.Accesses.{part_read, data_reads};

use crate::descriptor::TxDescriptor;
use byteorder::{ByteOrder, LittleEndian};
use live_memory::{Dma, Traced};

// Reads the descriptor that stands at an address, by one access.
#[inline(always)]
pub(crate) fn read_descriptor<D: Dma<K>, K>(memory: &mut Traced<D, K>, at: u64) -> TxDescriptor
    requires { at + 16 ≤ length (D.seen memory.old.memory) }
    ensures at { result.at ≡ at }
    ensures buffer { result.buffer < 2 ^ 64 }
    ensures word { result.word < 2 ^ 64 }
    ensures holds { Holds (D.seen memory.new.memory) result }
    ensures read { HasRead D.shared (D.seen memory.old.memory) (D.seen memory.new.memory)
        memory.old.accesses memory.new.accesses }
    ensures listed { memory.new.accesses ≡ memory.old.accesses
        ++ Read at (two_words result.buffer result.word) ∷ [] }
{
    let (buffer, word) = memory.load_words(at);
    TxDescriptor { at, buffer, word }
}

// Reads the bytes of a descriptor into `out`, which has as many. Those that lie in the descriptor itself were read with it, and
// aren't read again.
#[inline(always)]
pub(crate) fn read_data<D: Dma<K>, K>(
    memory: &mut Traced<D, K>,
    descriptor: TxDescriptor,
    out: &mut [u8],
)
    requires stands { Stands (D.seen memory.old.memory) descriptor }
    requires all { length out.old ≡ length_of descriptor.word }
    ensures out { out.new ≡ data_of (D.seen memory.new.memory) descriptor }
    ensures listed { memory.new.accesses ≡ memory.old.accesses
        ++ data_reads descriptor (D.seen memory.new.memory) }
    ensures reads { ReadsApart D.shared descriptor.at
        memory.old.accesses memory.new.accesses (D.seen memory.old.memory) (D.seen memory.new.memory) }
{
    if descriptor.lies_apart() {
        read_part(memory, descriptor.buffer, out);
    } else {
        // a copy, so that the descriptor stays in registers where the call isn't made
        let TxDescriptor { at, buffer, word } = descriptor;
        read_around(memory, TxDescriptor { at, buffer, word }, out);
    }
}

// Reads the bytes before the descriptor and those behind it, and takes those between from its words.
#[cold]
#[inline(never)]
fn read_around<D: Dma<K>, K>(memory: &mut Traced<D, K>, descriptor: TxDescriptor, out: &mut [u8])
    requires stands { Stands (D.seen memory.old.memory) descriptor }
    requires all { length out.old ≡ length_of descriptor.word }
    requires over { descriptor.at < descriptor.buffer + length_of descriptor.word }
    requires under { descriptor.buffer < descriptor.at + 16 }
    ensures out { out.new ≡ data_of (D.seen memory.new.memory) descriptor }
    ensures listed { memory.new.accesses ≡ memory.old.accesses
        ++ data_reads descriptor (D.seen memory.new.memory) }
    ensures reads { ReadsApart D.shared descriptor.at
        memory.old.accesses memory.new.accesses (D.seen memory.old.memory) (D.seen memory.new.memory) }
{
    let low = gap(descriptor.at, descriptor.buffer);
    let skip = gap(descriptor.buffer, descriptor.at);
    let high = gap(descriptor.at + 16, descriptor.buffer).min(out.len());
    let (before, rest) = out.split_at_mut(low);
    let (own, behind) = rest.split_at_mut(high - low);
    read_part(memory, descriptor.buffer, before);
    copy_own(descriptor, skip, own);
    read_part(memory, descriptor.at + 16, behind);
}

// How far one address is behind another, 0 where it is before.
fn gap(to: u64, from: u64) -> usize
    ensures { result ≡ to - from }
{
    if to > from { (to - from) as usize } else { 0 }
}

// Reads bytes by one access, or by none where there are none.
#[inline(always)]
#[tactic(auto, unfolding(crate::specs::Accesses::part_read))]
fn read_part<D: Dma<K>, K>(memory: &mut Traced<D, K>, at: u64, out: &mut [u8])
    requires { at + length out.old ≤ length (D.seen memory.old.memory) }
    ensures out { out.new
        ≡ slice_range (D.seen memory.new.memory) at (at + length out.old) }
    ensures seen { D.seen memory.new.memory ≡ overwrite at out.new (D.seen memory.old.memory) }
    ensures read { HasRead D.shared (D.seen memory.old.memory) (D.seen memory.new.memory)
        memory.old.accesses memory.new.accesses }
    ensures listed { memory.new.accesses ≡ memory.old.accesses
        ++ part_read at (at + length out.old) (D.seen memory.new.memory) }
{
    if !out.is_empty() {
        memory.load(at, out);
    }
}

// Copies bytes of the descriptor's own words.
fn copy_own(descriptor: TxDescriptor, skip: usize, out: &mut [u8])
    requires { skip + length out.old ≤ 16 }
    ensures { out.new
        ≡ slice_range (two_words descriptor.buffer descriptor.word) skip (skip + length out.old) }
{
    let words = words_of(descriptor);
    out.copy_from_slice(&words[skip..skip + out.len()]);
}

// The two words of a descriptor, as bytes.
#[tactic(auto, unfolding(guest_memory::specs::Memory::two_words))]
fn words_of(descriptor: TxDescriptor) -> [u8; 16]
    ensures value { result ≡ two_words descriptor.buffer descriptor.word }
    ensures len { length result ≡ 16 }
{
    let mut words = [0u8; 16];
    LittleEndian::write_u64(&mut words[..8], descriptor.buffer);
    LittleEndian::write_u64(&mut words[8..], descriptor.word);
    words
}
