//! Bytes that stand in two parts.
ghost use Rattle.std.specs.Prelude.{◌≡◌, ℕ, ◌+◌, ◌^◌, ◌<◌, ◌≤◌, [], ◌∷◌, ◌++◌, length, take, drop};
ghost use Rattle.guest_memory.specs.Memory.{overwrite};
ghost use Rattle.live_memory.specs.Trace.{Wrote};
ghost use Rattle.rx_desc.specs.Parts.{text_of};

use live_memory::{Dma, Traced};

// Bytes that stand in two parts, one after the other: a frame without its tag is its addresses and what follows the tag.
#[derive(Clone, Copy)]
pub(crate) struct Parts<'a> {
    pub(crate) front: &'a [u8],
    pub(crate) back: &'a [u8],
}

impl<'a> Parts<'a> {
    // How many bytes there are.
    #[inline]
    pub(crate) fn len(&self) -> usize
        ensures { result ≡ length (text_of self.now) }
    {
        self.front.len() + self.back.len()
    }

    // The first `mid` bytes, and the rest.
    #[inline]
    pub(crate) fn split_at(self, mid: usize) -> (Parts<'a>, Parts<'a>)
        requires { mid ≤ length (text_of self) }
        ensures front { text_of result.0 ≡ take mid (text_of self.entry) }
        ensures back { text_of result.1 ≡ drop mid (text_of self.entry) }
    {
        let Parts { front, back } = self;
        if mid <= front.len() {
            let (first, rest) = front.split_at(mid);
            (
                Parts {
                    front: first,
                    back: &back[..0],
                },
                Parts { front: rest, back },
            )
        } else {
            let (first, rest) = back.split_at(mid - front.len());
            (
                Parts { front, back: first },
                Parts {
                    front: &front[..0],
                    back: rest,
                },
            )
        }
    }
}

// Writes the bytes over those of the memory from `at` on, each once.
#[inline(always)]
pub(crate) fn write_parts<D: Dma<K>, K>(memory: &mut Traced<D, K>, at: u64, source: Parts)
    requires inside { at + length (text_of source) ≤ length (D.seen memory.old.memory) }
    requires fits { at + length (text_of source) < 2 ^ 64 }
    ensures written { D.seen memory.new.memory
        ≡ overwrite at (text_of source.entry) (D.seen memory.old.memory) }
    ensures listed { memory.new.accesses
        ≡ memory.old.accesses ++ Wrote at (text_of source.entry) ∷ [] }
    ensures size { length (D.seen memory.new.memory) ≡ length (D.seen memory.old.memory) }
{
    if source.front.is_empty() {
        memory.store(at, source.back);
    } else {
        memory.store_parts(at, source.front, source.back);
    }
}
