//! The words of VMOLR, and the pools that each flag has.
ghost use Rattle.std.specs.Prelude.{◌≡◌, ℕ, ◌<◌, ◌==◌, true, Some, IfSome, replicate, slice_index, if◌then◌else◌};
ghost use Rattle.wire_frame.specs.Bits.{has_bit};
ghost use Rattle.wire_frame.specs.Row.{is_in, place, word_at, words_after};
ghost use Rattle.pool_filter.specs.Registers.{VMOLR};

use crate::flags::PoolFlags;
use crate::registers::VMOLR;
use bitflags::Flags;
use std::marker::Model;
use wire_frame::{PoolId, read_word, write_word};

/// The words of VMOLR, one a pool, and for each flag the mask of the pools whose word has it, with bit p for pool p (82599
/// datasheet, VMOLR).
#[derive(Drop)]
pub(crate) struct FlagMasks {
    words: [u32; 64],
    untagged: u64,
    hashed: u64,
    broadcast: u64,
    multicast: u64,
}

impl Model for FlagMasks {
    ghost use Rattle.std.specs.Prelude.{ℕ, List};
    ghost use Rattle.pool_filter.specs.Flags.{IsFlagMask};

    ghost Value = { List ℕ };

    ghost view = { λ m. m.words };

    ghost invariant = { λ m. IsFlagMask 24 m.untagged m.words × IsFlagMask 25 m.hashed m.words
        × IsFlagMask 27 m.broadcast m.words × IsFlagMask 28 m.multicast m.words };
}

/// The words by their offsets.
impl FlagMasks {
    /// Every word 0: no pool has a flag.
    pub(crate) fn new() -> FlagMasks
        ensures { result ≡ replicate 64 0 }
    {
        FlagMasks {
            words: [0; 64],
            untagged: 0,
            hashed: 0,
            broadcast: 0,
            multicast: 0,
        }
    }

    /// The word at an offset; `None` where the offset names no word of VMOLR.
    #[inline]
    pub(crate) fn read(&self, offset: u32) -> Option<u32>
        ensures { result ≡ word_at VMOLR self.now offset }
    {
        read_word(&self.words, VMOLR, offset)
    }

    /// Writes the word at an offset, of which it keeps the flags. Where the offset names no word of VMOLR, nothing changes.
    pub(crate) fn write(&mut self, offset: u32, value: u32)
        ensures { self.new ≡ words_after VMOLR self.old offset value }
    {
        write_word(&mut self.words, VMOLR, offset, value);
        if let Some(pool) = pool_of(offset) {
            let flags = PoolFlags(self.words[pool]);
            set_pool(&mut self.untagged, pool, flags.contains(PoolFlags::AUPE));
            set_pool(&mut self.hashed, pool, flags.contains(PoolFlags::ROMPE));
            set_pool(&mut self.broadcast, pool, flags.contains(PoolFlags::BAM));
            set_pool(&mut self.multicast, pool, flags.contains(PoolFlags::MPE));
        }
    }
}

/// What they say.
impl FlagMasks {
    /// The pool's word.
    #[inline]
    pub(crate) fn word(&self, pool: PoolId) -> u32
        ensures { result ≡ slice_index self.now pool }
    {
        self.words[usize::from(pool.get())]
    }

    /// The pools with AUPE.
    #[inline]
    pub(crate) fn untagged(&self) -> u64
        ensures { (p : ℕ) → p < 64 → has_bit result p ≡ has_bit (slice_index self.now p) 24 }
    {
        self.untagged
    }

    /// The pools with ROMPE.
    #[inline]
    pub(crate) fn hashed(&self) -> u64
        ensures { (p : ℕ) → p < 64 → has_bit result p ≡ has_bit (slice_index self.now p) 25 }
    {
        self.hashed
    }

    /// The pools with BAM.
    #[inline]
    pub(crate) fn broadcast(&self) -> u64
        ensures { (p : ℕ) → p < 64 → has_bit result p ≡ has_bit (slice_index self.now p) 27 }
    {
        self.broadcast
    }

    /// The pools with MPE.
    #[inline]
    pub(crate) fn multicast(&self) -> u64
        ensures { (p : ℕ) → p < 64 → has_bit result p ≡ has_bit (slice_index self.now p) 28 }
    {
        self.multicast
    }
}

// The pool of which the offset names the word.
#[inline]
fn pool_of(offset: u32) -> Option<usize>
    ensures named { is_in VMOLR offset ≡ true → result ≡ Some (place VMOLR offset) }
    ensures below { IfSome result (λ p. p < 64) }
{
    if offset < VMOLR.first || offset >= VMOLR.first + 256 {
        return None;
    }
    Some(((offset - VMOLR.first) / 4) as usize)
}

// Puts the pool into the mask, or takes it out of it.
#[inline]
#[tactic(auto, using(crate::proofs::FlagLemmas::pool_put, crate::proofs::FlagLemmas::pool_taken))]
fn set_pool(pools: &mut u64, pool: usize, has: bool)
    requires { pool < 64 }
    ensures { (p : ℕ) → p < 64
        → has_bit pools.new p ≡ (if pool == p then has else has_bit pools.old p) }
{
    if has {
        *pools |= 1 << pool;
    } else {
        *pools &= !(1 << pool);
    }
}
