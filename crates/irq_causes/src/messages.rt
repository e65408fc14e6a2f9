//! The interrupt messages that the pools got, as a value.
ghost use Rattle.std.specs.Prelude.{◌≡◌, ◌≢◌, ℕ, ◌<◌, nat_lt, nat_eq, length, slice_index, slice_set};
ghost use Rattle.std.specs.Int.{bit_at};
ghost use Rattle.std.specs.Cmp.Lexicographic.{pointwise};
ghost use Rattle.std.specs.Cmp.{partial_equiv_from_equiv};
ghost use Rattle.std.proofs.lemmas.Cmp.{nat_list_eq_equiv};
ghost use Rattle.wire_frame.specs.Bits.{has_bit};
ghost use Rattle.irq_causes.specs.Messages.{both, masks_of, no_messages};

use crate::Vectors;
use std::marker::Model;
use wire_frame::{PoolId, PoolSet};

/// The interrupt messages that the 64 pools got: for each pool a set of its vectors.
///
/// A contract sees the list of the 64 sets in rising order of the pools, each as the number [`Vectors::bits`]. It takes 24
/// bytes: a word for each vector, which has bit p where pool p got that vector.
#[derive(Clone, Copy, Debug)]
pub struct Messages {
    vector_0: u64,
    vector_1: u64,
    vector_2: u64,
}

impl Model for Messages {
    ghost use Rattle.std.specs.Prelude.{ℕ, List, ◌<◌, ◌^◌};
    ghost use Rattle.irq_causes.specs.Messages.{masks};
    ghost use Rattle.irq_causes.specs.Words.{pools_of, zero_back, one_back, two_back};

    ghost Value = { List ℕ };

    ghost view = { λ m. masks m.vector_0 m.vector_1 m.vector_2 };

    ghost invariant = { λ m. (m.vector_0 < 2 ^ 64) × (m.vector_1 < 2 ^ 64)
        × (m.vector_2 < 2 ^ 64) };

    ghost inverse = { λ xs. record {
      vector_0 = pools_of 0 xs;
      vector_1 = pools_of 1 xs;
      vector_2 = pools_of 2 xs;
    } };

    ghost inverse_ok = { λ m fits. λ i. record {
      vector_0 = zero_back m.vector_0 m.vector_1 m.vector_2 fits.0 i;
      vector_1 = one_back m.vector_0 m.vector_1 m.vector_2 fits.1 i;
      vector_2 = two_back m.vector_0 m.vector_1 m.vector_2 fits.2 i;
    } };
}

impl Messages {
    /// No pool got any.
    #[inline]
    #[tactic(auto, using(crate::proofs::MessageLemmas::masks_none))]
    pub fn none() -> Messages
        ensures { result ≡ no_messages }
    {
        Messages {
            vector_0: 0,
            vector_1: 0,
            vector_2: 0,
        }
    }

    /// One pool got those vectors, and no other got any.
    #[inline]
    pub fn of(pool: PoolId, vectors: Vectors) -> Messages
        ensures { result ≡ slice_set no_messages pool vectors }
    {
        let mut messages = Self::none();
        messages.set(pool, vectors);
        messages
    }

    /// The vectors that the pool got.
    #[inline]
    #[tactic(auto, using(crate::specs::Words::mask_of_pool))]
    pub fn to(&self, pool: PoolId) -> Vectors
        ensures { result ≡ slice_index self.now pool }
    {
        let first = bit_of(self.vector_0, pool);
        let second = bit_of(self.vector_1, pool);
        let third = bit_of(self.vector_2, pool);
        Vectors::from_bits(first + 2 * second + 4 * third)
    }

    /// Makes those the vectors that the pool got, whatever they were. What every other pool got stays.
    #[inline]
    #[tactic(auto, using(crate::proofs::MessageLemmas::masks_put))]
    pub fn set(&mut self, pool: PoolId, vectors: Vectors)
        ensures { self.new ≡ slice_set self.old pool vectors }
    {
        let bits = vectors.bits();
        self.vector_0 = put(self.vector_0, pool, bits % 2);
        self.vector_1 = put(self.vector_1, pool, bits / 2 % 2);
        self.vector_2 = put(self.vector_2, pool, bits / 4);
    }

    /// Gives those vectors to a pool that has got none. What every other pool got stays.
    #[inline]
    #[tactic(auto, using(crate::proofs::MessageLemmas::masks_put, crate::proofs::MessageLemmas::none_of_zero, crate::proofs::MessageLemmas::none_of_one, crate::proofs::MessageLemmas::none_of_two))]
    pub fn give(&mut self, pool: PoolId, vectors: Vectors)
        requires { slice_index self.old pool ≡ 0 }
        ensures { self.new ≡ slice_set self.old pool vectors }
    {
        let bits = vectors.bits();
        self.vector_0 = join(self.vector_0, pool, bits % 2);
        self.vector_1 = join(self.vector_1, pool, bits / 2 % 2);
        self.vector_2 = join(self.vector_2, pool, bits / 4);
    }

    /// The pools that got any vector.
    #[inline]
    #[tactic(auto, using(crate::proofs::MessageLemmas::any_of))]
    pub fn pools(&self) -> PoolSet
        ensures { (p : ℕ) → p < 64 → has_bit result p ≡ nat_lt 0 (slice_index self.now p) }
    {
        PoolSet::from_bits(self.vector_0 | self.vector_1 | self.vector_2)
    }

    /// The pools that got vector `v`. None got a vector above 2.
    #[inline]
    #[tactic(auto, using(crate::proofs::MessageLemmas::pools_with_zero, crate::proofs::MessageLemmas::pools_with_one, crate::proofs::MessageLemmas::pools_with_two, crate::proofs::MessageLemmas::pools_with_past_two))]
    pub fn pools_with(&self, v: u8) -> PoolSet
        ensures { (p : ℕ) → p < 64 → has_bit result p ≡ has_bit (slice_index self.now p) v }
    {
        PoolSet::from_bits(match v {
            0 => self.vector_0,
            1 => self.vector_1,
            2 => self.vector_2,
            _ => 0,
        })
    }

    /// The messages as three words: word v has bit p where pool p got vector v.
    #[inline]
    pub fn words(&self) -> [u64; 3]
        ensures { masks_of result ≡ self.now }
    {
        [self.vector_0, self.vector_1, self.vector_2]
    }

    /// The messages of three words: pool p got vector v where word v has bit p.
    #[inline]
    pub fn from_words(words: [u64; 3]) -> Messages
        ensures { result ≡ masks_of words }
    {
        let [vector_0, vector_1, vector_2] = words;
        Messages {
            vector_0,
            vector_1,
            vector_2,
        }
    }

    /// Adds other messages: each pool has got the vectors of both.
    #[inline]
    pub fn unite(&mut self, more: &Messages)
        ensures { self.new ≡ both self.old more.now }
    {
        let old = self.words();
        let new = more.words();
        *self = Messages::from_words([old[0] | new[0], old[1] | new[1], old[2] | new[2]]);
    }

    /// The set of each pool as a number, in rising order of the pools.
    pub fn to_masks(&self) -> [u8; 64]
        ensures { result ≡ self.now }
    {
        self.masks_are_small();
        let mut masks = [0; 64];
        for pool in self.pools() {
            masks[usize::from(pool.get())] = self.to(pool).bits();
        }
        masks
    }

    /// A law: there is a set for each of the 64 pools, and each is a number below 8. The call does nothing.
    #[inline]
    #[tactic(auto, using(crate::proofs::MessageLemmas::mask_of_pool_small, crate::specs::Words::length_of_masks))]
    pub fn masks_are_small(&self)
        ensures length { length self.now ≡ 64 }
        ensures below { (p : ℕ) → slice_index self.now p < 8 }
    {
        // The proof knows the words once one is read.
        let _word = self.vector_0;
    }
}

impl Default for Messages {
    fn default() -> Messages
        ensures { result ≡ no_messages }
    {
        Messages::none()
    }
}

impl PartialEq for Messages {
    ghost eq = { pointwise nat_eq };

    ghost laws = { partial_equiv_from_equiv nat_list_eq_equiv };

    #[inline]
    #[tactic(auto, using(crate::proofs::MessageLemmas::compared))]
    fn eq(&self, other: &Messages) -> bool {
        [self.vector_0, self.vector_1, self.vector_2]
            == [other.vector_0, other.vector_1, other.vector_2]
    }
}

impl Eq for Messages {
    ghost laws = { nat_list_eq_equiv };
}

// The bit of the pool in the word.
#[inline]
fn bit_of(word: u64, pool: PoolId) -> u8
    ensures value { result ≡ bit_at word pool }
    ensures below { result < 2 }
{
    ((word >> pool.get()) & 1) as u8
}

// The word with the bit of the pool as it is given.
#[inline]
#[tactic(auto, using(crate::proofs::MessageLemmas::put_own, crate::proofs::MessageLemmas::put_other))]
fn put(word: u64, pool: PoolId, bit: u8) -> u64
    requires { bit < 2 }
    ensures own { bit_at result pool ≡ bit }
    ensures others { (p : ℕ) → p < 64 → p ≢ pool → bit_at result p ≡ bit_at word p }
{
    let place = pool.get();
    (word & !(1 << place)) | (u64::from(bit) << place)
}

// The word with the bit of the pool, which it hasn't, as it is given.
#[inline]
#[tactic(auto, using(crate::proofs::MessageLemmas::join_own, crate::proofs::MessageLemmas::join_other))]
fn join(word: u64, pool: PoolId, bit: u8) -> u64
    requires small { bit < 2 }
    requires none { bit_at word pool ≡ 0 }
    ensures own { bit_at result pool ≡ bit }
    ensures others { (p : ℕ) → p < 64 → p ≢ pool → bit_at result p ≡ bit_at word p }
{
    word | (u64::from(bit) << pool.get())
}
