//! Sets of pools.
ghost use Rattle.std.specs.Prelude.{◌≡◌, ◌<◌, nat_eq};
ghost use Rattle.wire_frame.specs.Bits.{has_bit};

use crate::{PoolId, has_bit};
use std::marker::Model;

/// A set of pools, in one word: bit p is pool p.
///
/// A contract sees the number [`PoolSet::bits`].
#[derive(Clone, Copy, Debug, PartialEq, Eq)]
pub struct PoolSet {
    bits: u64,
}

impl Model for PoolSet {
    ghost use Rattle.std.specs.Prelude.{ℕ};

    ghost Value = { ℕ };

    ghost view = { λ s. s.bits };

    ghost inverse = { λ n. record { bits = n } };
}

impl PoolSet {
    /// No pool.
    #[inline]
    pub fn none() -> PoolSet
        ensures { result ≡ 0 }
    {
        PoolSet { bits: 0 }
    }

    /// The set of the word: pool p is in it where bit p is 1.
    #[inline]
    pub fn from_bits(bits: u64) -> PoolSet
        ensures { result ≡ bits }
    {
        PoolSet { bits }
    }

    /// The set as a word: bit p is 1 where pool p is in it.
    #[inline]
    pub fn bits(self) -> u64
        ensures { result ≡ self }
    {
        self.bits
    }

    /// Whether no pool is in the set.
    #[inline]
    pub fn is_empty(self) -> bool
        ensures { result ≡ nat_eq self 0 }
    {
        self.bits == 0
    }

    /// Whether the pool is in the set.
    #[inline]
    pub fn contains(self, pool: PoolId) -> bool
        ensures { result ≡ has_bit self pool }
    {
        has_bit(self.bits, u32::from(pool.get()))
    }
}

impl IntoIterator for PoolSet {
    type Item = PoolId;

    type IntoIter = Pools;

    ghost use Rattle.std.specs.Prelude.{◌≡◌};

    ghost into_iter_gives = { λ s it. it ≡ s };

    #[inline]
    fn into_iter(self) -> Pools {
        Pools { rest: self.bits }
    }
}

/// The pools of a set, in rising order.
///
/// A contract sees those that are left, as a [`PoolSet`]'s number.
#[derive(Clone, Copy, Debug, Drop)]
pub struct Pools {
    rest: u64,
}

impl Model for Pools {
    ghost use Rattle.std.specs.Prelude.{ℕ};

    ghost Value = { ℕ };

    ghost view = { λ s. s.rest };

    ghost inverse = { λ n. record { rest = n } };
}

impl Iterator for Pools {
    type Item = PoolId;

    ghost use Rattle.std.specs.Iterator.{at_most};
    ghost use Rattle.wire_frame.specs.Pools.{TakesLowest};

    ghost next_gives = { TakesLowest };

    ghost remaining = { λ s. at_most s };

    #[inline]
    #[tactic(auto, using(crate::proofs::BitLemmas::lowest_taken))]
    fn next(&mut self) -> Option<PoolId> {
        if self.rest == 0 {
            return None;
        }
        let lowest = self.rest.trailing_zeros();
        self.rest &= !(1 << lowest);
        PoolId::new(lowest as u8)
    }
}
