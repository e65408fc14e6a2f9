//! A set of the vectors of one virtual function.
ghost use Rattle.std.specs.Prelude.{◌≡◌, ◌^◌, ◌<◌, is_some, IfSome, nat_lt, nat_eq, bit_or};
ghost use Rattle.wire_frame.specs.Bits.{has_bit};
ghost use Rattle.irq_causes.specs.Causes.{vectors_in, ◌without◌};

use std::marker::Model;
use wire_frame::has_bit;

/// A set of the vectors 0 to 2, which are all that a virtual function has (82599 datasheet, VTIVAR).
///
/// A contract sees the number [`Vectors::bits`].
#[derive(Clone, Copy, Debug, PartialEq, Eq)]
pub struct Vectors {
    bits: u8,
}

impl Model for Vectors {
    ghost use Rattle.std.specs.Prelude.{ℕ, ◌<◌};

    ghost Value = { ℕ };

    ghost view = { λ v. v.bits };

    ghost invariant = { λ v. v.bits < 8 };

    ghost inverse = { λ n. record { bits = n } };
}

impl Vectors {
    /// No vector.
    #[inline]
    pub fn none() -> Vectors
        ensures { result ≡ 0 }
    {
        Vectors { bits: 0 }
    }

    /// The set that has vector v where bit v is 1, if the number names no vector above 2.
    #[inline]
    pub fn new(bits: u8) -> Option<Vectors>
        ensures variant { is_some result ≡ nat_lt bits 8 }
        ensures value { IfSome result (λ v. v ≡ bits) }
    {
        if bits < 8 {
            Some(Vectors { bits })
        } else {
            None
        }
    }

    /// The set that has vector v where bit v is 1, of a number that is known to name no vector above 2.
    #[inline]
    pub fn from_bits(bits: u8) -> Vectors
        requires { bits < 8 }
        ensures { result ≡ bits }
    {
        Vectors { bits }
    }

    /// The set as a number below 8: bit v is 1 where vector v is in it.
    #[inline]
    pub fn bits(self) -> u8
        ensures value { result ≡ self }
        ensures below { result < 8 }
    {
        self.bits
    }

    /// Whether no vector is in the set.
    #[inline]
    pub fn is_empty(self) -> bool
        ensures { result ≡ nat_eq self 0 }
    {
        self.bits == 0
    }

    // Vector `v` alone.
    #[inline]
    #[tactic(auto, using(crate::proofs::Bounds::one_vector))]
    pub(crate) fn of(v: u8) -> Vectors
        requires { v < 3 }
        ensures { result ≡ 2 ^ v }
    {
        Vectors { bits: 1 << v }
    }

    // The vectors that a word of a register names, in its bits 2:0.
    #[inline]
    pub(crate) fn of_word(word: u32) -> Vectors
        ensures { result ≡ vectors_in word }
    {
        Vectors {
            bits: (word % 8) as u8,
        }
    }

    // Whether vector `v` is in the set.
    #[inline]
    pub(crate) fn contains(self, v: u8) -> bool
        requires { v < 3 }
        ensures { result ≡ has_bit self v }
    {
        has_bit(u64::from(self.bits), u32::from(v))
    }

    // The vectors of both sets.
    #[inline]
    #[tactic(auto, using(crate::proofs::Bounds::or_below_eight))]
    pub(crate) fn with(self, other: Vectors) -> Vectors
        ensures { result ≡ bit_or self other }
    {
        Vectors {
            bits: self.bits | other.bits,
        }
    }

    // The vectors that are not in the other set.
    #[inline]
    #[tactic(auto, using(crate::proofs::Bounds::and_below_eight))]
    pub(crate) fn without(self, other: Vectors) -> Vectors
        ensures { result ≡ (self without other) }
    {
        Vectors {
            bits: self.bits & !other.bits,
        }
    }
}
