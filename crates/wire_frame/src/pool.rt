//! Pools.
ghost use Rattle.std.specs.Prelude.{◌≡◌, ◌<◌, is_some, IfSome, nat_lt};

use std::marker::Model;

/// A pool, 0 to 63: the two queue pairs of one virtual function, and the settings that the physical function keeps for
/// them (82599 datasheet, Virtualization).
#[derive(Clone, Copy, Debug, PartialEq, Eq)]
pub struct PoolId {
    number: u8,
}

impl Model for PoolId {
    ghost use Rattle.std.specs.Prelude.{ℕ, ◌<◌};

    ghost Value = { ℕ };

    ghost view = { λ p. p.number };

    ghost invariant = { λ p. p.number < 64 };

    ghost inverse = { λ n. record { number = n } };
}

impl PoolId {
    /// How many pools there are.
    pub const COUNT: u8 = 64;

    /// The pool of that number, if there is one.
    #[inline]
    pub fn new(number: u8) -> Option<PoolId>
        ensures variant { is_some result ≡ nat_lt number 64 }
        ensures value { IfSome result (λ p. p ≡ number) }
    {
        if number < Self::COUNT {
            Some(PoolId { number })
        } else {
            None
        }
    }

    /// The number of the pool.
    #[inline]
    pub fn get(self) -> u8
        ensures value { result ≡ self }
        ensures below { result < 64 }
    {
        self.number
    }
}
