//! The index, and the search in it.
ghost use Rattle.std.specs.Prelude.{◌≡◌, ℕ, ◌+◌, ◌^◌, ◌<◌, ◌≤◌, ◌==◌, [], length, true, Some, None, is_some, bit_or, if◌then◌else◌, MatchResult};
ghost use Rattle.pool_index.specs.Index.{kept_pools, pools_in, Rises, IsPlace, IsGap};

use arrayvec::ArrayVec;
use std::marker::Model;

/// An entry of the index: a key that is kept, and its pools.
#[derive(Clone, Copy, Debug, Default)]
pub struct Entry {
    /// The key.
    pub key: u64,
    /// The set of its pools, as a mask with bit p for pool p.
    pub pools: u64,
}

/// At most `N` keys that strictly rise, each with its pools.
#[derive(Drop)]
pub struct PoolIndex<const N: usize> {
    kept: ArrayVec<Entry, N>,
}

impl<const N: usize> Model for PoolIndex<N> {
    ghost use Rattle.std.specs.Prelude.{List};
    ghost use Rattle.pool_index.specs.declared.index.Entry.{Entry};
    ghost use Rattle.pool_index.specs.Index.{Rises};

    ghost Value = { List Entry };

    ghost view = { λ x. x.kept.items };

    ghost invariant = { λ x. Rises 0 x.kept.items };
}

impl<const N: usize> PoolIndex<N> {
    /// No key.
    pub fn new() -> PoolIndex<N>
        ensures { result ≡ [] }
    {
        PoolIndex {
            kept: ArrayVec::new(),
        }
    }

    /// The pools of a key, and how many of the kept keys were compared with it: no more than `N` has binary digits. A key
    /// that is not kept has no pools.
    #[inline]
    pub fn probe(&self, key: u64) -> (u64, u8)
        ensures pools { result.0 ≡ pools_in self.now key }
        ensures few { (digits : ℕ) → N < 2 ^ digits → result.1 ≤ digits }
    {
        let kept = self.kept.as_slice();
        match find(kept, key) {
            (Ok(place), compared) => (kept[place].pools, compared),
            (Err(_), compared) => (0, compared),
        }
    }

    /// Keeps the key with these pools, whatever pools it had. Every other key stays as it is. A key that is not kept yet
    /// takes one of the `N` places.
    pub fn put(&mut self, key: u64, pools: u64)
        requires { kept_pools self.old key ≡ None → length self.old < N }
        ensures kept { (k : ℕ)
            → kept_pools self.new k ≡ (if key == k then Some pools else kept_pools self.old k) }
        ensures rises { Rises 0 self.new }
        ensures more { length self.new ≤ length self.old + 1 }
    {
        match find(self.kept.as_slice(), key).0 {
            Ok(place) => self.kept[place].pools = pools,
            Err(place) => self.kept.insert(place, Entry { key, pools }),
        }
    }

    /// Adds these pools to those of the key, which is kept then. Every other key stays as it is. A key that is not kept yet takes one of the
    /// `N` places.
    pub fn add(&mut self, key: u64, pools: u64)
        requires { kept_pools self.old key ≡ None → length self.old < N }
        ensures kept { (k : ℕ)
            → kept_pools self.new k
            ≡ (if key == k then Some (bit_or (pools_in self.old key) pools) else kept_pools self.old k) }
        ensures rises { Rises 0 self.new }
        ensures more { length self.new ≤ length self.old + 1 }
    {
        let kept = self.probe(key).0;
        self.put(key, kept | pools);
    }

    /// Takes the key out, where it is kept. Every other key stays as it is.
    pub fn take_out(&mut self, key: u64)
        ensures kept { (k : ℕ)
            → kept_pools self.new k ≡ (if key == k then None else kept_pools self.old k) }
        ensures rises { Rises 0 self.new }
        ensures fewer { length self.new ≤ length self.old }
    {
        if let Ok(place) = find(self.kept.as_slice(), key).0 {
            self.kept.remove(place);
        }
    }

    /// Makes what is kept of the key what was found of it: these pools, or nothing. Every other key stays as it is.
    pub fn set(&mut self, key: u64, found: Option<u64>)
        requires { is_some found ≡ true → kept_pools self.old key ≡ None → length self.old < N }
        ensures kept { (k : ℕ)
            → kept_pools self.new k ≡ (if key == k then found else kept_pools self.old k) }
        ensures rises { Rises 0 self.new }
        ensures more { length self.new ≤ length self.old + 1 }
    {
        match found {
            Some(pools) => self.put(key, pools),
            None => self.take_out(key),
        }
    }
}

// The place of the key, or else the place where it would stand, and how many keys were compared with it.
#[inline]
fn find(kept: &[Entry], key: u64) -> (Result<usize, usize>, u8)
    requires rises { Rises 0 kept.now }
    requires fits { length kept.now < 2 ^ 64 }
    ensures place { MatchResult result.0 (IsPlace kept.now key) (IsGap kept.now key) }
    ensures few { (digits : ℕ) → length kept.now < 2 ^ digits → result.1 ≤ digits }
{
    let mut low = 0;
    let mut high = kept.len();
    let mut compared = 0u8;
    while low < high {
        let middle = (low + high) / 2;
        let here = kept[middle].key;
        compared += 1;
        if here == key {
            return (Ok(middle), compared);
        }
        if here < key {
            low = middle + 1;
        } else {
            high = middle;
        }
    }
    (Err(low), compared)
}
