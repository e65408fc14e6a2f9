//! The words of the registers, and what they say.
ghost use Rattle.std.specs.Prelude.{◌≡◌, ◌/◌, ◌%◌, ◌<◌, true, Some, None, IfSome, if◌then◌else◌};
ghost use Rattle.byteorder.specs.Endian.{little_number};
ghost use Rattle.wire_frame.specs.Row.{is_in, place};
ghost use Rattle.addr_tables.specs.Registers.{RAL, RAH, MPSAR};
ghost use Rattle.addr_tables.specs.Addresses.{initial_addresses, addresses_at, addresses_after, entry_address, entry_has_pool, address_entries, hash_low, multicast_hit};

use crate::registers::{HASH_SIZE, MCSTCTRL, MCSTCTRL_KEPT, MFE, MPSAR, MTA, RAH, RAL, VALID};
use pool_index::KeyedWords;
use std::marker::Model;
use wire_frame::{
    Mac, PoolId, field, has_bit, pool_words, read_one, read_word, write_one, write_word,
};

/// The words of 128 receive addresses, each with its pools, and of the multicast table (82599 datasheet, Packet
/// Filtering).
#[derive(Drop)]
pub(crate) struct Words {
    low: [u32; 128],
    high: [u32; 128],
    pools: [u32; 256],
    hashes: [u32; 128],
    control: u32,
}

impl Model for Words {
    ghost use Rattle.addr_tables.specs.Addresses.{Addresses};

    ghost Value = { Addresses };

    ghost view = { λ w. record {
      low = w.low;
      high = w.high;
      pools = w.pools;
      hashes = w.hashes;
      control = w.control;
    } };
}

/// The words by their offsets.
impl Words {
    /// Every word 0.
    #[tactic(auto, unfolding(crate::specs::Addresses::initial_addresses))]
    pub(crate) fn new() -> Words
        ensures { result ≡ initial_addresses }
    {
        Words {
            low: [0; 128],
            high: [0; 128],
            pools: [0; 256],
            hashes: [0; 128],
            control: 0,
        }
    }

    /// The word at an offset; `None` where the offset names no register of these tables.
    #[tactic(auto, unfolding(crate::specs::Addresses::addresses_at))]
    pub(crate) fn read(&self, offset: u32) -> Option<u32>
        ensures { result ≡ addresses_at self.now offset }
    {
        if let Some(word) = read_word(&self.low, RAL, offset) {
            return Some(word);
        }
        if let Some(word) = read_word(&self.high, RAH, offset) {
            return Some(word);
        }
        if let Some(word) = read_word(&self.pools, MPSAR, offset) {
            return Some(word);
        }
        if let Some(word) = read_word(&self.hashes, MTA, offset) {
            return Some(word);
        }
        read_one(self.control, MCSTCTRL, offset)
    }
}

/// The entries, by their addresses.
impl KeyedWords<128> for Words {
    ghost entries = { address_entries };

    ghost after = { addresses_after };

    #[inline]
    fn is_valid(&self, e: usize) -> bool {
        has_bit(u64::from(self.high[e]), VALID)
    }

    #[inline]
    fn key(&self, e: usize) -> u64 {
        u64::from(self.low[e]) + u64::from(self.high[e] % 0x1_0000) * 0x1_0000_0000
    }

    #[inline]
    fn pools(&self, e: usize) -> u64 {
        pool_words(&self.pools, e)
    }

    #[tactic(auto, unfolding(crate::specs::Addresses::addresses_after))]
    fn write(&mut self, offset: u32, value: u32) {
        write_word(&mut self.low, RAL, offset, value);
        write_word(&mut self.high, RAH, offset, value);
        write_word(&mut self.pools, MPSAR, offset, value);
        write_word(&mut self.hashes, MTA, offset, value);
        write_one(&mut self.control, MCSTCTRL, MCSTCTRL_KEPT, offset, value);
    }

    #[inline]
    fn entry_of(offset: u32) -> Option<usize> {
        entry_at(offset)
    }
}

// The entry of which the offset names a word, one of RAL, RAH or MPSAR. An entry's words of RAL and RAH stand in 8 bytes,
// and so do its two of MPSAR.
#[inline]
fn entry_at(offset: u32) -> Option<usize>
    ensures low { is_in RAL offset ≡ true → result ≡ Some (place RAL offset) }
    ensures high { is_in RAH offset ≡ true → result ≡ Some (place RAH offset) }
    ensures pools { is_in MPSAR offset ≡ true → result ≡ Some (place MPSAR offset / 2) }
    ensures below { IfSome result (λ e. e < 128) }
{
    let first = if offset < MPSAR.first {
        RAL.first
    } else {
        MPSAR.first
    };
    if offset < first || offset - first >= 1024 {
        return None;
    }
    Some(((offset - first) / 8) as usize)
}

/// What an entry gives a pool.
impl Words {
    /// The address that the entry gives the pool: `None` where the entry is not valid or does not have the pool's bit.
    #[inline]
    pub(crate) fn address_for(&self, pool: PoolId, e: usize) -> Option<u64>
        requires { e < 128 }
        ensures { result
            ≡ (if entry_has_pool self.now pool e then Some (entry_address self.now e) else None) }
    {
        if self.is_valid(e) && has_bit(self.pools(e), u32::from(pool.get())) {
            Some(self.key(e))
        } else {
            None
        }
    }
}

/// The multicast table.
impl Words {
    /// Whether the multicast table is on and has the bit of the address's hash.
    #[tactic(auto, unfolding(crate::specs::Addresses::multicast_hit))]
    pub(crate) fn multicast_hit(&self, address: Mac) -> bool
        ensures { result ≡ multicast_hit self.now (little_number 6 address.0) }
    {
        let hash = field(address.number(), hash_low(self.control), HASH_SIZE);
        let word = self.hashes[(hash / 32) as usize];
        has_bit(u64::from(self.control), MFE) && has_bit(u64::from(word), (hash % 32) as u32)
    }
}

// The lowest bit of the hash in an address, by bits 1:0 of MCSTCTRL.
#[inline]
fn hash_low(control: u32) -> u32
    ensures value { result ≡ hash_low (control % 4) }
    ensures below { result < 64 }
{
    match control % 4 {
        0 => 36,
        1 => 35,
        2 => 34,
        _ => 32,
    }
}
