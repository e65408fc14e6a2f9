//! The tables.
ghost use Rattle.std.specs.Prelude.{◌≡◌, ℕ, ◌<◌, ◌≤◌, ◌==◌, not, Some, None, if◌then◌else◌};
ghost use Rattle.byteorder.specs.Endian.{little_number};
ghost use Rattle.wire_frame.specs.Bits.{has_bit};
ghost use Rattle.addr_tables.specs.Addresses.{initial_addresses, addresses_at, addresses_after, entry_address, entry_has_pool, has_address, is_held, multicast_hit};

use crate::words::Words;
use pool_index::KeyedTable;
use std::marker::Model;
use wire_frame::{Mac, PoolId, has_bit};

/// 128 receive addresses, each with its pools, and the multicast table (82599 datasheet, Packet Filtering).
#[derive(Drop)]
pub struct AddrTables {
    table: KeyedTable<Words, 128>,
}

impl Model for AddrTables {
    ghost use Rattle.addr_tables.specs.Addresses.{Addresses};

    ghost Value = { Addresses };

    ghost view = { λ t. t.table };
}

impl Default for AddrTables {
    ghost is_default = { λ t. t ≡ initial_addresses };

    /// Tables in which every word is 0.
    fn default() -> AddrTables {
        AddrTables::new()
    }
}

/// The words by their offsets.
impl AddrTables {
    /// Tables in which every word is 0: no entry is valid, and the multicast table is off.
    pub fn new() -> AddrTables
        ensures { result ≡ initial_addresses }
    {
        AddrTables {
            table: KeyedTable::new(Words::new()),
        }
    }

    /// The word at an offset; `None` where the offset names no register of these tables.
    pub fn read(&self, offset: u32) -> Option<u32>
        ensures { result ≡ addresses_at self.now offset }
    {
        self.table.words().read(offset)
    }

    /// Writes the word at an offset, of which it keeps the register's bits. Where the offset names no register of these
    /// tables, nothing changes.
    pub fn write(&mut self, offset: u32, value: u32)
        ensures { self.new ≡ addresses_after self.old offset value }
    {
        self.table.write(offset, value);
    }
}

/// Receive addresses.
impl AddrTables {
    /// The address that entry `e` gives the pool, as a number below 2^48, its first byte lowest: `None` where the entry is
    /// not valid or does not have the pool's bit.
    #[inline]
    pub fn address_for(&self, pool: PoolId, e: usize) -> Option<u64>
        requires { e < 128 }
        ensures { result
            ≡ (if entry_has_pool self.now pool e then Some (entry_address self.now e) else None) }
    {
        self.table.words().address_for(pool, e)
    }

    /// The pools of an address, as [`AddrTables::pools_of`] gives them, and how many of the kept addresses were compared
    /// with it, at most 8. The addresses of the valid entries are kept, each once.
    #[inline]
    pub fn probe(&self, address: Mac) -> (u64, u8)
        ensures pools { (p : ℕ) → p < 64
            → has_bit result.0 p ≡ has_address self.now p (little_number 6 address.0) }
        ensures none { (result.0 == 0) ≡ not (is_held self.now (little_number 6 address.0)) }
        ensures few { result.1 ≤ 8 }
    {
        self.table.probe(address.number())
    }

    /// The pools that have an address, as a mask with bit p for pool p: the pools of every valid entry that holds it. The
    /// mask is 0 exactly where no pool has the address.
    #[inline]
    pub fn pools_of(&self, address: Mac) -> u64
        ensures pools { (p : ℕ) → p < 64
            → has_bit result p ≡ has_address self.now p (little_number 6 address.0) }
        ensures none { (result == 0) ≡ not (is_held self.now (little_number 6 address.0)) }
    {
        self.probe(address).0
    }

    /// Whether the pool has the address: some valid entry holds it and has the pool's bit.
    #[inline]
    pub fn has_pool(&self, address: Mac, pool: PoolId) -> bool
        ensures { result ≡ has_address self.now pool (little_number 6 address.0) }
    {
        has_bit(self.pools_of(address), u32::from(pool.get()))
    }

    /// Whether any of the 64 pools has the address. An entry without pool bits does not count.
    #[inline]
    pub fn is_held(&self, address: Mac) -> bool
        ensures { result ≡ is_held self.now (little_number 6 address.0) }
    {
        self.pools_of(address) != 0
    }
}

/// The multicast table.
impl AddrTables {
    /// Whether the multicast table is on and has the bit of the address's hash.
    pub fn multicast_hit(&self, address: Mac) -> bool
        ensures { result ≡ multicast_hit self.now (little_number 6 address.0) }
    {
        self.table.words().multicast_hit(address)
    }
}
