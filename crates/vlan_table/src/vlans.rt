//! The tables.
ghost use Rattle.std.specs.Prelude.{◌≡◌, ℕ, ◌<◌, ◌≤◌, ◌&&◌, Some, None, if◌then◌else◌};
ghost use Rattle.wire_frame.specs.Bits.{has_bit, has_bit_in};
ghost use Rattle.vlan_table.specs.Vlans.{initial_vlans, vlans_at, vlans_after, is_filtering, entry_id, entry_has_pool, has_vlan};

use crate::words::Words;
use pool_index::KeyedTable;
use std::marker::Model;
use wire_frame::{PoolId, Vid, has_bit};

/// 64 VLAN entries, each with its pools, the VLAN table, and whether VLANs are filtered (82599 datasheet, Packet
/// Filtering; IEEE 802.1Q).
#[derive(Drop)]
pub struct VlanTable {
    table: KeyedTable<Words, 64>,
}

impl Model for VlanTable {
    ghost use Rattle.vlan_table.specs.Vlans.{Vlans};

    ghost Value = { Vlans };

    ghost view = { λ t. t.table };
}

impl Default for VlanTable {
    ghost is_default = { λ t. t ≡ initial_vlans };

    /// Tables in which every word is 0.
    fn default() -> VlanTable {
        VlanTable::new()
    }
}

/// The words by their offsets.
impl VlanTable {
    /// Tables in which every word is 0: no entry is valid, no id is in the VLAN table, and VLANs are not filtered.
    pub fn new() -> VlanTable
        ensures { result ≡ initial_vlans }
    {
        VlanTable {
            table: KeyedTable::new(Words::new()),
        }
    }

    /// The word at an offset; `None` where the offset names no register of these tables.
    pub fn read(&self, offset: u32) -> Option<u32>
        ensures { result ≡ vlans_at self.now offset }
    {
        self.table.words().read(offset)
    }

    /// Writes the word at an offset, of which it keeps the register's bits. Where the offset names no register of these
    /// tables, nothing changes.
    pub fn write(&mut self, offset: u32, value: u32)
        ensures { self.new ≡ vlans_after self.old offset value }
    {
        self.table.write(offset, value);
    }
}

/// VLANs.
impl VlanTable {
    /// Whether VLANs are filtered. Where they are not, a frame's VLAN keeps it from no pool.
    #[inline]
    pub fn filtering(&self) -> bool
        ensures { result ≡ is_filtering self.now }
    {
        self.table.words().filtering()
    }

    /// The VLAN id that entry `e` gives the pool: `None` where the entry is not valid, does not have the pool's bit, or holds
    /// an id that the VLAN table does not have.
    #[inline]
    pub fn id_for(&self, pool: PoolId, e: usize) -> Option<Vid>
        requires { e < 64 }
        ensures { result
            ≡ (if entry_has_pool self.now pool e && has_bit_in self.now.table (entry_id self.now e)
            then Some (entry_id self.now e) else None) }
    {
        self.table.words().id_for(pool, e)
    }

    /// The pools of an id, as [`VlanTable::pools_of`] gives them, and how many of the kept ids were compared with it, at
    /// most 7. The ids of the valid entries are kept, each once, also those that the VLAN table does not have.
    #[inline]
    pub fn probe(&self, id: Vid) -> (u64, u8)
        ensures pools { (p : ℕ) → p < 64 → has_bit result.0 p ≡ has_vlan self.now p id }
        ensures few { result.1 ≤ 7 }
    {
        if self.table.words().in_table(id.get()) {
            self.table.probe(u64::from(id.get()))
        } else {
            (0, 0)
        }
    }

    /// The pools that have an id, as a mask with bit p for pool p: the pools of every valid entry that holds it, where the
    /// VLAN table has the id; else none. Id 0 is as any id.
    #[inline]
    pub fn pools_of(&self, id: Vid) -> u64
        ensures { (p : ℕ) → p < 64 → has_bit result p ≡ has_vlan self.now p id }
    {
        self.probe(id).0
    }

    /// Whether the pool has the id: the VLAN table has it, and some valid entry holds it and has the pool's bit.
    #[inline]
    pub fn member(&self, id: Vid, pool: PoolId) -> bool
        ensures { result ≡ has_vlan self.now pool id }
    {
        has_bit(self.pools_of(id), u32::from(pool.get()))
    }
}
