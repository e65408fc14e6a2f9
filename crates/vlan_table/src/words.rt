//! The words of the registers, and what they say.
ghost use Rattle.std.specs.Prelude.{◌≡◌, ◌/◌, ◌<◌, ◌&&◌, true, Some, None, IfSome, if◌then◌else◌};
ghost use Rattle.wire_frame.specs.Bits.{has_bit_in};
ghost use Rattle.wire_frame.specs.Row.{is_in, place};
ghost use Rattle.vlan_table.specs.Registers.{VLVF, VLVFB};
ghost use Rattle.vlan_table.specs.Vlans.{initial_vlans, vlans_at, vlans_after, is_filtering, entry_id, entry_has_pool, vlan_entries};

use crate::registers::{VALID, VFE, VFTA, VLNCTRL, VLNCTRL_KEPT, VLVF, VLVFB};
use pool_index::KeyedWords;
use std::marker::Model;
use wire_frame::{PoolId, Vid, has_bit, pool_words, read_one, read_word, write_one, write_word};

/// The words of 64 VLAN entries, each with its pools, of the VLAN table, and of VLAN control (82599 datasheet, Packet
/// Filtering).
#[derive(Drop)]
pub(crate) struct Words {
    control: u32,
    table: [u32; 128],
    entries: [u32; 64],
    pools: [u32; 128],
}

impl Model for Words {
    ghost use Rattle.vlan_table.specs.Vlans.{Vlans};

    ghost Value = { Vlans };

    ghost view = { λ w. record {
      control = w.control;
      table = w.table;
      entries = w.entries;
      pools = w.pools;
    } };
}

/// The words by their offsets.
impl Words {
    /// Every word 0.
    #[tactic(auto, unfolding(crate::specs::Vlans::initial_vlans))]
    pub(crate) fn new() -> Words
        ensures { result ≡ initial_vlans }
    {
        Words {
            control: 0,
            table: [0; 128],
            entries: [0; 64],
            pools: [0; 128],
        }
    }

    /// The word at an offset; `None` where the offset names no register of these tables.
    #[tactic(auto, unfolding(crate::specs::Vlans::vlans_at))]
    pub(crate) fn read(&self, offset: u32) -> Option<u32>
        ensures { result ≡ vlans_at self.now offset }
    {
        if let Some(word) = read_one(self.control, VLNCTRL, offset) {
            return Some(word);
        }
        if let Some(word) = read_word(&self.table, VFTA, offset) {
            return Some(word);
        }
        if let Some(word) = read_word(&self.entries, VLVF, offset) {
            return Some(word);
        }
        read_word(&self.pools, VLVFB, offset)
    }
}

/// VLAN control and the VLAN table.
impl Words {
    /// Whether VLANs are filtered.
    #[inline]
    #[tactic(auto, unfolding(crate::specs::Vlans::is_filtering))]
    pub(crate) fn filtering(&self) -> bool
        ensures { result ≡ is_filtering self.now }
    {
        has_bit(u64::from(self.control), VFE)
    }

    /// Whether the VLAN table has the id.
    #[inline]
    pub(crate) fn in_table(&self, id: u16) -> bool
        requires { id < 4096 }
        ensures { result ≡ has_bit_in self.now.table id }
    {
        let word = self.table[usize::from(id / 32)];
        has_bit(u64::from(word), u32::from(id % 32))
    }
}

/// The entries, by their ids.
impl KeyedWords<64> for Words {
    ghost entries = { vlan_entries };

    ghost after = { vlans_after };

    #[inline]
    fn is_valid(&self, e: usize) -> bool {
        has_bit(u64::from(self.entries[e]), VALID)
    }

    #[inline]
    fn key(&self, e: usize) -> u64 {
        u64::from(self.entries[e] % 4096)
    }

    #[inline]
    fn pools(&self, e: usize) -> u64 {
        pool_words(&self.pools, e)
    }

    #[tactic(auto, unfolding(crate::specs::Vlans::vlans_after))]
    fn write(&mut self, offset: u32, value: u32) {
        write_one(&mut self.control, VLNCTRL, VLNCTRL_KEPT, offset, value);
        write_word(&mut self.table, VFTA, offset, value);
        write_word(&mut self.entries, VLVF, offset, value);
        write_word(&mut self.pools, VLVFB, offset, value);
    }

    #[inline]
    fn entry_of(offset: u32) -> Option<usize> {
        entry_at(offset)
    }
}

// The entry of which the offset names a word, one of VLVF or VLVFB. An entry's word of VLVF stands in 4 bytes, and its two
// of VLVFB in 8.
#[inline]
fn entry_at(offset: u32) -> Option<usize>
    ensures entries { is_in VLVF offset ≡ true → result ≡ Some (place VLVF offset) }
    ensures pools { is_in VLVFB offset ≡ true → result ≡ Some (place VLVFB offset / 2) }
    ensures below { IfSome result (λ e. e < 64) }
{
    if offset < VLVF.first || offset >= VLVFB.first + 512 {
        return None;
    }
    if offset < VLVFB.first {
        Some(((offset - VLVF.first) / 4) as usize)
    } else {
        Some(((offset - VLVFB.first) / 8) as usize)
    }
}

/// What an entry gives a pool.
impl Words {
    /// The id that the entry gives the pool: `None` where the entry is not valid, does not have the pool's bit, or holds an
    /// id that the VLAN table does not have.
    #[inline]
    pub(crate) fn id_for(&self, pool: PoolId, e: usize) -> Option<Vid>
        requires { e < 64 }
        ensures { result
            ≡ (if entry_has_pool self.now pool e && has_bit_in self.now.table (entry_id self.now e)
            then Some (entry_id self.now e) else None) }
    {
        let id = Vid::of_tag((self.entries[e] % 4096) as u16);
        if self.is_valid(e)
            && has_bit(self.pools(e), u32::from(pool.get()))
            && self.in_table(id.get())
        {
            Some(id)
        } else {
            None
        }
    }
}
