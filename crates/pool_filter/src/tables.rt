//! The settings.
ghost use Rattle.std.specs.Prelude.{◌≡◌, ℕ, ◌<◌};
ghost use Rattle.byteorder.specs.Endian.{little_number};
ghost use Rattle.wire_frame.specs.Bits.{has_bit};
ghost use Rattle.addr_tables.specs.Addresses.{has_address, is_held, multicast_hit};
ghost use Rattle.vlan_table.specs.Vlans.{is_filtering, has_vlan};
ghost use Rattle.pool_filter.specs.Settings.{initial_settings, pools_at, settings_at, pool_control_after, settings_after};
ghost use Rattle.pool_filter.specs.Accepts.{flags_of, takes_untagged, takes_hashed, takes_broadcast, takes_multicast, default_pool, loops_back, may_receive};
ghost use Rattle.pool_filter.specs.Own.{own, contains, port_vlan_of};
ghost use Rattle.pool_filter.specs.Reach.{have_common};

use crate::flags::PoolFlags;
use crate::masks::FlagMasks;
use crate::own::{Own, port_vlan_of, put_addresses, put_vlan_ids};
use crate::reach::with_a_vlan_of;
use crate::registers::{
    DEFAULT_POOL, DEFAULT_POOL_OFF, DEFAULT_POOL_SIZE, LOOPBACK, PF_VT_CTL, PF_VT_CTL_INITIAL,
    PF_VT_CTL_KEPT, PF_VT_CTL_SET, PFDTXGSWC, PFDTXGSWC_KEPT, PFVFRE, PFVFSPOOF, PFVFTE, VMVIR,
};
use addr_tables::AddrTables;
use bitflags::Flags;
use std::marker::Model;
use vlan_table::VlanTable;
use wire_frame::{
    Mac, PoolId, PortVlan, Vid, field, has_bit, pool_words, read_one, read_word, write_one,
    write_word,
};

/// All settings of the physical function: the words of its registers, but for those that show which functions were reset.
#[derive(Drop)]
pub struct Tables {
    addresses: AddrTables,
    vlans: VlanTable,
    pool_control: u32,
    receive_enable: [u32; 2],
    transmit_enable: [u32; 2],
    port_vlans: [u32; 64],
    sender_checks: [u32; 8],
    loopback: u32,
    pool_flags: FlagMasks,
}

impl Model for Tables {
    ghost use Rattle.pool_filter.specs.Settings.{Settings};

    ghost Value = { Settings };

    ghost view = { λ t. record {
      addresses = t.addresses;
      vlans = t.vlans;
      pool_control = t.pool_control;
      receive_enable = t.receive_enable;
      transmit_enable = t.transmit_enable;
      port_vlans = t.port_vlans;
      sender_checks = t.sender_checks;
      loopback = t.loopback;
      pool_flags = t.pool_flags;
    } };
}

impl Default for Tables {
    ghost is_default = { λ t. t ≡ initial_settings };

    /// The settings with which a device is made.
    fn default() -> Tables {
        Tables::new()
    }
}

/// Registers.
impl Tables {
    /// The settings with which a device is made: the default pool is off, and every other word is 0.
    #[tactic(auto, unfolding(crate::specs::Settings::initial_settings))]
    pub fn new() -> Tables
        ensures { result ≡ initial_settings }
    {
        Tables {
            addresses: AddrTables::new(),
            vlans: VlanTable::new(),
            pool_control: PF_VT_CTL_INITIAL,
            receive_enable: [0; 2],
            transmit_enable: [0; 2],
            port_vlans: [0; 64],
            sender_checks: [0; 8],
            loopback: 0,
            pool_flags: FlagMasks::new(),
        }
    }

    /// Makes the settings those with which a device is made.
    pub fn clear(&mut self)
        ensures { self.new ≡ initial_settings }
    {
        *self = Tables::new();
    }

    // The word at an offset, if it is one of the pools' registers.
    #[inline]
    #[tactic(auto, unfolding(crate::specs::Settings::pools_at))]
    fn read_pools(&self, offset: u32) -> Option<u32>
        ensures { result ≡ pools_at self.now offset }
    {
        if let Some(word) = read_one(self.pool_control, PF_VT_CTL, offset) {
            return Some(word);
        }
        if let Some(word) = read_word(&self.receive_enable, PFVFRE, offset) {
            return Some(word);
        }
        if let Some(word) = read_word(&self.transmit_enable, PFVFTE, offset) {
            return Some(word);
        }
        if let Some(word) = read_word(&self.port_vlans, VMVIR, offset) {
            return Some(word);
        }
        if let Some(word) = read_word(&self.sender_checks, PFVFSPOOF, offset) {
            return Some(word);
        }
        if let Some(word) = read_one(self.loopback, PFDTXGSWC, offset) {
            return Some(word);
        }
        self.pool_flags.read(offset)
    }

    /// The register at an offset; 0 where none of these stands.
    #[tactic(auto, unfolding(crate::specs::Settings::settings_at))]
    pub fn read(&self, offset: u32) -> u32
        ensures { result ≡ settings_at self.now offset }
    {
        if let Some(word) = self.addresses.read(offset) {
            return word;
        }
        if let Some(word) = self.vlans.read(offset) {
            return word;
        }
        self.read_pools(offset).unwrap_or(0)
    }

    // Writes PF_VT_CTL, if the offset names it.
    #[inline]
    #[tactic(auto, unfolding(crate::specs::Settings::pool_control_after))]
    fn write_pool_control(&mut self, offset: u32, value: u32)
        ensures { self.new ≡ record self.old {
          pool_control = pool_control_after self.old.pool_control offset value;
        } }
    {
        if offset == PF_VT_CTL {
            self.pool_control = value & PF_VT_CTL_KEPT | PF_VT_CTL_SET;
        }
    }

    /// Writes the register at an offset, which keeps the bits that are its own. Where none of these stands, nothing
    /// changes.
    #[tactic(auto, unfolding(crate::specs::Settings::settings_after))]
    pub fn write(&mut self, offset: u32, value: u32)
        ensures { self.new ≡ settings_after self.old offset value }
    {
        self.addresses.write(offset, value);
        self.vlans.write(offset, value);
        self.write_pool_control(offset, value);
        write_word(&mut self.receive_enable, PFVFRE, offset, value);
        write_word(&mut self.transmit_enable, PFVFTE, offset, value);
        write_word(&mut self.port_vlans, VMVIR, offset, value);
        write_word(&mut self.sender_checks, PFVFSPOOF, offset, value);
        write_one(&mut self.loopback, PFDTXGSWC, PFDTXGSWC_KEPT, offset, value);
        self.pool_flags.write(offset, value);
    }
}

/// Filters.
impl Tables {
    /// The pools that have an address, as a mask with bit p for pool p.
    #[inline]
    pub fn pools_of(&self, address: Mac) -> u64
        ensures { (p : ℕ) → p < 64
            → has_bit result p ≡ has_address self.now.addresses p (little_number 6 address.0) }
    {
        self.addresses.pools_of(address)
    }

    /// Whether any of the 64 pools has the address. An entry without pool bits does not count.
    #[inline]
    pub fn is_held(&self, address: Mac) -> bool
        ensures { result ≡ is_held self.now.addresses (little_number 6 address.0) }
    {
        self.addresses.is_held(address)
    }

    /// Whether the multicast table is on and has the bit of the address's hash.
    #[inline]
    pub fn multicast_hit(&self, address: Mac) -> bool
        ensures { result ≡ multicast_hit self.now.addresses (little_number 6 address.0) }
    {
        self.addresses.multicast_hit(address)
    }

    /// Whether VLANs are filtered. Where they are not, a frame's VLAN keeps it from no pool.
    #[inline]
    pub fn filtering(&self) -> bool
        ensures { result ≡ is_filtering self.now.vlans }
    {
        self.vlans.filtering()
    }

    /// The pools that have a VLAN id, as a mask with bit p for pool p.
    #[inline]
    pub fn pools_of_vlan(&self, id: Vid) -> u64
        ensures { (p : ℕ) → p < 64 → has_bit result p ≡ has_vlan self.now.vlans p id }
    {
        self.vlans.pools_of(id)
    }

    /// The pools that take untagged frames where VLANs are filtered.
    #[inline]
    pub fn untagged_pools(&self) -> u64
        ensures { (p : ℕ) → p < 64 → has_bit result p ≡ takes_untagged self.now p }
    {
        self.pool_flags.untagged()
    }

    /// The pools that take the multicast frames whose destination the multicast table has.
    #[inline]
    pub fn hashed_pools(&self) -> u64
        ensures { (p : ℕ) → p < 64 → has_bit result p ≡ takes_hashed self.now p }
    {
        self.pool_flags.hashed()
    }

    /// The pools that take broadcast frames.
    #[inline]
    pub fn broadcast_pools(&self) -> u64
        ensures { (p : ℕ) → p < 64 → has_bit result p ≡ takes_broadcast self.now p }
    {
        self.pool_flags.broadcast()
    }

    /// The pools that take all multicast frames.
    #[inline]
    pub fn multicast_pools(&self) -> u64
        ensures { (p : ℕ) → p < 64 → has_bit result p ≡ takes_multicast self.now p }
    {
        self.pool_flags.multicast()
    }
}

/// Switches.
impl Tables {
    /// The pool that takes frames from the wire which no pool accepts; `None` where the default pool is off (82599
    /// datasheet, PF_VT_CTL).
    pub fn default_pool(&self) -> Option<PoolId>
        ensures { result ≡ default_pool self.now }
    {
        if has_bit(u64::from(self.pool_control), DEFAULT_POOL_OFF) {
            return None;
        }
        let pool = field(
            u64::from(self.pool_control),
            DEFAULT_POOL,
            DEFAULT_POOL_SIZE,
        );
        PoolId::new(pool as u8)
    }

    /// Whether frames go from pool to pool (82599 datasheet, PFDTXGSWC).
    #[inline]
    pub fn loops_back(&self) -> bool
        ensures { result ≡ loops_back self.now }
    {
        has_bit(u64::from(self.loopback), LOOPBACK)
    }

    /// The pools that may receive, as a mask with bit p for pool p.
    #[inline]
    #[tactic(auto, using(crate::proofs::WordLemmas::both_words))]
    pub fn receiving_pools(&self) -> u64
        ensures { (p : ℕ) → p < 64 → has_bit result p ≡ may_receive self.now p }
    {
        pool_words(&self.receive_enable, 0)
    }

    /// Whether the pool may receive (82599 datasheet, PFVFRE).
    #[inline]
    pub fn may_receive(&self, pool: PoolId) -> bool
        ensures { result ≡ may_receive self.now pool }
    {
        let pool = pool.get();
        let word = self.receive_enable[usize::from(pool / 32)];
        has_bit(u64::from(word), u32::from(pool % 32))
    }
}

/// What is a pool's own.
impl Tables {
    /// Whether the pool may transmit (82599 datasheet, PFVFTE).
    #[inline]
    #[tactic(auto, unfolding(crate::specs::Own::own))]
    pub fn may_transmit(&self, pool: PoolId) -> bool
        ensures { result ≡ (own self.now pool).may_transmit }
    {
        let pool = pool.get();
        let word = self.transmit_enable[usize::from(pool / 32)];
        has_bit(u64::from(word), u32::from(pool % 32))
    }

    // The pool's word of VMVIR.
    #[inline]
    #[tactic(auto, unfolding(crate::specs::Own::own))]
    fn port_word(&self, pool: PoolId) -> u32
        ensures { result ≡ (own self.now pool).port_vlan }
    {
        self.port_vlans[usize::from(pool.get())]
    }

    /// Which VLAN tag is inserted into the frames that the pool sends (82599 datasheet, VMVIR).
    #[inline]
    pub fn port_vlan(&self, pool: PoolId) -> PortVlan
        ensures { result ≡ port_vlan_of (own self.now pool).port_vlan }
    {
        port_vlan_of(self.port_word(pool))
    }

    /// Whether the sources of the pool's frames are checked (82599 datasheet, PFVFSPOOF).
    #[inline]
    #[tactic(auto, unfolding(crate::specs::Own::own))]
    pub fn checks_address(&self, pool: PoolId) -> bool
        ensures { result ≡ (own self.now pool).checks_address }
    {
        let pool = pool.get();
        let word = self.sender_checks[usize::from(pool / 8)];
        has_bit(u64::from(word), u32::from(pool % 8))
    }

    /// Whether the VLANs of the pool's frames are checked (82599 datasheet, PFVFSPOOF).
    #[inline]
    #[tactic(auto, unfolding(crate::specs::Own::own))]
    pub fn checks_vlan(&self, pool: PoolId) -> bool
        ensures { result ≡ (own self.now pool).checks_vlan }
    {
        let pool = pool.get();
        let word = self.sender_checks[usize::from(pool / 8)];
        has_bit(u64::from(word), 8 + u32::from(pool % 8))
    }

    /// What the pool accepts beside its own addresses and VLAN ids (82599 datasheet, VMOLR).
    #[inline]
    pub fn flags(&self, pool: PoolId) -> PoolFlags
        ensures { result.0 ≡ flags_of self.now pool }
    {
        PoolFlags(self.pool_flags.word(pool))
    }

    /// Whether the pool takes untagged frames.
    #[inline]
    #[tactic(auto, using(crate::proofs::FlagLemmas::flag_24), unfolding(crate::specs::Own::own))]
    pub fn takes_untagged(&self, pool: PoolId) -> bool
        ensures { result ≡ (own self.now pool).takes_untagged }
    {
        self.flags(pool).contains(PoolFlags::AUPE)
    }

    /// Whether the pool has the address: some valid entry holds it and has the pool's bit.
    #[inline]
    #[tactic(auto, using(crate::proofs::OwnLemmas::contains_own_addresses))]
    pub fn has_address(&self, pool: PoolId, address: Mac) -> bool
        ensures { result ≡ contains (own self.now pool).addresses (little_number 6 address.0) }
    {
        self.addresses.has_pool(address, pool)
    }

    /// Whether the pool has the VLAN id: the VLAN table has it, and some valid entry holds it and has the pool's bit.
    #[inline]
    #[tactic(auto, using(crate::proofs::OwnLemmas::contains_own_vlan_ids))]
    pub fn has_vlan(&self, pool: PoolId, id: Vid) -> bool
        ensures { result ≡ contains (own self.now pool).vlan_ids id }
    {
        self.vlans.member(id, pool)
    }

    // The pools that have a VLAN id of the pool's.
    pub(crate) fn with_a_vlan_of(&self, pool: PoolId) -> u64
        ensures { (p : ℕ) → p < 64
            → has_bit result p ≡ have_common (own self.now pool).vlan_ids (own self.now p).vlan_ids }
    {
        with_a_vlan_of(&self.vlans, pool)
    }

    /// What of the settings is the pool's own, left in `found`, whatever that held. It looks at every entry of the tables.
    #[tactic(auto, unfolding(crate::specs::Own::own))]
    pub fn own(&self, pool: PoolId, found: &mut Own)
        ensures { found.new ≡ own self.now pool }
    {
        put_addresses(&self.addresses, pool, &mut found.addresses);
        put_vlan_ids(&self.vlans, pool, &mut found.vlan_ids);
        found.takes_untagged = self.takes_untagged(pool);
        found.may_receive = self.may_receive(pool);
        found.may_transmit = self.may_transmit(pool);
        found.checks_address = self.checks_address(pool);
        found.checks_vlan = self.checks_vlan(pool);
        found.port_vlan = self.port_word(pool);
    }
}
