//! Laws of the definitions that this crate's contracts cite. Each function does nothing: its contract is the law.
ghost use Rattle.std.specs.Prelude.{◌≡◌, ◌≢◌, ℕ, ◌<◌, ◌≤◌, ◌↔◌, length};
ghost use Rattle.std.specs.List.Sorted.{IsStrictlyIncreasing};
ghost use Rattle.addr_tables.specs.Addresses.{has_address};
ghost use Rattle.vlan_table.specs.Vlans.{has_vlan};
ghost use Rattle.pool_filter.specs.Settings.{Settings, initial_settings, settings_at, settings_after};
ghost use Rattle.pool_filter.specs.Own.{own, contains, no_settings, SaysSame};
ghost use Rattle.pool_filter.specs.Map.{rows_at};

/// A pool's own addresses and VLAN ids are lists that strictly rise, of exactly those that the pool has: an address where
/// some valid entry holds it and has the pool's bit; an id where moreover the VLAN table has it.
pub fn own_sets()
    ensures addresses { (s : Settings) (pool address : ℕ)
        → contains (own s pool).addresses address ≡ has_address s.addresses pool address }
    ensures vlan_ids { (s : Settings) (pool id : ℕ)
        → contains (own s pool).vlan_ids id ≡ has_vlan s.vlans pool id }
    ensures addresses_rise { (s : Settings) (pool : ℕ)
        → IsStrictlyIncreasing (own s pool).addresses }
    ensures vlan_ids_rise { (s : Settings) (pool : ℕ) → IsStrictlyIncreasing (own s pool).vlan_ids }
{}

/// Two pools' own settings are equal exactly where their sets, their flags and their port VLANs are.
pub fn equal_own_settings()
    ensures { (s t : Settings) (p q : ℕ) → (own s p ≡ own t q) ↔ SaysSame (own s p) (own t q) }
{}

/// In a device as it is made, no pool has anything of its own.
pub fn own_settings_at_first()
    ensures { (pool : ℕ) → pool < 64 → own initial_settings pool ≡ no_settings }
{}

/// A write to one offset leaves what every other offset reads.
pub fn other_words_stay()
    ensures { (s : Settings) (offset value other : ℕ) → other ≢ offset
        → settings_at (settings_after s offset value) other ≡ settings_at s other }
{}

/// No offset lies in two rows of the register map, those of the reset registers among them.
pub fn rows_share_no_offset()
    ensures { (offset : ℕ) → length (rows_at offset) ≤ 1 }
{}
