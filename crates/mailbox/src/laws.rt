//! Laws of the definitions that this crate's contracts cite. Each function does nothing: its contract is the law.
ghost use Rattle.std.specs.Prelude.{◌≡◌, ◌≢◌, ℕ, ◌<◌, true, false, length};
ghost use Rattle.pool_filter.specs.Settings.{Settings, initial_settings, settings_after};
ghost use Rattle.pool_filter.specs.Own.{own, contains};
ghost use Rattle.mailbox.specs.Slot.{policy_of, holds};
ghost use Rattle.mailbox.specs.State.{HostState, slot_at};
ghost use Rattle.mailbox.specs.Start.{first_writes, IsWhole};
ghost use Rattle.mailbox.specs.Within.{grants, IsWithin, IsNamedFor};
ghost use Rattle.mailbox.specs.Words.{settings_of};
ghost use Rattle.mailbox.specs.Writes.{after_writes};

/// The first writes, done in their order, make the settings of the host, whatever the registers held.
pub fn first_writes_make_the_settings()
    ensures settings { (h : HostState) (s : Settings) → IsWhole s →
        after_writes s (first_writes h) ≡ settings_of h }
    ensures count { (h : HostState) → length (first_writes h) ≡ 1104 }
    // the tables of a device are whole from the first on
    ensures whole_at_first { IsWhole initial_settings }
    ensures whole_after { (s : Settings) (offset value : ℕ) → IsWhole s →
        IsWhole (settings_after s offset value) }
{}

/// In the settings that a host stands for a pool has the addresses that its function holds, which no other pool has, the VLAN
/// ids that its policy names, and both its source checks on: what it may send has one of these as its source. Each address that
/// a function holds was granted by its policy.
pub fn settings_are_within_policies()
    ensures addresses { (h : HostState) (p a : ℕ) → p < 64 → IsWithin h
        → contains (own (settings_of h) p).addresses a ≡ true
        → holds (slot_at h p) a ≡ true }
    ensures granted { (h : HostState) (p a : ℕ) → p < 64 → IsWithin h
        → holds (slot_at h p) a ≡ true → grants (policy_of (slot_at h p)) a ≡ true }
    ensures one_pool { (h : HostState) (p q a : ℕ) → p < 64 → q < 64 → q ≢ p → IsWithin h
        → contains (own (settings_of h) p).addresses a ≡ true
        → contains (own (settings_of h) q).addresses a ≡ false }
    ensures vlan_ids { (h : HostState) (p id : ℕ) → p < 64 → IsWithin h
        → contains (own (settings_of h) p).vlan_ids id ≡ true → IsNamedFor h p id }
    ensures checks { (h : HostState) (p : ℕ) → p < 64
        → ((own (settings_of h) p).checks_address ≡ true)
        × ((own (settings_of h) p).checks_vlan ≡ true) }
{}
