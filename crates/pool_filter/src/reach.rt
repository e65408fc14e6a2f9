//! From which pools the settings keep a pool's frames, whatever frames it sends, and whether they keep a group of pools apart.
ghost use Rattle.std.specs.Prelude.{◌≡◌, ℕ, ◌<◌, ◌↔◌, IsTrue, false};
ghost use Rattle.wire_frame.specs.Bits.{has_bit};
ghost use Rattle.pool_filter.specs.Own.{own, vlan_ids_of, rising, port_vlan_of};
ghost use Rattle.pool_filter.specs.Reach.{have_common, tag_arrives, share_a_vlan, vlans_meet, may_reach, KeepsApart};

use crate::tables::Tables;
use vlan_table::VlanTable;
use wire_frame::{PoolId, PoolSet, PortVlan, Vid};

/// What keeps pools from each other.
impl Tables {
    /// Whether the settings keep a group of pools apart: no pool outside it is in [`Tables::reach`] of one of the group. So it
    /// is of each group while loopback is off, of the empty one, and of that of all 64. Pools of a group may reach each other,
    /// and those outside may reach the group.
    pub fn keeps_apart(&self, group: PoolSet) -> bool
        ensures { IsTrue result ↔ KeepsApart self.now (has_bit group) }
    {
        for sender in group {
            if !self.stays_within(sender, group) {
                return false;
            }
        }
        true
    }

    // Whether no frame of the sender may be for a pool outside the group.
    fn stays_within(&self, sender: PoolId, group: PoolSet) -> bool
        ensures { IsTrue result
            ↔ ((p : ℕ) → p < 64 → has_bit group p ≡ false → may_reach self.now sender p ≡ false) }
    {
        let outside = self.reach(sender).bits() & !group.bits();
        outside == 0
    }

    /// The pools that nothing keeps from the frames of the sender, whatever frames it sends: no frame of it is for any other.
    /// None where loopback is off or the sender may not transmit (82599 datasheet, PFDTXGSWC and PFVFTE). All where VLANs are
    /// not filtered (VLNCTRL), since a sender may name any destination. Else those that have the VLAN of its port tag (VMVIR),
    /// if it has one, and, if its VLANs are checked (PFVFSPOOF), share a VLAN with it or take untagged frames as it does. The
    /// sender may be among them, though no pool gets its own frames. It looks at each of the 64 VLAN entries.
    #[tactic(auto, using(wire_frame::proofs::BitLemmas::has_bit_zero, wire_frame::proofs::BitLemmas::has_bit_ones), unfolding(crate::specs::Reach::may_reach))]
    pub fn reach(&self, sender: PoolId) -> PoolSet
        ensures { (p : ℕ) → p < 64 → has_bit result p ≡ may_reach self.now sender p }
    {
        if !self.loops_back() || !self.may_transmit(sender) {
            return PoolSet::none();
        }
        PoolSet::from_bits(if self.filtering() {
            self.meeting(sender)
        } else {
            u64::MAX
        })
    }

    // The pools that no VLAN keeps from the sender, where VLANs are filtered.
    #[tactic(auto, using(wire_frame::proofs::BitLemmas::has_bit_and, wire_frame::proofs::BitLemmas::has_bit_ones), unfolding(crate::specs::Reach::vlans_meet))]
    fn meeting(&self, sender: PoolId) -> u64
        ensures { (p : ℕ) → p < 64
            → has_bit result p ≡ vlans_meet (own self.now sender) (own self.now p) }
    {
        let sharing = if self.checks_vlan(sender) {
            self.sharing(sender)
        } else {
            u64::MAX
        };
        self.met_by_tag(sender) & sharing
    }

    // The pools that have the VLAN of the sender's port tag, or all where it has no such tag.
    #[tactic(auto, using(wire_frame::proofs::BitLemmas::has_bit_ones, crate::proofs::OwnLemmas::contains_own_vlan_ids))]
    fn met_by_tag(&self, sender: PoolId) -> u64
        ensures { (p : ℕ) → p < 64
            → has_bit result p
            ≡ tag_arrives (port_vlan_of (own self.now sender).port_vlan) (own self.now p) }
    {
        match self.port_vlan(sender) {
            PortVlan::Always(tag) => self.pools_of_vlan(Vid::of_tag(tag)),
            PortVlan::Descriptor | PortVlan::Never => u64::MAX,
        }
    }

    // The pools that share a VLAN with the pool, or take untagged frames as it does.
    #[tactic(auto, using(wire_frame::proofs::BitLemmas::has_bit_or, wire_frame::proofs::BitLemmas::has_bit_zero, crate::proofs::ReachLemmas::untagged_of), unfolding(crate::specs::Reach::share_a_vlan))]
    fn sharing(&self, pool: PoolId) -> u64
        ensures { (p : ℕ) → p < 64
            → has_bit result p ≡ share_a_vlan (own self.now pool) (own self.now p) }
    {
        let untagged = if self.takes_untagged(pool) {
            self.untagged_pools()
        } else {
            0
        };
        self.with_a_vlan_of(pool) | untagged
    }
}

// The pools that have a VLAN id of the pool's.
pub(crate) fn with_a_vlan_of(tables: &VlanTable, pool: PoolId) -> u64
    ensures { (p : ℕ) → p < 64
        → has_bit result p
        ≡ have_common (rising (vlan_ids_of tables.now pool)) (rising (vlan_ids_of tables.now p)) }
{
    let mut pools = 0;
    for e in 0..64 {
        if let Some(id) = tables.id_for(pool, e) {
            pools |= tables.pools_of(id);
        }
    }
    pools
}
