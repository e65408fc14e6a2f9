//! Which pools accept a frame (82599 datasheet, Packet Filtering and Packet Switching).
ghost use Rattle.std.specs.Prelude.{◌≡◌, ℕ, ◌<◌};
ghost use Rattle.wire_frame.specs.Bits.{has_bit};
ghost use Rattle.pool_filter.specs.Accepts.{takes_group, is_in_vlan, accepts};

use crate::tables::Tables;
use wire_frame::{AddressKind, Frame, FrameBuf, Mac, Vid};

// The pools that take frames to an address by its kind.
#[tactic(auto, using(wire_frame::proofs::BitLemmas::has_bit_zero, wire_frame::proofs::BitLemmas::has_bit_or), unfolding(crate::specs::Accepts::takes_group))]
fn group_mask(tables: &Tables, address: Mac) -> u64
    ensures { (p : ℕ) → p < 64 → has_bit result p ≡ takes_group tables.now p address.0 }
{
    match address.kind() {
        AddressKind::Broadcast => tables.broadcast_pools(),
        AddressKind::Multicast => {
            if tables.multicast_hit(address) {
                tables.multicast_pools() | tables.hashed_pools()
            } else {
                tables.multicast_pools()
            }
        }
        AddressKind::Unicast => 0,
    }
}

// The pools in whose VLANs a frame is.
#[tactic(auto, using(wire_frame::proofs::BitLemmas::has_bit_ones), unfolding(crate::specs::Accepts::is_in_vlan))]
fn vlan_mask(tables: &Tables, frame: Frame<'_>) -> u64
    ensures { (p : ℕ) → p < 64 → has_bit result p ≡ is_in_vlan tables.now p frame.entry.bytes.now }
{
    if !tables.filtering() {
        return u64::MAX;
    }
    match frame.tag() {
        Some(tag) => tables.pools_of_vlan(Vid::of_tag(tag)),
        None => tables.untagged_pools(),
    }
}

/// The pools that accept a frame, as a mask with bit p for pool p. Neither the default pool nor what pools may receive is
/// looked at.
#[inline(always)]
#[tactic(auto, using(wire_frame::proofs::BitLemmas::has_bit_or, wire_frame::proofs::BitLemmas::has_bit_and), unfolding(crate::specs::Accepts::accepts))]
pub fn accepting_pools(tables: &Tables, frame: Frame<'_>) -> u64
    ensures { (p : ℕ) → p < 64 → has_bit result p ≡ accepts tables.now p frame.entry.bytes.now }
{
    let address = frame.dst();
    (tables.pools_of(address) | group_mask(tables, address)) & vlan_mask(tables, frame)
}

/// The same of a frame that holds its bytes itself.
pub fn accept_mask(tables: &Tables, frame: &FrameBuf) -> u64
    ensures { (p : ℕ) → p < 64 → has_bit result p ≡ accepts tables.now p frame.now }
{
    accepting_pools(tables, frame.as_frame())
}
