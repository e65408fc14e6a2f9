//! The check on senders.
ghost use Rattle.std.specs.Prelude.{◌≡◌};
ghost use Rattle.pool_filter.specs.Own.{own};
ghost use Rattle.anti_spoof.specs.Permitted.{owns_source, is_in_own_vlan, permitted};

use pool_filter::{PoolRules, SenderRules, Tables};
use wire_frame::{FrameBuf, PoolId, Vid};

// Whether the frame's source is an address of the pool.
#[inline]
#[tactic(auto, unfolding(crate::specs::Permitted::owns_source))]
fn owns_source<R: SenderRules>(rules: &R, frame: &FrameBuf) -> bool
    ensures { result ≡ owns_source (R.rules rules.now) frame.now }
{
    rules.has_address(frame.src())
}

// Whether the frame is in a VLAN of the pool.
#[inline]
#[tactic(auto, unfolding(crate::specs::Permitted::is_in_own_vlan))]
fn is_in_own_vlan<R: SenderRules>(rules: &R, frame: &FrameBuf) -> bool
    ensures { result ≡ is_in_own_vlan (R.rules rules.now) frame.now }
{
    match frame.tag() {
        Some(tag) => rules.has_vlan(Vid::of_tag(tag)),
        None => rules.takes_untagged(),
    }
}

/// Whether a pool's own settings permit it to send the frame. Where its address check is on, the source must be an address
/// of the pool. Where its VLAN check is on, the id of a tagged frame must be an id of the pool, and for an untagged frame
/// the pool must take untagged frames. Each check works by itself.
#[inline(always)]
#[tactic(auto, unfolding(crate::specs::Permitted::permitted))]
pub fn passes_anti_spoof<R: SenderRules>(rules: &R, frame: &FrameBuf) -> bool
    ensures { result ≡ permitted (R.rules rules.now) frame.now }
{
    (!rules.checks_address() || owns_source(rules, frame))
        && (!rules.checks_vlan() || is_in_own_vlan(rules, frame))
}

/// The same check by the own settings of a pool as they stand in the tables.
pub fn honest(tables: &Tables, pool: PoolId, frame: &FrameBuf) -> bool
    ensures { result ≡ permitted (own tables.now pool) frame.now }
{
    passes_anti_spoof(&PoolRules { tables, pool }, frame)
}
