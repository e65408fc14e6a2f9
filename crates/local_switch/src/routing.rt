//! Routing one frame.
ghost use Rattle.std.specs.Prelude.{◌≡◌, ℕ, ◌<◌, ◌&&◌, not, ◌==◌};
ghost use Rattle.wire_frame.specs.Bits.{has_bit};
ghost use Rattle.pool_filter.specs.Accepts.{accepts};
ghost use Rattle.local_switch.specs.declared.ways.Source.TheVariants.{Pool};
ghost use Rattle.local_switch.specs.Switch.{receives, leaves, takes_from_wire, takes_from_pool, is_for_pool, is_for_the_wire};

use crate::ways::{Route, Source};
use pool_filter::{Tables, accepting_pools};
use wire_frame::{AddressKind, Frame, FrameBuf, PoolId, PoolSet, has_bit};

/// Where a frame goes. That its sender may send it is not asked here.
#[inline(always)]
#[tactic(auto, using(wire_frame::proofs::BitLemmas::has_bit_and), unfolding(crate::specs::Switch::receives))]
pub fn route_frame(tables: &Tables, from: Source, frame: Frame<'_>) -> Route
    ensures local { (p : ℕ) → p < 64
        → has_bit result.local p ≡ receives tables.now from frame.entry.bytes.now p }
    ensures wire { result.wire ≡ leaves tables.now from frame.entry.bytes.now }
{
    let receiving = tables.receiving_pools();
    let (pools, wire) = match from {
        Source::Wire => (from_wire(tables, frame), false),
        Source::Pool(sender) => from_pool(tables, sender, frame),
    };
    Route {
        local: PoolSet::from_bits(pools & receiving),
        wire,
    }
}

/// The same of a frame that holds its bytes itself.
pub fn route(tables: &Tables, from: Source, frame: &FrameBuf) -> Route
    ensures local { (p : ℕ) → p < 64
        → has_bit result.local p ≡ receives tables.now from frame.now p }
    ensures wire { result.wire ≡ leaves tables.now from frame.now }
{
    route_frame(tables, from, frame.as_frame())
}

/// Whether a frame is for a pool, be the pool allowed to receive or not: a frame from the wire that it accepts, or that falls
/// to it as default pool; a frame of another pool that it accepts, under loopback.
pub fn is_for_pool(tables: &Tables, from: Source, frame: Frame<'_>, pool: PoolId) -> bool
    ensures { result ≡ is_for_pool tables.now from frame.entry.bytes.now pool }
{
    let pools = match from {
        Source::Wire => from_wire(tables, frame),
        Source::Pool(sender) => from_pool(tables, sender, frame).0,
    };
    has_bit(pools, u32::from(pool.get()))
}

// The pools that a frame from the wire is for: those that accept it, or else the default pool.
#[inline(always)]
#[tactic(auto, using(wire_frame::proofs::BitLemmas::has_bit_zero), unfolding(crate::specs::Switch::takes_from_wire))]
fn from_wire(tables: &Tables, frame: Frame<'_>) -> u64
    ensures { (p : ℕ) → p < 64 → has_bit result p ≡ takes_from_wire tables.now frame.entry.bytes.now p }
{
    let accepting = accepting_pools(tables, frame);
    if accepting != 0 {
        return accepting;
    }
    match tables.default_pool() {
        Some(pool) => bit_of(pool),
        None => 0,
    }
}

// The pools that a frame of a pool is for, and whether it leaves for the wire: under loopback all others that accept it, and the wire where it
// may be for someone there; else the wire alone.
#[inline(always)]
#[tactic(auto, using(wire_frame::proofs::BitLemmas::has_bit_zero), unfolding(crate::specs::Switch::takes_from_pool))]
fn from_pool(tables: &Tables, sender: PoolId, frame: Frame<'_>) -> (u64, bool)
    ensures pools { (p : ℕ) → p < 64 → has_bit result.0 p ≡ takes_from_pool tables.now sender frame.entry.bytes.now p }
    ensures wire { result.1 ≡ leaves tables.now (Pool sender) frame.entry.bytes.now }
{
    if !tables.loops_back() {
        return (0, true);
    }
    let accepted = accepting_pools(tables, frame);
    (
        without(accepted, sender),
        is_for_the_wire(tables, frame, accepted),
    )
}

// Whether a frame may be for someone on the wire, where `accepted` has the pools here that accept it. A pool that accepts a frame to one
// address has that address, so where there is such a pool the address isn't searched for.
fn is_for_the_wire(tables: &Tables, frame: Frame<'_>, accepted: u64) -> bool
    requires { (p : ℕ) → p < 64 → has_bit accepted p ≡ accepts tables.now p frame.bytes.now }
    ensures { result ≡ is_for_the_wire tables.now frame.entry.bytes.now }
{
    let destination = frame.dst();
    match destination.kind() {
        AddressKind::Broadcast | AddressKind::Multicast => true,
        AddressKind::Unicast => accepted == 0 && !tables.is_held(destination),
    }
}

// The set of one pool.
#[tactic(auto, using(crate::proofs::PoolBits::has_bit_one))]
fn bit_of(pool: PoolId) -> u64
    ensures { (p : ℕ) → p < 64 → has_bit result p ≡ (pool == p) }
{
    1 << pool.get()
}

// The pools but one.
#[tactic(auto, using(crate::proofs::PoolBits::has_bit_without))]
fn without(pools: u64, pool: PoolId) -> u64
    ensures { (p : ℕ) → p < 64 → has_bit result p ≡ (has_bit pools p && not (pool == p)) }
{
    pools & !(1 << pool.get())
}
