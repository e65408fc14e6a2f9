//! A virtual function alone: what a device keeps for it, and the function by itself that is given no more than that.
//!
//! A [`PoolView`] steps a device and gives at once what each event leaves for one pool: an event of the pool's own, own
//! settings that a write changed, that the device was reset, or a frame that the pool's filters accept or that falls to it.
//! A [`Lone`] function is one unit with own settings: no other pool, no table, no switch. It takes these items and tells
//! what is seen of it. That a run shows the pool the same is what `device` promises of its runs; here it is promised that
//! both are what that promise speaks of. It stands on `device`, and no call takes memory but the making of a function.
#![tactic(auto)]

pub mod follow;
pub mod item;
pub mod laws;
pub mod lone;
pub mod pool_view;

pub use item::{Given, Handover, Seen};
pub use lone::Lone;
pub use pool_view::PoolView;
