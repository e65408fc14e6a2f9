//! Who receives a frame, and whether it leaves for the wire.
//!
//! [`route_frame`] asks the settings of the physical function alone (82599 datasheet, packet switching): a frame from the wire is
//! for the pools that accept it, or else for the default pool; a frame of a pool goes to the wire, and under loopback to the
//! other pools that accept it. [`is_for_pool`] says of one pool whether a frame is for it, before the switch for receiving is
//! asked. It stands on `pool_filter` and takes no memory.
#![tactic(auto)]

pub mod routing;
pub mod ways;

pub use routing::{is_for_pool, route, route_frame};
pub use ways::{Route, Source};
