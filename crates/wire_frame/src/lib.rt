//! Ethernet frames, and the small types that every layer of the device shares.
//!
//! A [`Frame`] is a frame by its type, whose bytes stand elsewhere: 14 to 9018 of them without FCS, and at least 18 where it is tagged.
//! A [`FrameBuf`] holds such bytes itself.
//! [`PoolId`], [`Vid`] and [`FrameLimit`] carry their bounds in the same way, and [`Fault`] names every refusal of the
//! device. A [`PoolSet`] is a set of pools, which a `for` loop goes through in rising order. Beside them stand the words that
//! several crates speak of: bits ([`has_bit`]) and fields ([`field`]) of words, the two words of pools in a table
//! ([`pool_words`]) and rows of a register map ([`Row`]). No call takes memory.
#![tactic(auto)]

pub mod address;
pub mod bits;
pub mod fault;
pub mod frame;
pub mod pool;
pub mod pool_set;
pub mod row;
pub mod vlan;

pub use address::{AddressKind, Mac};
pub use bits::{field, has_bit, pool_words};
pub use fault::Fault;
pub use frame::{Frame, FrameBuf, FrameBytes, FrameLimit, is_frame, is_tagged};
pub use pool::PoolId;
pub use pool_set::{PoolSet, Pools};
pub use row::{Row, read_one, read_word, write_one, write_word};
pub use vlan::{PortVlan, Vid};
