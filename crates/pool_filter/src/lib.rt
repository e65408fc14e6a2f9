//! All settings of the physical function, and which pools accept a frame.
//!
//! [`Tables`] holds every register of the physical function but those that show which functions were reset. Its meaning
//! is the words of these registers: a write changes one word and nothing else. On them stand [`accepting_pools`], which says
//! which pools accept a frame, the default pool, the switches of each pool, and what of the settings is one pool's own.
//! [`Tables::keeps_apart`] says before any frame whether the settings keep a group of pools from reaching the others.
//! [`Own`] holds the last as a value, which [`Tables::own`] fills and which then answers without the tables; who asks
//! either for a sender's rules asks [`SenderRules`]. [`laws`] has what is promised of a pool's own settings and of the register map as a whole. The crate stands on [`addr_tables`] and
//! [`vlan_table`], and no call takes memory.
#![tactic(auto)]

pub mod filter;
pub mod flags;
pub mod laws;
mod masks;
pub mod own;
pub mod reach;
pub mod registers;
pub mod rules;
pub mod tables;

pub use filter::{accept_mask, accepting_pools};
pub use flags::PoolFlags;
pub use own::Own;
pub use rules::{PoolRules, SenderRules};
pub use tables::Tables;
