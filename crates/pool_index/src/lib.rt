//! Keys in their order, each with its pools.
//!
//! [`PoolIndex`] keeps numbers that strictly rise, each with a set of pools as a mask of 64 bits. It finds the pools of a
//! key by no more comparisons than the number of its places has binary digits ([`PoolIndex::probe`]), gives a key other
//! pools ([`PoolIndex::put`]) and takes a key out ([`PoolIndex::take_out`]). Its meaning is the list of what it keeps: each
//! [`Entry`] of it is a key with its pools, while `Entries`, of this crate's definitions, is what a table says of its own.
//!
//! [`KeyedTable`] holds register words whose entries hold keys ([`KeyedWords`]), and an index that keeps exactly the keys of
//! the valid entries with their pools: `IsIndexOf`, of this crate's definitions, from which follows that there is room for
//! each. Its meaning is the words. A write ([`KeyedTable::write`]) looks at every entry for the key that the entry of the
//! word held, and for the one that it holds; a lookup ([`KeyedTable::probe`]) searches the index alone. The crate stands on
//! [`wire_frame`] and [`arrayvec`], and no call takes memory.
#![tactic(auto)]

pub mod index;
pub mod table;

pub use index::{Entry, PoolIndex};
pub use table::{KeyedTable, KeyedWords};
