//! The VLAN entries and the VLAN table of the physical function.
//!
//! [`VlanTable`] holds the registers VLNCTRL, VFTA, VLVF and VLVFB, and answers which pools have a VLAN id
//! ([`VlanTable::pools_of`]) and whether VLANs are filtered at all ([`VlanTable::filtering`]). Its meaning is the words of
//! the registers, so a write changes one word and nothing else. Beside the words it keeps the ids of the valid entries in
//! an index, so that a lookup compares at most 7 of them ([`VlanTable::probe`]); a write to an entry brings up to date the
//! id that the entry held and the one that it holds. It stands on [`pool_index`], and no call takes memory.
#![tactic(auto)]

pub mod registers;
pub mod vlans;
mod words;

pub use vlans::VlanTable;
