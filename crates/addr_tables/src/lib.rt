//! Receive addresses and the multicast table of the physical function.
//!
//! [`AddrTables`] holds the registers RAL, RAH, MPSAR, MTA and MCSTCTRL, and answers which pools have an address
//! ([`AddrTables::pools_of`]) and whether the multicast table has it ([`AddrTables::multicast_hit`]). Its meaning is the
//! words of the registers, so a write changes one word and nothing else. Beside the words it keeps the addresses of the
//! valid entries in an index, so that a lookup compares at most 8 of them ([`AddrTables::probe`]); a write to an entry
//! brings up to date the address that the entry held and the one that it holds. It stands on [`pool_index`], and no call
//! takes memory.
#![tactic(auto)]

pub mod addresses;
pub mod registers;
mod words;

pub use addresses::AddrTables;
