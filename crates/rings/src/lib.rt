//! A descriptor ring as the device sees it.
//!
//! A [`Ring`] is a circular list of descriptors of 16 bytes in guest memory (82599 datasheet, receive and transmit
//! descriptor queue structure). The device owns the descriptors from the head up to, not including, the tail. A ring that
//! is on is valid by its type: 8 to 4096 descriptors, head and tail below their number, and an end that an address can
//! name; [`Ring::try_enable`] turns on only a ring that lies inside the memory. [`laws`] has which descriptors the device
//! owns. No call takes memory.
#![tactic(auto)]

pub mod laws;
pub mod ring;

pub use ring::{Ring, RingRegister};
