//! What a network card does for a driver that leaves it undone: the checksums of a frame, and the cutting of TCP data into segments. It is all
//! over bytes; no call knows a queue or a memory, and none takes memory.
//!
//! [`Context::decode`] reads what a driver says of its frames, an advanced transmit context descriptor. [`insert_sums`] puts the checksum of the
//! IPv4 header and that of TCP or UDP into a frame, or names why it can't and leaves the frame as it is. [`Cut::of`] tells whether a frame can be
//! cut, and [`Cut::segment`] makes one of its segments among the bytes of the frame, which [`Cut::put_back`] makes whole again. Whatever a guest
//! writes into its descriptors and frames, each call is done.
//!
//! Each sum that was asked for verifies, also in each segment, and the payloads of the segments are the payload of the frame ([`laws`]).
//! What a segment is, byte for byte, [`Cut::segment`] says by one definition.
//!
//! Sources: the 82599 datasheet, sections 7.2.3.2.3 (the descriptor) and 7.2.4 (segmentation), RFC 791 and 8200 (IP), 9293 (TCP), 768 (UDP).
//!
//! ```
//! // 14 bytes of Ethernet, 20 of IPv4 and 20 of TCP; 10 bytes of payload a segment
//! let context = Context::decode(0x1C14, 0x000A_1400_0000_0C00);
//! let mut frame = [0u8; 75];
//! let Ok(cut) = Cut::of(&context, frame.len(), 1514) else {
//!     return Err("it can be cut".into());
//! };
//! let mut room = [0u8; 1514];
//! for number in 0..cut.count() {
//!     let size = cut.segment(&mut frame, number, &mut room);
//!     assert!(rt; size == 64 || number == 2);
//!     cut.put_back(&mut frame, number, &room);
//! }
//! ```
//!
//! # What the sources leave open
//!
//! | What | Here |
//! |---|---|
//! | lengths of a context that don't lie in the frame | the frame is not summed, or not cut, by name |
//! | the IP sum where the context says IPv6 | not summed, by name: there is no such field |
//! | SCTP's CRC, and the L4T that is reserved | not summed, by name |
//! | what stands in the field of the IPv4 header's sum | counts as 0 |
//! | what stands in the field of the sum of TCP or UDP | the partial sum of [`insert_sums`]; ignored in segments, whose pseudo header is made of the addresses that stand in the IP header |
//! | addresses in a routing header of IPv6 | not looked at: the last one would be that of the pseudo header (RFC 8200, 8.1) |
//! | lengths, identification and flags as the driver left them | the lengths are replaced; identification and sequence number are those of the first segment |
//! | L4LEN and IPLEN that differ from the headers' own lengths | the context's count |
//! | a payload that fits one segment | one segment |
//!
//! A tag is not inserted here.
#![tactic(auto)]

mod context;
mod cut;
pub mod laws;
mod offloads;
mod segment;
mod store;
mod sums;

pub use context::{Context, Ip, Transport};
pub use cut::{Cut, NotCut};
pub use offloads::Offloads;
pub use sums::{NotSummed, Sums, insert_sums};
