//! What a network card says of the checksums of a frame that it received: that of the IPv4 header, and that of TCP or UDP. It is over
//! bytes alone, and takes no memory.
//!
//! [`check_sums`] looks at a frame, and its answer has a [`Check`] of each of the two sums: it wasn't looked at, it verifies, or it
//! doesn't. A frame of another type costs the look at its type. Whatever a frame's bytes are, the call is done.
//!
//! What is judged of TCP and UDP is the sum of their bytes behind those of the pseudo header, as the standards write it down, and what a
//! sender sums by the standards is good. With one word of it changed it is bad, but for 0 and 0xFFFF in each other's place ([`laws`]).
//!
//! Sources: the 82599 datasheet, section 7.1.11 (receive checksum offloading), RFC 791 and 8200 (IP), 9293 (TCP), 768 (UDP).
//!
//! ```
//! // 14 bytes of Ethernet, and a header of IPv4 alone, whose checksum is 0x8DB1
//! let mut bytes = [0u8; 34];
//! bytes[12..22].copy_from_slice(&[0x08, 0x00, 0x45, 0, 0, 20, 0, 0, 0, 0]);
//! bytes[22..].copy_from_slice(&[64, 253, 0x8D, 0xB1, 192, 0, 2, 1, 198, 51, 100, 7]);
//! let Ok(frame) = Frame::new(&bytes, FrameLimit::longest()) else {
//!     return Err("it is a frame".into());
//! };
//! let found = check_sums(frame);
//! assert_eq!(rt; found.ip, Check::Good);
//! assert_eq!(rt; found.transport, Check::Unchecked);
//! ```
//!
//! # What the sources leave open
//!
//! | What | Here |
//! |---|---|
//! | a version or a length that doesn't fit its packet | neither sum is looked at |
//! | bytes behind the length that the IP header tells | padding: they are in no sum |
//! | a fragment of IPv4, the first one too | the sum of its header alone is looked at |
//! | IPv6 with an extension header | neither sum is looked at |
//! | TCP or UDP with fewer bytes than a header has, and a length of UDP that doesn't fit | the sum of the header alone is looked at |
//! | UDP whose checksum is 0, also over IPv6 | there is none: not looked at |
//! | a tag behind the tag, tunnels, SCTP's CRC | not looked at |
#![tactic(auto)]

mod check;
mod frame;
mod ip;
pub mod laws;
mod transport;
mod words;

pub use check::{Check, Checks};
pub use frame::check_sums;
