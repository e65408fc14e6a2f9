//! The Internet checksum, by which IPv4, TCP and UDP guard what they send (RFC 1071): over bytes alone, in one pass, and without memory of
//! its own.
//!
//! [`sum`] adds the bytes as 16-bit words in ones' complement, and [`checksum`] is that sum with its bits turned over, as it stands in a
//! header. Bytes can be summed in parts, and a checksum that is stored where its field was verifies ([`laws`]). All calls are done
//! whatever the bytes are and however many.
//!
//! ```
//! // the words 0x0001, 0xF203, 0xF4F5 and 0xF6F7 (RFC 1071, section 3)
//! let bytes = [0x00u8, 0x01, 0xF2, 0x03, 0xF4, 0xF5, 0xF6, 0xF7];
//! assert_eq!(rt; sum(&bytes, 0), 0xDDF2);
//! assert_eq!(rt; checksum(&bytes), 0x220D);
//! ```
#![tactic(auto)]

pub mod laws;
mod words;

pub use words::{checksum, folded, never_zero, sum};
