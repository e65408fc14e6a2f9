//! The page of a virtual function's transmit registers (BAR 0, 0x2000 to 0x2FFF), where it is memory that the function's client has too: what
//! the client wrote there becomes register writes. The crate is all of that which is a decision; whoever has the page reads its words and
//! writes them. No call takes memory, and each is done whatever the words and the bytes are.
//!
//! The words of a queue are known as they were at one look, and as they are at the next. What lay between them, and in which order it was
//! written, is lost. [`changes_between`] says it in an order in which it is right (82599 datasheet, 4.6.8: base, length and head of a ring are set
//! while its queue is off, then the queue is turned on, and its tail is moved last): no more than ten writes. [`laws`] says of them that
//! nothing is lost and nothing is invented, that a ring is never touched while its queue is on, and that a queue comes on as the last but
//! its tail.
//!
//! What the function makes of those writes goes back into the page: [`is_put_back`] says of which words, [`may_service_change`] of
//! which after a service, and [`touched_by`] of which after a message of the client that wrote registers. [`is_offer`] tells with which reply
//! the client gets the page.
//!
//! ```
//! // a driver has set up a ring of 8 descriptors, turned its queue on and queued two frames
//! let was = RingWords::zeros();
//! let now = RingWords {
//!     base_low: 0x1000,
//!     length: 128,
//!     control: 0x200_0000,
//!     tail: 2,
//!     ..was
//! };
//! let changes = changes_between(&was, &now);
//! assert_eq!(rt; changes.as_slice().len(), 5);
//! assert_eq!(rt; offset_of(1, changes.as_slice()[0].register), 0x2040);
//! ```
#![tactic(auto)]

pub mod changes;
pub mod laws;
pub mod messages;
pub mod put_back;
pub mod words;

pub use changes::{Changes, TransmitWrite, changes_between};
pub use messages::{Touched, is_offer, touched_by};
pub use put_back::{is_put_back, may_service_change};
pub use words::{RingWords, TransmitRegister, offset_of, register_at};
