//! The messages of vfio-user, the protocol by which QEMU uses a PCI device that another process models: bytes in, a request out; a reply
//! in, bytes out. No call reads or writes a socket, and none takes memory.
//!
//! [`Header::decode`] reads the 16 bytes in front of a message, [`Request::decode`] what stands behind them, and [`Reply::encode`] writes
//! the reply to a message into the caller's room. Whatever a client sends, each of them is done, and says what it read or why it can't:
//! [`Broken`] where no message can be made out, so that the connection has to end, and an [`Errno`] to be sent back otherwise. A read
//! or a write of a region has at most 4,096 bytes, and a write has just the bytes that it announces. A reply is one to its message, by
//! id and command; it has at most 4,128 bytes, and no byte behind it is touched. What is spelled as the protocol says is read as what
//! was spelled ([`laws`]).
//!
//! The source is the vfio-user Protocol Specification that QEMU 11.1 ships (docs/interop/vfio-user), whose sections are named here.
//! Numbers have their lowest byte first, as on every host that this is for. What stock clients send, the tests have.
//!
//! A server that has a message answers it so:
//!
//! ```
//! // REGION_READ of two bytes of the configuration space, from byte 2 on
//! let mut message = [0u8; 32];
//! message[..16].copy_from_slice(&[7, 0, 9, 0, 32, 0, 0, 0, 0, 0, 0, 0, 0, 0, 0, 0]);
//! message[16..].copy_from_slice(&[2, 0, 0, 0, 0, 0, 0, 0, 7, 0, 0, 0, 2, 0, 0, 0]);
//! let Ok(header) = Header::decode(&message) else {
//!     return Err("the connection has to end".into());
//! };
//! let mut room = [0u8; MOST as usize];
//! let count = match Request::decode(header.command, &message[16..]) {
//!     Ok(Request::Read(region)) if region.count == 2 => {
//!         Reply::Bytes(region, [0xED, 0x10].as_slice()).encode(&header, &mut room)
//!     }
//!     Ok(_) => Reply::Done.encode(&header, &mut room),
//!     Err(errno) => Reply::Failed(errno).encode(&header, &mut room),
//! };
//! assert!(rt; room[..count].ends_with(&[2, 0, 0, 0, 0xED, 0x10]));
//! ```
//!
//! # What is not offered
//!
//! Commands 1 to 5, 7 to 10 and 13 are read, which are all that QEMU sends where nothing more is offered. All others are answered
//! `ENOTSUP`. So is REGION_WRITE_MULTI, which has up to 200 writes in one message: the work that one message can ask for stays
//! small. A client sends it only where the server's capabilities have `write_multiple`, and these don't.
//!
//! The JSON behind VERSION's numbers is not read. It bounds what a server may send by itself (files, DMA_READ, DMA_WRITE), and a server
//! over this crate sends nothing but replies. To read it would take memory, as much as the client likes. The reply has a constant
//! text: 8 files in one message, 4,096 bytes of a region, pages of 4 KiB, and 64 mapped ranges.
//!
//! # What the protocol leaves open
//!
//! | What | Here |
//! |---|---|
//! | bytes behind the fields of a request | ignored: a later version may add fields. Behind a write stand its bytes alone, else `EINVAL` |
//! | an `argsz` below the size of the request's fields, or of the reply's fixed part | `EINVAL`, as for a request that is cut short |
//! | an `argsz` above it | as it is; of use in DEVICE_GET_REGION_INFO alone, whose reply may have a capability |
//! | fields of a request that are to be zero, since the reply fills them | ignored |
//! | in a command: the flags above No_reply, and the error | ignored |
//! | DMA_MAP with neither readable nor writeable, or with an unknown flag | `EINVAL` |
//! | DMA_MAP with access by file I/O | `ENOTSUP` |
//! | DMA_UNMAP with a flag, which the protocol has no use for (Linux's VFIO has) | `ENOTSUP`: what it asks for would not be done |
//! | DEVICE_SET_IRQS with no data flag or two of them, no action flag or two, or an unknown flag | `EINVAL` |
//! | DEVICE_SET_IRQS with an array of booleans | `ENOTSUP` |
//!
//! Whether an index, an offset, an address or a size exists, whether files came with a message, and whether VERSION came first, the caller
//! has to look at.
#![tactic(auto)]

mod errno;
mod fields;
mod header;
pub mod laws;
mod reply;
mod request;

pub use errno::Errno;
pub use header::{Broken, Header};
pub use reply::{Area, Reply};
pub use request::{Access, Action, Carried, Irqs, Mapping, Range, Region, RegionQuery, Request};

/// The bytes of a header.
pub const HEADER: usize = 16;

/// The most bytes of a region that one message reads or writes.
pub const MOST_DATA: u32 = 4096;

/// The most bytes of a message, with its header: 16, the 16 that say which bytes of a region, and those bytes.
pub const MOST: u32 = 4128;
