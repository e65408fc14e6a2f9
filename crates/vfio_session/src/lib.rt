//! One function's end of a vfio-user connection, the protocol by which QEMU uses a PCI device that another process models: whole messages
//! in; replies, and what is to be done outside, out. It knows no device, no memory, no file and no socket, and no call takes memory.
//!
//! [`Session::receive`] takes a message, with the number of files that came beside it, and decides ([`Decision`]):
//!
//! - What it can answer by itself it answers at once: VERSION, what the function has, the configuration space, BAR 3, and all that it
//!   refuses. The reply stands at the front of the caller's room, and the rest of the room stays as it was.
//! - What needs a device, a memory or a file it asks for, in one small value ([`Ask`]): a register is to be read or written, guest
//!   addresses get memory or lose it, the function is to be reset, vectors of MSI-X get eventfds or lose them. Beside it comes the reply
//!   that is owed ([`Owed`]), which [`Owed::answer`] lays once what was asked is settled. It can't be made by others, nor copied, nor
//!   dropped: a message is answered once.
//! - Where the client breaks the protocol the connection ends, with the reason ([`Breach`]), and the session is as a new one.
//!
//! Whatever a client sends, and in whatever order: before VERSION nothing else is taken, and VERSION is taken once; a message whose header
//! names another size than it has ends the connection; a register that is asked for is one of BAR 0, a range of addresses doesn't wrap, a
//! vector is one of three; a reply is a function of the session and of this message alone; and each file has one fate ([`Fate`]). [`laws`]
//! says some of this of all messages and all lists of them.
//!
//! The source is the vfio-user Protocol Specification that QEMU 11.1 ships (docs/interop/vfio-user); `vfio_user` reads its messages, and
//! `pci_function` has the configuration space. What stock clients send, the tests have.
//!
//! # What a function has
//!
//! Version 0.0; nine regions, of which BAR 0 has the registers (16 KiB), BAR 3 the table of MSI-X (16 KiB), and region 7 is the configuration
//! space (4 KiB, as one of PCI Express; zeros behind its 256 bytes); five types of interrupts, of which MSI-X has three vectors. A client
//! may map no region, unless the caller offers an area of BAR 0 ([`Session::offer_area`]): the page with the registers of the transmit queues,
//! offsets 0x2000 to 0x2FFF. Then the reply to DEVICE_GET_REGION_INFO of BAR 0 names it, and is the one reply beside which a file goes; its
//! flags say so, by MMAP (bit 2). The page has nothing of the receive queues: a driver polls RXDCTL once it turned one off, so that its writes
//! have to stay messages. What a client writes into the page, this crate neither sees nor is told.
//!
//! # What the protocol leaves open
//!
//! | What | Here |
//! |---|---|
//! | an access of BAR 0 that isn't 4 bytes at a multiple of 4 | `EINVAL`, and nothing is asked. The registers are of 32 bits, and neither QEMU nor a stock driver makes another access |
//! | BAR 3 | reads zeros, writes are dropped: QEMU keeps the table and the pending bits itself |
//! | bytes that aren't all in their region | `EINVAL`; nothing is read or written in part |
//! | DMA_MAP without a file | done, and nothing is asked: the range has no memory that a device reaches. QEMU maps ROMs so. `EINVAL` where the flags call for a file |
//! | DMA_UNMAP | is asked for, also of a range that came without a file |
//! | a range of no addresses, or one that goes past 2^64 | `EINVAL`, and so for the bytes of its file |
//! | a number of files that isn't what a request wants | `EINVAL`, and all of them are to be closed; with VERSION the connection ends |
//! | DEVICE_SET_IRQS with eventfds | as many as vectors, in place of those that they have; with none the vectors lose theirs |
//! | DEVICE_SET_IRQS without data | all vectors lose theirs, where `start` and `count` are 0; to trigger vectors by message is `ENOTSUP` |
//! | DEVICE_SET_IRQS that masks or unmasks | `ENOTSUP`: IRQ_INFO doesn't offer it |
//! | another type of interrupts than MSI-X, and vectors that aren't there | `EINVAL` |
//! | DEVICE_RESET | the function is to be reset, and the configuration space is as at first, just as by Initiate Function Level Reset. Vectors keep their files: these are the client's, which takes them away itself |
//! | a message that wants no reply | gets none, not even where it is refused |
//!
//! A server that has a message and a device behind it answers so:
//!
//! ```
//! let mut session = Session::new();
//! let mut room = [0u8; ROOM];
//! // VERSION 0.0
//! let version = [0, 0, 1, 0, 20, 0, 0, 0, 0, 0, 0, 0, 0, 0, 0, 0, 0, 0, 0, 0];
//! match session.receive(&version, 0, &mut room) {
//!     Decision::Answered(count) => assert!(rt; count == Some(114)),
//!     Decision::Asks(_, owed) => assert!(rt; owed.answer(Settled::Finished, &mut room).is_none()),
//!     Decision::Ends(_) => return Err("the connection has to end".into()),
//! }
//! // REGION_READ of the register at offset 8
//! let mut message = [0u8; 32];
//! message[..8].copy_from_slice(&[1, 0, 9, 0, 32, 0, 0, 0]);
//! message[16..].copy_from_slice(&[8, 0, 0, 0, 0, 0, 0, 0, 0, 0, 0, 0, 4, 0, 0, 0]);
//! let count = match session.receive(&message, 0, &mut room) {
//!     Decision::Answered(count) => count,
//!     // here the device would read the register
//!     Decision::Asks(Ask::Read(8), owed) => owed.answer(Settled::Value(0x4000_0080), &mut room),
//!     Decision::Asks(_, owed) => owed.answer(Settled::Finished, &mut room),
//!     Decision::Ends(_) => return Err("the connection has to end".into()),
//! };
//! assert!(rt; count == Some(36));
//! assert!(rt; room.get(32..36) == Some([0x80, 0, 0, 0x40].as_slice()));
//! ```
#![tactic(auto)]

mod decision;
pub mod laws;
mod memory;
mod offered;
mod owed;
mod regions;
mod session;
mod vectors;

pub use decision::{Ask, Breach, Decision, Fate, VectorRange};
pub use owed::{Owed, Settled};
pub use session::{ROOM, Session};
