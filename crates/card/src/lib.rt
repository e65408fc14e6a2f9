//! A card: a device with its host, and for each function the end of the connection by which its guest's QEMU uses it. Bytes of vfio-user
//! in; replies, and what a shell is to do with files and mappings, out. It knows no socket and no file, and no call after the maker takes
//! memory.
//!
//! A shell has a socket for each function, and nothing to decide. It hands a whole message to [`Card::receive`], which answers it: the
//! function's own session reads it ([`vfio_session`](../vfio_session/index.html)), and the card reads and writes registers and resets the
//! function; the driver's messages to its host, by the mailbox, are answered in the same call. What needs a file is left to the shell, as
//! one of four orders ([`Order`]). Descriptors are taken by [`Card::more`] alone, so many at a time, for the queues whose tails were
//! written; vectors that are raised wait until [`Card::signal`] names them, and hands them out for their own function. A client may be offered
//! to map a page of its registers ([`Card::offer_area`]): then one reply has a file of the shell's beside it, and says so by its flags.
//!
//! A function's client reaches nothing of another function: after each of these calls for function p every other function is as it was, in
//! the device, at the host, its mailbox, its session, its queues and its vectors. That is a clause of each call (`others`), whatever bytes
//! came. Frames are the one way from function to function, and the device's law of isolation is about these: [`Card::more`] is a run of
//! services, [`Card::wire`] one event of it, and [`Card::wire_burst`] a run of these. Over any list of calls a function lives by what it is given alone
//! ([`laws::lived_by_ones_own`]).
//!
//! A shell does this for each function, in turn:
//!
//! ```
//! let alloc = rt.alloc();
//! let mut memories = Vec::new(alloc);
//! memories.push(LiveMem::for_guest(alloc, 0)?)?;
//! let mut card = Card::for_guests(
//!     alloc,
//!     memories,
//!     &[Vid::of_tag(0)],
//!     None,
//!     FrameLimit::standard(),
//!     Offloads::none(),
//! )?;
//! let pool = PoolId::new(0).ok_or("no such pool")?;
//! // a guest comes, with 64 TiB of addresses, of which its client will map some
//! if card
//!     .attach(pool, LiveMem::for_guest(alloc, 1 << 46)?)
//!     .is_err()
//! {
//!     return Err("the guest is refused".into());
//! }
//! let mut room = [0u8; ROOM];
//! // its client's first message: VERSION 0.0, beside which no file came
//! let message = [0, 0, 1, 0, 20, 0, 0, 0, 0, 0, 0, 0, 0, 0, 0, 0, 0, 0, 0, 0];
//! let count = match card.receive(pool, &message, 0, &mut room) {
//!     Step::Answered(count) => count,
//!     // here the shell would map a file, or give a file to a vector
//!     Step::Asks(_, owed) => owed.answer(Settled::Finished, &mut room),
//!     Step::Ends(_) => return Err("the connection has to end".into()),
//! };
//! assert!(rt; count == Some(114));
//! // descriptors, and the frames that leave for the wire
//! let mut frames = Frames::new(alloc, 64, 65536)?;
//! let mut sending = Room::new();
//! assert!(rt; !card.more(pool, &mut frames, &mut sending));
//! // and the vectors whose files are to be written
//! assert!(rt; card.signal(pool, Vectors::from_bits(7)).is_empty());
//! ```
#![tactic(auto)]

pub mod card;
pub mod guests;
pub mod laws;
pub mod policies;
pub mod receiving;
pub mod serving;
pub mod step;

pub use card::{Card, End};
pub use device::{Room, Vector};
pub use serving::{MOST_SERVICES, WireCount};
pub use step::{Order, Step};
