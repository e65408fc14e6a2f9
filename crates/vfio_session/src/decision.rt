//! What a session decides about a message.
ghost use Rattle.std.specs.Prelude.{◌≡◌};
ghost use Rattle.vfio_session.specs.Decisions.{fate_for, fate_of};

use crate::owed::Owed;
use thiserror::Error;
use vfio_user::{Broken, Mapping, Range};

/// What is done with a message.
///
/// It isn't `Drop` where something is asked, since a reply is owed then: [`Owed`] has to be answered.
#[derive(Debug)]
pub enum Decision {
    /// The session has answered: the reply is so many bytes at the front of the room. `None`: the client wants no reply.
    Answered(Option<usize>),
    /// This is to be done outside, and then the reply that is owed is to be laid. The room is as it was.
    Asks(Ask, Owed),
    /// The connection is to be closed. The session is as a new one; what the client left outside, as mapped memory, is to go too.
    Ends(Breach),
}

/// What is to be done outside of the session, for its function.
#[derive(Clone, Copy, Debug, PartialEq, Eq)]
pub enum Ask {
    /// Read a register, at this offset: a multiple of 4 below 16,384. [`Settled::Value`](crate::Settled::Value) settles it.
    Read(u32),
    /// Write a value to a register, at such an offset.
    Write(u32, u32),
    /// The file that came with the message is memory at these guest addresses. There is at least one, and neither they nor the bytes of
    /// the file go past 2^64.
    Map(Mapping),
    /// There is no memory at these guest addresses any more; they are as those of [`Ask::Map`]. They may be ones that came without a
    /// file, of which nothing was asked: that they have no memory is no error then.
    Unmap(Range),
    /// Reset the function. The configuration space is as at first already, and vectors keep their files.
    Reset,
    /// The files that came with the message are those of these vectors, one for each in their order, in place of any that they have.
    Arm(VectorRange),
    /// These vectors have no file any more.
    Disarm(VectorRange),
}

/// Vectors of MSI-X, one at least: `first + count` is 3 at most.
#[derive(Clone, Copy, Debug, PartialEq, Eq)]
pub struct VectorRange {
    /// The first one.
    pub first: u32,
    /// How many.
    pub count: u32,
}

/// What becomes of the files that came with a message.
#[derive(Clone, Copy, Debug, PartialEq, Eq)]
pub enum Fate {
    /// All are to be closed, if any came.
    Closed,
    /// There is one, and it is for [`Ask::Map`].
    Memory,
    /// They are those of the vectors from this one on, for [`Ask::Arm`].
    Vectors(u32),
}

/// Why a connection ends: what the client did that the protocol doesn't allow.
#[derive(Clone, Copy, Debug, PartialEq, Eq, Error)]
pub enum Breach {
    /// No header can be made out.
    #[error("no header: {0}")]
    NoHeader(Broken),
    /// The size in the header isn't that of the message.
    #[error("a message isn't as long as its header says")]
    WrongSize,
    /// The first message isn't VERSION, or is cut short.
    #[error("the first message proposes no version")]
    NoVersion,
    /// VERSION proposes a major version that isn't 0.
    #[error("the major version isn't 0")]
    OtherVersion,
    /// VERSION came a second time.
    #[error("a version is proposed a second time")]
    SecondVersion,
    /// Files came with the first message.
    #[error("files came with a version")]
    StrayFiles,
}

impl Decision {
    /// What becomes of the files that came with the message. No file is left out: those that nothing asked for are to be closed.
    pub fn fate(&self) -> Fate
        ensures { result ≡ fate_of self.now }
    {
        match self {
            Decision::Asks(Ask::Map(_), _) => Fate::Memory,
            Decision::Asks(Ask::Arm(vectors), _) => Fate::Vectors(vectors.first),
            _ => Fate::Closed,
        }
    }
}
