//! What a card decides about a message.
ghost use Rattle.std.specs.Prelude.{◌≡◌};
ghost use Rattle.card.specs.Steps.{fate_in};

use vfio_session::{Breach, Fate, Owed, VectorRange};
use vfio_user::{Mapping, Range};

/// What is done with a message.
///
/// It isn't `Drop` where something is left to the shell, since a reply is owed then: [`Owed`] has to be answered.
#[derive(Debug)]
pub enum Step {
    /// It is done, and the reply is so many bytes at the front of the room. `None`: the client wants no reply.
    Answered(Option<usize>),
    /// The shell is to do this, and then to lay the reply that is owed ([`Owed::answer`]). The room is as it was. What it can't do ends
    /// the connection.
    Asks(Order, Owed),
    /// The connection is to be closed, and its guest detached ([`Card::detach`](crate::Card::detach)).
    Ends(Breach),
}

/// What is left to the shell, which has the files: each of the four is as `vfio_session::Ask` says.
#[derive(Clone, Copy, Debug, PartialEq, Eq)]
pub enum Order {
    /// The file that came with the message is memory at these guest addresses.
    Map(Mapping),
    /// There is no memory at these guest addresses any more.
    Unmap(Range),
    /// The files that came with the message are those of these vectors, one for each in their order.
    Arm(VectorRange),
    /// These vectors have no file any more.
    Disarm(VectorRange),
}

impl Step {
    /// What becomes of the files that came with the message. No file is left out: those that nothing asked for are to be closed.
    pub fn fate(&self) -> Fate
        ensures { result ≡ fate_in self.now }
    {
        match self {
            Step::Asks(Order::Map(_), _) => Fate::Memory,
            Step::Asks(Order::Arm(vectors), _) => Fate::Vectors(vectors.first),
            _ => Fate::Closed,
        }
    }
}
