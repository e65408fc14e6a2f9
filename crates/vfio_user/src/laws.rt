//! Laws of the codec. A function here does nothing: its contract is the law.
ghost use Rattle.std.specs.Prelude.{◌≡◌, ◌<◌, ◌^◌, ℕ, List, Ok};
ghost use Rattle.vfio_user.specs.declared.header.Header.{Header};
ghost use Rattle.vfio_user.specs.Header.{header_of};
ghost use Rattle.vfio_user.specs.Requests.{Request, request_of};
ghost use Rattle.vfio_user.specs.Replies.{Reply, HasItsBytes, reply_bytes};
ghost use Rattle.vfio_user.specs.Told.{IsReplyTo};
ghost use Rattle.vfio_user.specs.Spelled.{spelled_header, HeaderFits, command_of, spelled, IsSpelled};

/// What is spelled is read: a header, and a request, whatever stands behind them.
pub fn read_back()
    ensures header { (h : Header) (error : ℕ) (more : List ℕ) → HeaderFits h → header_of (spelled_header h error more) ≡ Ok h }
    ensures request { (r : Request) (more : List ℕ) → IsSpelled r → request_of (command_of r) (spelled r more) ≡ Ok r }
{}

/// Whatever is answered, the client finds the id and the command of its message, that it is a reply, and the reply's own size.
pub fn names_its_message()
    ensures { (h : Header) (r : Reply) → HeaderFits h → HasItsBytes r → IsReplyTo h (reply_bytes h r) }
{}
