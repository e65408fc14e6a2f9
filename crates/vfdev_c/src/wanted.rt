//! What a call wants of a device.
ghost use Rattle.std.specs.Prelude.{◌≡◌, nat_le, if◌then◌else◌};
ghost use Rattle.device.specs.Request.{event_of};
ghost use Rattle.vfdev_c.specs.Recorded.{kept_as, named};
ghost use Rattle.vfdev_c.specs.Wanted.{event_in, IsWanted};

use device::Request;

// How many bytes an event names at most.
const MOST_NAMED: usize = 65_535;

/// What a call wants of a device: an event, as its caller names it.
#[derive(Clone, Copy)]
pub enum Wanted<'a> {
    /// So many bytes of a guest's memory from an address on.
    Read(u8, u64, usize),
    /// Any other event.
    Other(Request<'a>),
}

impl<'a> Wanted<'a> {
    // The request for a device. Of more bytes than an event names, which are refused, it names as many as it can.
    #[inline(always)]
    pub(crate) fn as_request(self) -> Request<'a>
        requires { IsWanted self }
        ensures { event_of result ≡ kept_as (event_in self.entry) }
    {
        match self {
            Wanted::Read(function, at, count) => Request::MemRead(function, at, named(count)),
            Wanted::Other(request) => request,
        }
    }
}

// How many of so many bytes an event names.
#[inline]
fn named(count: usize) -> u16
    ensures { result ≡ named count }
{
    if count <= MOST_NAMED {
        count as u16
    } else {
        MOST_NAMED as u16
    }
}
