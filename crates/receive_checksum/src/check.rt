//! What is found of a checksum.
ghost use Rattle.std.specs.Prelude.{◌≡◌};
ghost use Rattle.receive_checksum.specs.Checks.{unchecked, judged};

/// What was found of one checksum.
#[derive(Clone, Copy, Debug, PartialEq, Eq)]
pub enum Check {
    /// It wasn't looked at: there is none, or it isn't one that the card knows.
    Unchecked,
    /// It verifies.
    Good,
    /// It doesn't.
    Bad,
}

/// What was found of the checksums of a frame (82599 datasheet, 7.1.11).
#[derive(Clone, Copy, Debug, PartialEq, Eq)]
pub struct Checks {
    /// That of the IPv4 header.
    pub ip: Check,
    /// That of TCP or UDP.
    pub transport: Check,
}

impl Checks {
    /// Nothing was looked at.
    #[inline]
    pub fn none() -> Checks
        ensures { result ≡ unchecked }
    {
        Checks {
            ip: Check::Unchecked,
            transport: Check::Unchecked,
        }
    }
}

/// What a sum in ones' complement says that covers its checksum: it verifies where all its bits are 1 (RFC 1071, 1).
#[inline]
pub(crate) fn judged(sum: u16) -> Check
    ensures { result ≡ judged sum }
{
    if sum == u16::MAX {
        Check::Good
    } else {
        Check::Bad
    }
}
