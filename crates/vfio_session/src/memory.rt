//! Guest addresses that get memory, and lose it.
ghost use Rattle.std.specs.Prelude.{◌≡◌};
ghost use Rattle.vfio_session.specs.Memory.{is_span, can_be};

use vfio_user::Mapping;

// Whether there is at least one number from the first on, and the last one is below 2^64.
pub(crate) fn is_span(first: u64, size: u64) -> bool
    ensures { result ≡ is_span first size }
{
    size > 0 && size - 1 <= u64::MAX - first
}

// Whether that is so of the addresses, and of the bytes of the file.
pub(crate) fn can_be(mapping: &Mapping) -> bool
    ensures { result ≡ can_be mapping.now }
{
    is_span(mapping.range.address, mapping.range.size)
        && is_span(mapping.offset, mapping.range.size)
}
