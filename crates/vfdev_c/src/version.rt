//! The version of the interface.
ghost use Rattle.std.specs.Prelude.{◌≡◌};

/// The version of this interface. It grows with each change that a caller has to know.
#[unsafe(no_mangle)]
pub extern "C" fn vfdev_version() -> u32
    ensures { result ≡ 2 }
{
    2
}
