//! What came of frames from the wire that came in one call.
ghost use Rattle.std.specs.Prelude.{◌≡◌};
ghost use Rattle.vfdev_c.specs.CardCalls.{none_wired};

/// What came of frames from the wire, as C sees it.
#[repr(C)]
#[derive(Clone, Copy, Debug, PartialEq, Eq)]
pub struct VfdevWired {
    /// How many frames were taken.
    pub taken: usize,
    /// How many were refused.
    pub refused: usize,
}

impl VfdevWired {
    pub(crate) fn none() -> VfdevWired
        ensures { result ≡ none_wired }
    {
        VfdevWired {
            taken: 0,
            refused: 0,
        }
    }
}
