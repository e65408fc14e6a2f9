//! What holds of the definitions.
ghost use Rattle.std.specs.Prelude.{◌≡◌, ℕ, ◌≤◌, List};
ghost use Rattle.rx_desc.specs.Receive.{pieces};
ghost use Rattle.rx_desc.specs.Cut.{IsCut};

/// The pieces of a text are its only cut: the texts whose join it is, all of `b` bytes but the last, which has 1 to `b`.
pub fn pieces_are_the_only_cut()
    ensures cut { (b : ℕ) (xs : List ℕ) → 1 ≤ b → IsCut b xs (pieces b xs) }
    ensures only { (b : ℕ) (xs : List ℕ) (ps : List (List ℕ)) → 1 ≤ b → IsCut b xs ps
        → ps ≡ pieces b xs }
{}
