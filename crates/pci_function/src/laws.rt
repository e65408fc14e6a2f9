//! Laws of the space. A function here does nothing: its contract is the law.
ghost use Rattle.std.specs.Prelude.{ℕ, List};
ghost use Rattle.pci_function.specs.Space.{initial};
ghost use Rattle.pci_function.specs.Fixed.{IsFixed, after};

/// After any writes each bit that no write sets is as it was at first: a guest can't change what the function is, nor what it can do.
pub fn a_guest_changes_nothing_else()
    ensures { (writes : List (ℕ × List ℕ)) → IsFixed (after writes initial) }
{}
