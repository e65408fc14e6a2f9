//! What the rule of a line means to a guest, over the definitions alone. The function does nothing: its contract is the law.
ghost use Rattle.std.specs.Prelude.{◌≡◌, ℕ, ◌<◌, ◌≤◌, List, ◌++◌, slice_index};
ghost use Rattle.std.specs.Int.{bit_at};
ghost use Rattle.irq_line.specs.declared.views.Raise.{Raise};
ghost use Rattle.irq_line.specs.Line.{LineState, IsLine, StandsOrTaken, guest_of, raises_for, raised, landed, answered};

/// Between any two steps, no message was invented and none was lost.
pub fn conservation()
    // a guest took no vector more often than it was raised for its pool
    ensures none_invented { (line : LineState) (rule : IsLine line) (p v : ℕ) → p < 64 →
        answered v (guest_of rule.guests p).did.takes ≤ raised p v rule.raises }
    // a guest peeked no vector that was not raised for its pool
    ensures none_made_up { (line : LineState) (rule : IsLine line) (p v : ℕ) → p < 64 →
        0 < answered v (guest_of rule.guests p).did.peeks → 0 < raised p v rule.raises }
    // a vector that was raised at some time, and that does not stand, was taken at some time
    ensures none_lost { (line : LineState) (rule : IsLine line) (p v : ℕ) → p < 64 →
        0 < raised p v rule.raises → bit_at (slice_index line.words p) v ≡ 0 →
        0 < answered v (guest_of rule.guests p).did.takes }
    // it was taken as often as it landed
    ensures each_once { (line : LineState) (rule : IsLine line) (p v : ℕ) → p < 64 →
        bit_at (slice_index line.words p) v ≡ 0 →
        answered v (guest_of rule.guests p).did.takes ≡ landed p v rule.raises }
    // in the story of the pool's word a raise is followed by a take that answered the vector, or the vector stands
    ensures last_stands { (line : LineState) (rule : IsLine line) (p v : ℕ) (low : p < 64) →
        StandsOrTaken v (rule.words p low).story (slice_index line.words p) }
    // a vector stands that was raised after the guest's last take
    ensures later_stands { (line : LineState) (rule : IsLine line) (p v : ℕ) (later : List Raise) → p < 64 →
        raises_for p rule.raises ≡ (guest_of rule.guests p).seen ++ later → 0 < raised p v later →
        bit_at (slice_index line.words p) v ≡ 1 }
{}
