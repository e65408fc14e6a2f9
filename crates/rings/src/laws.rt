//! What holds of the definitions. Each function does nothing: its contract is the law.
ghost use Rattle.std.specs.Prelude.{◌≡◌, ◌≢◌, ℕ, ◌+◌, ◌-◌, ◌%◌, ◌<◌, true, false, [], length, slice_index};
ghost use Rattle.rings.specs.Ring.{RingState, IsValidRing, owned};

/// What the device owns of a ring that is on: from the head on one descriptor after another, round the ring, stopping
/// before the tail (82599 datasheet, receive and transmit descriptor queue structure). So where head and tail are equal it
/// owns none, and it never owns all. Of a ring that is off it owns none.
pub fn owned_from_head_to_tail()
    ensures none { (r : RingState) → r.enabled ≡ false → owned r ≡ [] }
    ensures count { (r : RingState) → IsValidRing r → r.enabled ≡ true
        → length (owned r) ≡ (r.tail + r.count - r.head) % r.count }
    ensures places { (r : RingState) (i : ℕ) → IsValidRing r → i < length (owned r)
        → slice_index (owned r) i ≡ (r.head + i) % r.count }
    ensures before { (r : RingState) (i : ℕ) → IsValidRing r → i < length (owned r)
        → slice_index (owned r) i ≢ r.tail }
    ensures tail { (r : RingState) → IsValidRing r → r.enabled ≡ true
        → (r.head + length (owned r)) % r.count ≡ r.tail }
{}
